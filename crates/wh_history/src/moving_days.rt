//! The days whose facts can move when more is accepted of a member.

ghost use Rattle.std.specs.Prelude.{◌≡◌, drop, length, nat_lt, IfOk};
ghost use Rattle.std.specs.List.{list_any};
ghost use Rattle.std.specs.Option.{option_copied};
ghost use Rattle.wh_history.specs.MovingDays.{before_record, earliest, first_kept, latest_day, moves_since, moves_until};
ghost use Rattle.wh_history.specs.Shapes.{rendered_in, shape_of, shown};

use crate::dimension::{DimensionShape, RenderedRows};
use crate::facts::key_in;
use crate::member::{Change, Member};
use std::alloc::{AllocError, Global};
use wh_day::Day;

/// The earliest day of changes, and the last day of all where there is none.
fn earliest(changes: &[Change]) -> Day
    ensures { result ≡ earliest changes.now }
{
    let mut day = Day::last();
    let mut left = changes.len();
    while left > 0 {
        left -= 1;
        if changes[left].day < day {
            day = changes[left].day;
        }
    }
    day
}

/// The latest day of changes, and the first day of all where there is none.
fn latest_day(changes: &[Change]) -> Day
    ensures { result ≡ latest_day changes.now }
{
    let mut day = Day::first();
    let mut left = changes.len();
    while left > 0 {
        left -= 1;
        if day < changes[left].day {
            day = changes[left].day;
        }
    }
    day
}

/// What a batch adds to the changes that are stored.
fn new_changes<'a>(stored: &[Change], changes: &'a [Change]) -> &'a [Change]
    ensures { result.now ≡ drop (length stored.now) changes.now }
{
    if changes.len() < stored.len() {
        return &[];
    }
    &changes[stored.len()..]
}

/// Whether a change is of an earlier day.
fn has_earlier(changes: &[Change], first: Day) -> bool
    ensures { result ≡ list_any (λ c. nat_lt c.day first) changes.now }
{
    changes.iter().any(|change| change.day < first)
}

/// The day since which a member's facts can move, by its changes before a batch and with it: the first of the new ones,
/// where an older one is of an earlier day, else the first day of all.
pub fn moves_since(stored: &[Change], changes: &[Change]) -> Day
    ensures { result ≡ moves_since stored.now changes.now }
{
    let first = earliest(new_changes(stored, changes));
    if has_earlier(stored, first) {
        return first;
    }
    Day::first()
}

/// Whether a change is of a later day.
fn has_later(changes: &[Change], last: Day) -> bool
    ensures { result ≡ list_any (λ c. nat_lt last c.day) changes.now }
{
    changes.iter().any(|change| last < change.day)
}

/// Of a member's records that are of a later day, by the days, the first whose day keeps its row.
fn first_kept<'a>(stored: &RenderedRows<'a>, after: &RenderedRows, last: Day) -> Option<&'a Change>
    ensures { option_copied result ≡ first_kept (shown stored.now) (shown after.now) last }
{
    for change in &stored.dated {
        let day = change.day;
        if last < day && key_in(&stored.rows, day) == key_in(&after.rows, day) {
            return Some(*change);
        }
    }
    None
}

/// The day before a record's, and the last day of all where there is no record.
fn before_record(kept: Option<&Change>) -> Day
    ensures { result ≡ before_record (option_copied kept.entry) }
{
    match kept {
        Some(change) => change.day.before().unwrap_or(Day::last()),
        None => Day::last(),
    }
}

impl DimensionShape<'_> {
    /// The last day whose facts can move, of a member as it is stored and as it is after a batch. Where no stored record has a later
    /// day than all new ones, this is the last day of all, and the stored rows aren't made. The error comes where memory ran out.
    pub fn moves_until(
        &self,
        alloc: Global,
        stored: &Member,
        after: &RenderedRows,
    ) -> Result<Day, AllocError>
        ensures { IfOk result (λ day. day ≡ moves_until (rendered_in (shape_of self.now) stored.now) (shown after.now)) }
    {
        let changes = stored.changes.as_slice();
        let last = latest_day(new_changes(changes, after.member.changes.as_slice()));
        if !has_later(changes, last) {
            return Ok(Day::last());
        }
        let stored = self.rendered(alloc, stored)?;
        Ok(before_record(first_kept(&stored, after, last)))
    }
}
