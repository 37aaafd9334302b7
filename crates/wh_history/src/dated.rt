//! What was accepted of a member, by the days that it speaks of.

ghost use Rattle.std.specs.Prelude.{◌≡◌, ◌++◌, ◌∷◌, [], true, List, map, reverse, IfOk, OnOk};
ghost use Rattle.std.specs.Option.{option_copied};
ghost use Rattle.wh_day.specs.Day.{is_day};
ghost use Rattle.wh_day.specs.Value.{none_text};
ghost use Rattle.wh_history.specs.Slots.{slot};
ghost use Rattle.wh_history.specs.Dated.{keep, dated, at, newest, said, value_at, latest, original, prior, values_in, first_other_than};
ghost use Rattle.wh_history.specs.Laws.{ChangesHaveDays};

use crate::member::Change;
use std::alloc::{AllocError, Global};
use wh_day::{Day, Value};

/// Adds a change in order of the days, unless there is one of its day.
fn keep<'a>(dated: &mut Vec<&'a Change>, change: &'a Change) -> Result<(), AllocError>
    ensures ok { OnOk result (map (λ c. c.now) dated.new.items ≡ keep change.now (map (λ c. c.now) dated.old.items)) }
    ensures day { is_day change.now.day ≡ true }
{
    let key = change.day.key();
    let mut place = 0;
    while place < dated.len() && dated[place].day.key() < key {
        place += 1;
    }
    if place < dated.len() && dated[place].day.key() == key {
        return Ok(());
    }
    dated.insert(place, change)?;
    Ok(())
}

/// The last accepted change of each day, in order of the days.
pub fn dated(alloc: Global, changes: &[Change]) -> Result<Vec<&Change>, AllocError>
    ensures found { IfOk result (λ found. map (λ c. c.now) found.items ≡ dated changes.now) }
    // Every change has a day of the calendar.
    ensures days { OnOk result (ChangesHaveDays changes.now) }
{
    let mut found = Vec::new(alloc);
    let mut left = changes.len();
    while left > 0 {
        left -= 1;
        keep(&mut found, &changes[left])?;
    }
    Ok(found)
}

/// Of changes in order of their days, the one that says what holds at the day.
pub fn change_on<'a>(dated: &[&'a Change], day: Day) -> Option<&'a Change>
    ensures { option_copied result ≡ at day (map (λ c. c.now) dated.now) }
{
    let mut found: Option<&'a Change> = None;
    for change in dated {
        let is_after = day < change.day;
        if is_after && found.is_some() {
            return found;
        }
        found = Some(*change);
    }
    found
}

/// The change of the greatest day.
pub fn newest<'a>(dated: &[&'a Change]) -> Option<&'a Change>
    ensures { option_copied result ≡ newest (map (λ c. c.now) dated.now) }
{
    dated.last().copied()
}

/// The value in a slot, which is the text for none where there is no such slot.
pub(crate) fn slot_text(alloc: Global, values: &[Value], place: usize) -> Result<Value, AllocError>
    ensures { IfOk result (λ t. t ≡ slot values.now place) }
{
    match values.get(place) {
        Some(text) => text.copy(),
        None => Value::none(alloc),
    }
}

/// What a change says of a slot, or that nothing is known.
pub(crate) fn said(
    alloc: Global,
    change: Option<&Change>,
    place: usize,
) -> Result<Value, AllocError>
    ensures { IfOk result (λ t. t ≡ said place (option_copied change.entry)) }
{
    match change {
        Some(change) => slot_text(alloc, change.values.as_slice(), place),
        None => Value::unknown(alloc),
    }
}

/// The first value that was given, in order of acceptance.
pub fn original(alloc: Global, changes: &[Change], place: usize) -> Result<Value, AllocError>
    ensures { IfOk result (λ t. t ≡ original place changes.now) }
{
    if changes.is_empty() {
        return Value::unknown(alloc);
    }
    for change in changes {
        let text = slot_text(alloc, change.values.as_slice(), place)?;
        if !text.is_none() {
            return Ok(text);
        }
    }
    Value::none(alloc)
}

/// Of changes in order of their days, the value of the last at which it was not that text.
pub(crate) fn last_other_than(
    alloc: Global,
    dated: &[&Change],
    place: usize,
    text: &Value,
) -> Result<Value, AllocError>
    ensures { IfOk result (λ t. t ≡ first_other_than text.now (reverse (values_in place (map (λ c. c.now) dated.now)))) }
{
    let mut left = dated.len();
    while left > 0 {
        left -= 1;
        let other = slot_text(alloc, dated[left].values.as_slice(), place)?;
        if !other.is_same(text) {
            return Ok(other);
        }
    }
    Value::none(alloc)
}

/// A member's value at a day, as its definition says it. Rows are made without it, from the dated list that all slots share;
/// tests compare them with it.
pub fn value_at(
    alloc: Global,
    changes: &[Change],
    place: usize,
    day: Day,
) -> Result<Value, AllocError>
    ensures { IfOk result (λ t. t ≡ value_at day place changes.now) }
{
    let dated = dated(alloc, changes)?;
    said(alloc, change_on(&dated, day), place)
}

/// A member's value of the greatest day, as its definition says it. Rows are made without it, as without `value_at`.
pub fn latest(alloc: Global, changes: &[Change], place: usize) -> Result<Value, AllocError>
    ensures { IfOk result (λ t. t ≡ latest place changes.now) }
{
    let dated = dated(alloc, changes)?;
    said(alloc, newest(&dated), place)
}

/// A member's value of the greatest day at which it was not the latest, as its definition says it. Rows are made without
/// it, as without `value_at`.
pub fn prior(alloc: Global, changes: &[Change], place: usize) -> Result<Value, AllocError>
    ensures { IfOk result (λ t. t ≡ prior place changes.now) }
{
    let dated = dated(alloc, changes)?;
    let latest = said(alloc, newest(&dated), place)?;
    last_other_than(alloc, &dated, place, &latest)
}
