//! The rendering of a member: one row for each span of days in which its tracked values stay.

ghost use Rattle.std.specs.Prelude.{◌≡◌, ◌≢◌, ◌++◌, ◌∷◌, [], List, map, IfOk, OnOk, bytes_eq, slice_index_or};
ghost use Rattle.std.specs.Option.{option_copied};
ghost use Rattle.wh_day.specs.Day.{first_day, day_before};
ghost use Rattle.wh_history.specs.Slots.{slot, six, columns_from};
ghost use Rattle.wh_history.specs.Dated.{dated, at};
ghost use Rattle.wh_history.specs.Profiles.{profile_now_by};
ghost use Rattle.wh_history.specs.Known.{number_in};
ghost use Rattle.wh_history.specs.Rows.{same_tracked, starts, spans, main_column, second_column, row, rows_by, start_key};
ghost use Rattle.wh_history.specs.Rendering.{steady_column, shown_column, IsStart, IsFrame};
ghost use Rattle.wh_history.specs.Laws.{ChangesHaveDays, EachDayHasOneRow, OneRowIsCurrent};

use crate::dated::{dated, last_other_than, newest, original, said};
use crate::member::{Change, Member};
use crate::profiles::{Profiles, newest_profile};
use crate::rows::DimRow;
use crate::slots::fill_columns;
use std::alloc::{AllocError, Global};
use wh_day::{Day, Value, Values};
use wh_policy::{AttributeType, MainColumn, SecondColumn};

/// What a member's columns are made from.
#[derive(Drop)]
struct History<'a> {
    changes: &'a [Change],
    dated: &'a [&'a Change],
    types: &'a [AttributeType],
}

/// What all rows of a member share.
#[derive(Drop)]
struct Frame<'a> {
    member: &'a Member,
    types: &'a [AttributeType],
    /// The texts of the main column, empty where the attribute is tracked.
    steady: Values,
    second: Values,
    profile_now: u64,
}

/// Where a row begins.
#[derive(Drop)]
struct Start<'a> {
    day: Day,
    surrogate: u64,
    /// The change in force on this day, which a placeholder hasn't.
    change: Option<&'a Change>,
}

/// Whether two lists of values have the same in a slot.
fn is_same_slot(some: &[Value], other: &[Value], place: usize) -> bool
    ensures { result ≡ bytes_eq (slot some.now place) (slot other.now place) }
{
    match (some.get(place), other.get(place)) {
        (Some(a), Some(b)) => a.is_same(b),
        (Some(a), None) => a.is_none(),
        (None, Some(b)) => b.is_none(),
        (None, None) => true,
    }
}

/// Whether no tracked value differs between two changes.
fn same_tracked(types: &[AttributeType], some: &Change, other: &Change) -> bool
    ensures { result ≡ same_tracked types.now some.now other.now }
{
    let (a, b) = (some.values.as_slice(), other.values.as_slice());
    for (place, kind) in types.iter().enumerate() {
        if kind.is_tracked() && !is_same_slot(a, b, place) {
            return false;
        }
    }
    true
}

/// What every row shows of a slot in its main column, if that doesn't depend on where the row begins.
fn steady_column(
    alloc: Global,
    history: &History,
    place: usize,
    kind: AttributeType,
) -> Result<Value, AllocError>
    requires { map (λ c. c.now) history.now.dated.now ≡ dated history.now.changes.now }
    ensures { IfOk result (λ t. t ≡ steady_column history.now.changes.now place kind) }
{
    match kind.rule().main {
        MainColumn::Original => original(alloc, history.changes, place),
        MainColumn::Latest => said(alloc, newest(history.dated), place),
        MainColumn::FirstDay | MainColumn::Nothing => Ok(Value::empty(alloc)),
    }
}

/// What every row shows of a slot in its second column.
fn second_column(
    alloc: Global,
    history: &History,
    place: usize,
    kind: AttributeType,
) -> Result<Value, AllocError>
    requires { map (λ c. c.now) history.now.dated.now ≡ dated history.now.changes.now }
    ensures { IfOk result (λ t. t ≡ second_column history.now.changes.now place kind) }
{
    match kind.rule().second {
        SecondColumn::Nothing => Ok(Value::empty(alloc)),
        SecondColumn::Prior => {
            let latest = said(alloc, newest(history.dated), place)?;
            last_other_than(alloc, history.dated, place, &latest)
        }
        SecondColumn::Latest => said(alloc, newest(history.dated), place),
    }
}

fn steady_texts(alloc: Global, history: &History) -> Result<Values, AllocError>
    requires { map (λ c. c.now) history.now.dated.now ≡ dated history.now.changes.now }
    ensures { IfOk result (λ v. v ≡ columns_from (steady_column history.now.changes.now) 0 history.now.types.now) }
{
    let mut texts = Values::new(alloc);
    for (place, kind) in history.types.iter().enumerate() {
        texts.push(steady_column(alloc, history, place, *kind)?)?;
    }
    Ok(texts)
}

fn second_texts(alloc: Global, history: &History) -> Result<Values, AllocError>
    requires { map (λ c. c.now) history.now.dated.now ≡ dated history.now.changes.now }
    ensures { IfOk result (λ v. v ≡ six (columns_from (second_column history.now.changes.now) 0 history.now.types.now)) }
{
    let mut texts = Values::new(alloc);
    for (place, kind) in history.types.iter().enumerate() {
        texts.push(second_column(alloc, history, place, *kind)?)?;
    }
    fill_columns(alloc, &mut texts)?;
    Ok(texts)
}

/// The text at a place, and no text past the end.
fn text_or_empty(alloc: Global, texts: &[Value], place: usize) -> Result<Value, AllocError>
    ensures { IfOk result (λ t. t ≡ slice_index_or texts.now place []) }
{
    match texts.get(place) {
        Some(text) => text.copy(),
        None => Ok(Value::empty(alloc)),
    }
}

/// The main column of a row at whose start the change is in force.
fn main_texts(
    alloc: Global,
    types: &[AttributeType],
    steady: &[Value],
    change: Option<&Change>,
) -> Result<Values, AllocError>
    ensures { IfOk result (λ v. v ≡ six (columns_from (shown_column steady.now (option_copied change.entry)) 0 types.now)) }
{
    let mut texts = Values::new(alloc);
    for (place, kind) in types.iter().enumerate() {
        let text = if kind.is_tracked() {
            said(alloc, change, place)?
        } else {
            text_or_empty(alloc, steady, place)?
        };
        texts.push(text)?;
    }
    fill_columns(alloc, &mut texts)?;
    Ok(texts)
}

/// The row from a start to a day.
fn render_row(
    alloc: Global,
    frame: &Frame,
    start: &Start,
    to_day: Day,
) -> Result<DimRow, AllocError>
    requires frame { IsFrame frame.now.types.now frame.now.member.now frame.now.steady frame.now.second }
    requires start { IsStart frame.now.member.now start.now.day start.now.surrogate (option_copied start.now.change) }
    ensures { IfOk result (λ r. r ≡ row frame.now.types.now frame.now.profile_now frame.now.member.now (start.now.day, to_day)) }
{
    Ok(DimRow {
        surrogate: start.surrogate,
        durable: frame.member.durable,
        natural: frame.member.natural.copy()?,
        from_day: start.day,
        to_day,
        is_current: to_day == Day::last(),
        a: main_texts(alloc, frame.types, frame.steady.as_slice(), start.change)?,
        b: frame.second.copy(alloc)?,
        profile_now: frame.profile_now,
    })
}

/// The day before a day that isn't the first.
fn day_before(next: Day) -> Day
    requires { next ≢ first_day }
    ensures { result ≡ day_before next }
{
    match next.before() {
        Some(day) => day,
        None => next,
    }
}

/// The rows of a member, by its changes in order of their days.
fn render_dated(
    alloc: Global,
    frame: &Frame,
    changes: &[&Change],
) -> Result<Vec<DimRow>, AllocError>
    requires frame { IsFrame frame.now.types.now frame.now.member.now frame.now.steady frame.now.second }
    requires changes { map (λ c. c.now) changes.now ≡ dated frame.now.member.now.changes }
    requires days { ChangesHaveDays frame.now.member.now.changes }
    ensures rows { IfOk result (λ found. found.items ≡ map (row frame.now.types.now frame.now.profile_now frame.now.member.now) (spans first_day (starts frame.now.types.now (dated frame.now.member.now.changes)))) }
    ensures days { IfOk result (λ found. EachDayHasOneRow found.items) }
    ensures current { IfOk result (λ found. OneRowIsCurrent found.items) }
{
    let mut found = Vec::new(alloc);
    let mut start = Start {
        day: Day::first(),
        surrogate: frame.member.opening,
        change: changes.first().copied(),
    };
    for place in 1..changes.len() {
        let change = changes[place];
        if same_tracked(frame.types, changes[place - 1], change) {
            continue;
        }
        found.push(render_row(alloc, frame, &start, day_before(change.day))?)?;
        start = Start {
            day: change.day,
            surrogate: change.anchor,
            change: Some(change),
        };
    }
    found.push(render_row(alloc, frame, &start, Day::last())?)?;
    Ok(found)
}

/// A member's rows under the types of its dimension's attributes, in order of their starts.
pub(crate) fn render(
    alloc: Global,
    types: &[AttributeType],
    member: &Member,
    profiles: &Profiles,
) -> Result<Vec<DimRow>, AllocError>
    ensures rows { IfOk result (λ found. found.items ≡ rows_by types.now (number_in profiles.now) member.now) }
    // No two rows overlap, and no day is left out.
    ensures days { IfOk result (λ found. EachDayHasOneRow found.items) }
    ensures current { IfOk result (λ found. OneRowIsCurrent found.items) }
{
    let dated = dated(alloc, member.changes.as_slice())?;
    let history = History {
        changes: member.changes.as_slice(),
        dated: &dated,
        types,
    };
    let frame = Frame {
        member,
        types,
        steady: steady_texts(alloc, &history)?,
        second: second_texts(alloc, &history)?,
        profile_now: newest_profile(alloc, types, profiles, newest(&dated))?,
    };
    render_dated(alloc, &frame, &dated)
}
