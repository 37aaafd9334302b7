//! Days, texts and the rows of the calendar, where the one holiday is Christmas Day, 2024-12-25.
//!
//! A DAY is `YYYY-MM-DD`, a number YYYYMMDD, `first` or `last`. The verbs:
//!
//! - `day DAY`: its number, or `none` for what is no day.
//! - `before DAY`: the number of the day before.
//! - `written DAY`: the day in a sentence.
//! - `compare DAY DAY`: whether the first is earlier, the same or later.
//! - `latest DAY DAY ..`: the greatest of them.
//! - `value TEXT`: the value that a field writes, and whether that is the one for none.
//! - `special`: the four texts that stand where there is no value.
//! - `slots WORD WORD ..`: a copy of the texts by slot.
//! - `holiday DAY`: whether the calendar has a holiday on it, and its name.
//! - `row DAY`: the row of the calendar, from its key to its holiday.
//! - `key MOST TEXT`: the key of at most so many bytes that a field writes, and whether its copy is the same.
//! - `debug MOST TEXT`: what `{:?}` writes of it.

ghost use Rattle.std.specs.Prelude.{◌≡◌, ◌∷◌, ◌<◌, ◌≤◌, ◌↔◌, [], IsTrue, IfSome, All};

use crate::words::{day, number, push_day, push_next, push_value, push_values};
use std::alloc::{AllocError, Global};
use std::fmt::Write;
use wh_day::{DateRow, Day, Holiday, Holidays, NaturalKey, Value, Values, date_row};
use wh_scenarios::{Driver, NotMade, Step, parted};

#[derive(Drop)]
pub struct DayDriver;

impl Driver for DayDriver {
    fn start(_alloc: Global) -> Result<DayDriver, NotMade> {
        Ok(DayDriver)
    }

    fn perform(
        self,
        alloc: Global,
        step: &Step<'_>,
        answer: &mut String,
    ) -> Result<DayDriver, NotMade> {
        day_step(alloc, step.words, answer)?;
        Ok(self)
    }
}

fn day_step(alloc: Global, words: &str, answer: &mut String) -> Result<(), AllocError> {
    let (verb, rest) = parted(words, ' ');
    match verb {
        "day" => push_day(answer, day(rest)),
        "before" => push_before(answer, day(rest)),
        "written" => written(answer, day(rest)),
        "compare" => compare(answer, rest),
        "latest" => push_latest(alloc, answer, rest),
        "holiday" => holiday(alloc, answer, day(rest)),
        "row" => row(alloc, answer, day(rest)),
        _ => text_step(alloc, verb, rest, answer),
    }
}

fn text_step(alloc: Global, verb: &str, rest: &str, answer: &mut String) -> Result<(), AllocError> {
    match verb {
        "value" => value(alloc, answer, rest),
        "special" => special(alloc, answer),
        "slots" => slots(alloc, answer, rest),
        "key" => key(answer, rest),
        "debug" => debug(answer, rest),
        _ => answer.push_str("no such step"),
    }
}

fn push_before(answer: &mut String, day: Option<Day>) -> Result<(), AllocError> {
    match day {
        Some(day) => push_day(answer, day.before()),
        None => answer.push_str("no day"),
    }
}

fn written(answer: &mut String, day: Option<Day>) -> Result<(), AllocError> {
    match day {
        Some(day) => write!(answer, "from {day}"),
        None => answer.push_str("no day"),
    }
}

fn is_later(a: Day, b: Day) -> bool
    ensures { IsTrue result ↔ (b < a) }
{
    a > b
}

fn compared(a: Day, b: Day) -> &'static str {
    if a == b {
        "same"
    } else if is_later(a, b) {
        "later"
    } else {
        "earlier"
    }
}

fn compare(answer: &mut String, rest: &str) -> Result<(), AllocError> {
    let (one, other) = parted(rest, ' ');
    let (Some(a), Some(b)) = (day(one), day(other)) else {
        return answer.push_str("no day");
    };
    answer.push_str(compared(a, b))
}

fn latest(days: &[Day]) -> Option<Day>
    ensures { IfSome result (λ day. All (λ d. d ≤ day) days.now) }
{
    days.iter().copied().max()
}

fn push_latest(alloc: Global, answer: &mut String, rest: &str) -> Result<(), AllocError> {
    let mut days = Vec::new(alloc);
    for word in rest.split(' ') {
        if let Some(day) = day(word) {
            days.push(day)?;
        }
    }
    push_day(answer, latest(&days))
}

fn value(alloc: Global, answer: &mut String, text: &str) -> Result<(), AllocError> {
    match Value::read(alloc, text.as_bytes())? {
        Some(value) => {
            answer.push_str(value.as_str())?;
            answer.push_str(if value.is_none() { " for none" } else { "" })
        }
        None => answer.push_str("no value"),
    }
}

fn special(alloc: Global, answer: &mut String) -> Result<(), AllocError> {
    push_value(answer, &Value::none(alloc)?)?;
    push_value(answer, &Value::unknown(alloc)?)?;
    push_value(answer, &Value::no_card(alloc)?)?;
    push_value(answer, &Value::empty(alloc))
}

fn slots(alloc: Global, answer: &mut String, rest: &str) -> Result<(), AllocError> {
    let mut values = Values::new(alloc);
    for word in rest.split(' ') {
        values.push(Value::new(alloc, word)?.copy()?)?;
    }
    push_values(answer, &values.copy(alloc)?)
}

/// The key that `MOST TEXT` asks for.
fn key_of(rest: &str) -> Option<NaturalKey> {
    let (most, text) = parted(rest, ' ');
    NaturalKey::read(number(most) as usize, text.as_bytes())
}

fn key(answer: &mut String, rest: &str) -> Result<(), AllocError> {
    match key_of(rest) {
        Some(key) => {
            answer.push_str(key.as_str())?;
            answer.push_str(if key.copy() == key { ", copied" } else { "" })
        }
        None => answer.push_str("no key"),
    }
}

fn debug(answer: &mut String, rest: &str) -> Result<(), AllocError> {
    write!(answer, "{:?}", key_of(rest))
}

fn christmas(alloc: Global) -> Result<Holidays, AllocError> {
    let mut holidays = Holidays::new(alloc);
    if let Some(day) = Day::from_key(20241225) {
        let name = Value::new(alloc, "Christmas Day")?;
        holidays.push(Holiday { day, name })?;
    }
    Ok(holidays)
}

fn holiday(alloc: Global, answer: &mut String, day: Option<Day>) -> Result<(), AllocError> {
    let holidays = christmas(alloc)?;
    let Some(day) = day else {
        return answer.push_str("no day");
    };
    match holidays.name(day) {
        Some(name) if holidays.has(day) => answer.push_str(name.as_str()),
        None if !holidays.has(day) => answer.push_str("none"),
        _ => answer.push_str("name and has differ"),
    }
}

fn row(alloc: Global, answer: &mut String, day: Option<Day>) -> Result<(), AllocError> {
    match day {
        Some(day) => push_row(answer, &date_row(alloc, day, &christmas(alloc)?)?),
        None => answer.push_str("no day"),
    }
}

/// The columns of a row.
const HEADER: &str =
    "iso|weekday_name|holiday| date_key year quarter month day day_of_year weekday\n";

fn push_row(answer: &mut String, row: &DateRow) -> Result<(), AllocError> {
    answer.push_str(HEADER)?;
    push_value(answer, &row.iso)?;
    push_value(answer, &row.weekday_name)?;
    push_value(answer, &row.holiday)?;
    push_next(answer, row.date_key.key() as i128)?;
    push_numbers(answer, row)?;
    answer.push_str(if row.weekend { " weekend" } else { "" })
}

fn push_numbers(answer: &mut String, row: &DateRow) -> Result<(), AllocError> {
    push_next(answer, row.year as i128)?;
    push_next(answer, row.quarter as i128)?;
    push_next(answer, row.month as i128)?;
    push_next(answer, row.day as i128)?;
    push_next(answer, row.day_of_year as i128)?;
    push_next(answer, row.weekday as i128)
}
