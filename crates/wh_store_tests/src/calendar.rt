//! The days of a calendar with one holiday.

use crate::trouble::Trouble;
use crate::words::{Step, number};
use sqlite::Alter;
use std::alloc::{AllocError, Global};
use wh_day::{Day, Holiday, Holidays, Value, date_row};
use wh_rows::tables::Calendar;
use wh_scenarios::parted;
use wh_store::Writing;

/// One holiday, 2024-12-25.
fn holidays(alloc: Global) -> Result<Holidays, AllocError> {
    let mut holidays = Holidays::new(alloc);
    holidays.push(Holiday {
        day: Day::from_key(20241225).unwrap_or(Day::last()),
        name: Value::new(alloc, "Christmas Day")?,
    })?;
    Ok(holidays)
}

fn put_day<S: Alter>(
    alloc: Global,
    writing: &mut Writing<'_, S>,
    holidays: &Holidays,
    key: u64,
) -> Result<(), Trouble> {
    let Ok(key) = i64::try_from(key) else {
        return Ok(());
    };
    match Day::from_key(key) {
        Some(day) => {
            let row = date_row(alloc, day, holidays)?;
            Ok(writing.put::<Calendar>(alloc, &row)?)
        }
        None => Ok(()),
    }
}

/// `FIRST PAST`: puts each day from one number YYYYMMDD to before another.
pub fn put_days<S: Alter>(
    alloc: Global,
    writing: &mut Writing<'_, S>,
    step: Step<'_>,
) -> Result<(), Trouble> {
    let (first, past) = parted(step.rest, ' ');
    let (first, past) = (number(first)?, number(past)?);
    let holidays = holidays(alloc)?;
    for key in first..past {
        put_day(alloc, writing, &holidays, key)?;
    }
    Ok(())
}
