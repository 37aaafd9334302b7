//! The rows of the calendar dimension.

ghost use Rattle.std.specs.Prelude.{◌≡◌, ◌+◌, IfOk};
ghost use Rattle.jiff_core.specs.Weekday.{monday_zero};
ghost use Rattle.wh_day.specs.Calendar.{date_row, name_of_weekday};
ghost use Rattle.wh_day.specs.Day.{day_text};
ghost use Rattle.wh_day.specs.Holidays.{holiday_text};

use crate::day::Day;
use crate::holiday::Holidays;
use crate::value::Value;
use jiff::civil::Weekday;
use std::alloc::{AllocError, Global};

/// A row of the calendar, with a field for each column.
///
/// After Kimball & Ross, *The Data Warehouse Toolkit*, 3rd edition, chapter 3, "Date Dimension". What the book writes as
/// a weekday indicator is the flag `weekend`, and its holiday indicator is the holiday's name. The ranges below are those
/// of the rows that [`date_row`] makes; a stored row may hold any numbers.
#[derive(Debug, Drop)]
pub struct DateRow {
    /// The number YYYYMMDD.
    pub date_key: Day,
    /// `YYYY-MM-DD`.
    pub iso: Value,
    /// 1900 to 9999.
    pub year: i64,
    /// 1 to 4.
    pub quarter: i64,
    /// 1 to 12.
    pub month: i64,
    /// 1 to 31.
    pub day: i64,
    /// 1 to 366.
    pub day_of_year: i64,
    /// 1 for Monday to 7 for Sunday.
    pub weekday: i64,
    /// `Monday` to `Sunday`.
    pub weekday_name: Value,
    /// Saturday or Sunday.
    pub weekend: bool,
    /// The name of the holiday, or `(none)`.
    pub holiday: Value,
}

impl DateRow {
    /// The same row, in memory of its own.
    pub fn copy(&self) -> Result<DateRow, AllocError>
        ensures { IfOk result (λ copied. copied ≡ self.now) }
    {
        Ok(DateRow {
            date_key: self.date_key,
            iso: self.iso.copy()?,
            year: self.year,
            quarter: self.quarter,
            month: self.month,
            day: self.day,
            day_of_year: self.day_of_year,
            weekday: self.weekday,
            weekday_name: self.weekday_name.copy()?,
            weekend: self.weekend,
            holiday: self.holiday.copy()?,
        })
    }
}

/// The row of a day in a calendar with these holidays.
#[tactic(auto, unfolding(crate::specs::Calendar::date_row))]
pub fn date_row(alloc: Global, day: Day, holidays: &Holidays) -> Result<DateRow, AllocError>
    ensures { IfOk result (λ row. row ≡ date_row holidays.now day) }
{
    let date = day.to_date();
    let weekday = date.weekday();
    let number = weekday.to_monday_one_offset();
    Ok(DateRow {
        date_key: day,
        iso: day_text(alloc, day)?,
        year: date.year() as i64,
        quarter: (date.month() as i64 + 2) / 3,
        month: date.month() as i64,
        day: date.day() as i64,
        day_of_year: date.day_of_year() as i64,
        weekday: number as i64,
        weekday_name: Value::new(alloc, name_of_weekday(weekday))?,
        weekend: number >= 6,
        holiday: holiday_text(alloc, day, holidays)?,
    })
}

fn day_text(alloc: Global, day: Day) -> Result<Value, AllocError>
    ensures { IfOk result (λ value. value ≡ day_text day) }
{
    Ok(Value::of(format!(in alloc; "{day}")?))
}

fn name_of_weekday(weekday: Weekday) -> &'static str
    ensures { result.now ≡ name_of_weekday (monday_zero weekday + 1) }
{
    match weekday {
        Weekday::Monday => "Monday",
        Weekday::Tuesday => "Tuesday",
        Weekday::Wednesday => "Wednesday",
        Weekday::Thursday => "Thursday",
        Weekday::Friday => "Friday",
        Weekday::Saturday => "Saturday",
        Weekday::Sunday => "Sunday",
    }
}

fn holiday_text(alloc: Global, day: Day, holidays: &Holidays) -> Result<Value, AllocError>
    ensures { IfOk result (λ value. value ≡ holiday_text holidays.now day) }
{
    match holidays.name(day) {
        Some(name) => name.copy(),
        None => Value::none(alloc),
    }
}
