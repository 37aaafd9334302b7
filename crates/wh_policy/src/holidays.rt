//! Reads the holidays of a calendar.

ghost use Rattle.std.specs.Prelude.{◌≡◌, [], false, map, option_map, IfOk};
ghost use Rattle.std.specs.List.{list_any};
ghost use Rattle.wh_day.specs.Holidays.{is_on};
ghost use Rattle.wh_day.specs.Reading.{Gives};
ghost use Rattle.toml.specs.View.{view, table_view};
ghost use Rattle.wh_policy.specs.Document.{each_after};
ghost use Rattle.wh_policy.specs.Holidays.{day_of, title_of, holiday_of, holidays_of};

use crate::document::{has_only, required, tables_of, unknown_in};
use crate::fault::PolicyFault;
use crate::place::{Place, PlacedFault};
use crate::policy::Years;
use std::alloc::Global;
use toml::{Table, Value as TomlValue};
use wh_day::{Day, Holiday, Holidays, ParseError, Value};

const ARRAY: &str = "holiday";

const HOLIDAY_KEYS: [&str; 2] = ["day", "name"];

#[tactic(auto, unfolding(crate::specs::Holidays::day_of))]
fn day_of<'a>(
    years: Years,
    place: Place<'a>,
    value: &'a TomlValue,
) -> Result<Day, ParseError<PlacedFault<'a>>>
    ensures { Gives (λ day. day) result (day_of years (view value.now)) }
{
    let Some(text) = value.as_str() else {
        return Err(place.at("day").fault(PolicyFault::BadHoliday));
    };
    match Day::read(text.as_bytes()) {
        Some(day) if years.contains(day) => Ok(day),
        _ => Err(place.at("day").fault(PolicyFault::BadHoliday)),
    }
}

#[tactic(auto, unfolding(crate::specs::Holidays::title_of))]
fn title_of<'a>(
    alloc: Global,
    place: Place<'a>,
    value: &'a TomlValue,
) -> Result<Value, ParseError<PlacedFault<'a>>>
    ensures { Gives (λ name. name) result (title_of (view value.now)) }
{
    let Some(text) = value.as_str() else {
        return Err(place.at("name").fault(PolicyFault::BadHoliday));
    };
    match text.as_bytes() {
        [] => Err(place.at("name").fault(PolicyFault::BadHoliday)),
        bytes => match Value::read(alloc, bytes)? {
            Some(name) => Ok(name),
            None => Err(place.at("name").fault(PolicyFault::BadHoliday)),
        },
    }
}

#[tactic(auto, unfolding(crate::specs::Holidays::holiday_of))]
fn holiday_of<'a>(
    alloc: Global,
    years: Years,
    earlier: &Holidays,
    table: &'a Table,
) -> Result<Holiday, ParseError<PlacedFault<'a>>>
    ensures value { Gives (λ holiday. holiday) result (holiday_of years earlier.now (table_view table.now)) }
    ensures new { IfOk result (λ holiday. list_any (is_on holiday.day) earlier.now ≡ false) }
{
    let place = Place::of_table(ARRAY, earlier.as_slice().len());
    if !has_only(table, &HOLIDAY_KEYS) {
        return Err(unknown_in(place, table, &HOLIDAY_KEYS).fault(PolicyFault::UnknownKey));
    }
    let day = required(place, table, "day")?;
    let name = required(place, table, "name")?;
    let day = day_of(years, place, day)?;
    let name = title_of(alloc, place, name)?;
    if earlier.has(day) {
        return Err(place.at("day").fault(PolicyFault::BadHoliday));
    }
    Ok(Holiday { day, name })
}

fn holiday_list<'a>(
    alloc: Global,
    years: Years,
    tables: &[&'a Table],
) -> Result<Holidays, ParseError<PlacedFault<'a>>>
    ensures { Gives (λ holidays. holidays) result (each_after (holiday_of years) [] (map (λ t. table_view t.now) tables.now)) }
{
    let mut holidays = Holidays::new(alloc);
    for table in tables {
        let next = holiday_of(alloc, years, &holidays, table)?;
        holidays.push(next)?;
    }
    Ok(holidays)
}

/// The holidays of the years, in the order of their tables; none where there is no value.
#[tactic(auto, unfolding(crate::specs::Holidays::holidays_of))]
pub(crate) fn holidays_of<'a>(
    alloc: Global,
    years: Years,
    value: Option<&'a TomlValue>,
) -> Result<Holidays, ParseError<PlacedFault<'a>>>
    ensures { Gives (λ holidays. holidays) result (holidays_of years (option_map (λ v. view v.now) value.entry)) }
{
    match value {
        None => Ok(Holidays::new(alloc)),
        Some(value) => {
            let tables = tables_of(alloc, PolicyFault::BadHoliday, ARRAY, value)?;
            holiday_list(alloc, years, &tables)
        }
    }
}
