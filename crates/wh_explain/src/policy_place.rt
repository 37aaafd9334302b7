//! Where in the text of a policy a fault stands, and what stands there.

use crate::encoding::no_utf8_at;
use crate::row::LineAt;
use crate::shown::{Quoted, push, push_name};
use std::alloc::{AllocError, Global};
use toml::{Table, Value as TomlValue};
use wh_day::ParseError;
use wh_policy::{FIRST_YEAR, LAST_YEAR, MOST_YEARS, Place, PlacedFault, Policy, PolicyFault};

/// The table in which a place is.
fn table_at<'a>(policy: &'a Table, place: Place) -> Option<&'a Table> {
    match place.array {
        None => Some(policy),
        Some(array) => {
            let tables = policy.get(array)?.as_array()?;
            tables.get(place.number.saturating_sub(1))?.as_table()
        }
    }
}

/// What stands at a key.
fn value_at<'a>(policy: &'a Table, place: Place) -> Option<&'a TomlValue> {
    table_at(policy, place)?.get(place.key?)
}

/// What stands in a place.
fn push_found(text: &mut Vec<u8>, found: Option<&TomlValue>) -> Result<(), AllocError> {
    match found {
        Some(TomlValue::String(string)) => {
            push!(text; ": the text ", Quoted(string.as_bytes()), " stands there; ")
        }
        Some(TomlValue::Integer(number)) => {
            push!(text; ": the number ", *number, " stands there; ")
        }
        Some(other) => push!(text; ": a TOML ", other.type_str(), " stands there; "),
        None => push!(text; " is missing; "),
    }
}

/// What is wrong with a year; nothing is said of what is no whole number.
fn push_wrong_year(
    text: &mut Vec<u8>,
    policy: &Table,
    found: Option<&TomlValue>,
) -> Result<(), AllocError> {
    let first = integer_in(policy.get("first_year"));
    match (integer_in(found), first) {
        (Some(year), _) if year < FIRST_YEAR => push!(text; "it is too early; "),
        (Some(year), _) if year > LAST_YEAR => push!(text; "it is too late; "),
        (Some(year), Some(first)) if year < first => push!(text; "it is before first_year; "),
        (Some(_), _) => push!(text; "that makes more than ", MOST_YEARS, " years; "),
        (None, _) => Ok(()),
    }
}

fn integer_in(value: Option<&TomlValue>) -> Option<i64> {
    value?.as_integer()
}

/// A key, and what stands there.
fn push_key(
    text: &mut Vec<u8>,
    policy: &Table,
    fault: &PlacedFault,
    key: &str,
) -> Result<(), AllocError> {
    let found = value_at(policy, fault.place());
    push!(text; "key ")?;
    push_name(text, key)?;
    push_found(text, found)?;
    match fault.kind() {
        PolicyFault::BadYears => push_wrong_year(text, policy, found),
        _ => Ok(()),
    }
}

/// An array, and which of its tables.
fn push_array(text: &mut Vec<u8>, array: &str, number: usize) -> Result<(), AllocError> {
    push!(text; "[[", array, "]]")?;
    if number > 0 {
        push!(text; " number ", number)?;
    }
    Ok(())
}

fn push_place(text: &mut Vec<u8>, policy: &Table, fault: &PlacedFault) -> Result<(), AllocError> {
    let place = fault.place();
    if let Some(array) = place.array {
        push_array(text, array, place.number)?;
        push!(text; if place.key.is_some() { ", " } else { ": " })?;
    }
    match place.key {
        Some(key) => push_key(text, policy, fault, key),
        None => Ok(()),
    }
}

/// The line at which a text is no TOML, and why.
fn push_syntax(
    text: &mut Vec<u8>,
    bytes: &[u8],
    error: &toml::de::Error,
) -> Result<(), AllocError> {
    let start = match error.span() {
        Some(span) => span.start,
        None => return Ok(()),
    };
    push!(text; LineAt(bytes, start), ": ", error.message(), "; ")
}

/// The line on which a file has the first byte that is no UTF-8.
fn push_no_text(text: &mut Vec<u8>, bytes: &[u8]) -> Result<(), AllocError> {
    let place = no_utf8_at(bytes).unwrap_or(0);
    push!(text; LineAt(bytes, place), ": no UTF-8; ")
}

/// Where the fault of a policy stands, and what stands there, where that can be said.
pub(crate) fn push_policy_place(
    text: &mut Vec<u8>,
    alloc: Global,
    bytes: &[u8],
) -> Result<(), AllocError> {
    let Ok(policy) = std::str::from_utf8(bytes) else {
        return push_no_text(text, bytes);
    };
    let table = match toml::table_from_str(alloc, policy) {
        Ok(table) => table,
        Err(error) if error.is_memory() => return Err(AllocError),
        Err(error) => return push_syntax(text, bytes, &error),
    };
    match Policy::of_table(alloc, &table) {
        Ok(_) => Ok(()),
        Err(ParseError::Fault(fault)) => push_place(text, &table, &fault),
        Err(ParseError::Memory) => Err(AllocError),
    }
}
