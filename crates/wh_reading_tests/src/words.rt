//! The words of steps and answers.

use std::alloc::{AllocError, Global};
use std::fmt::Write;
use wh_day::{Day, Value, Values};
use wh_policy::{AttributeType, Dim};

pub fn number(word: &str) -> u64 {
    word.parse::<u64>().unwrap_or(0)
}

/// The day of a number YYYYMMDD; also `first` and `last`, and else what the word writes.
pub fn day(word: &str) -> Option<Day> {
    match word {
        "first" => Some(Day::first()),
        "last" => Some(Day::last()),
        _ => match word.parse::<i64>() {
            Ok(key) => Day::from_key(key),
            Err(_) => Day::read(word.as_bytes()),
        },
    }
}

pub fn dim(word: &str) -> Dim {
    match word {
        "product" => Dim::Product,
        "store" => Dim::Store,
        _ => Dim::Customer,
    }
}

/// The type of attributes that a number names.
pub fn attribute_type(word: &str) -> Option<AttributeType> {
    AttributeType::from_number(word.parse::<i64>().unwrap_or(-1))
}

pub fn push_number(out: &mut String, number: i128) -> Result<(), AllocError> {
    write!(out, "{number}")
}

/// Adds a blank and the number.
pub fn push_next(out: &mut String, number: i128) -> Result<(), AllocError> {
    out.push_str(" ")?;
    push_number(out, number)
}

pub fn push_day(out: &mut String, day: Option<Day>) -> Result<(), AllocError> {
    match day {
        Some(day) => push_number(out, day.key() as i128),
        None => out.push_str("none"),
    }
}

/// Adds the texts, with a bar after each.
pub fn push_values(out: &mut String, values: &Values) -> Result<(), AllocError> {
    for value in values.as_slice() {
        push_value(out, value)?;
    }
    Ok(())
}

/// Adds the text and a bar.
pub fn push_value(out: &mut String, value: &Value) -> Result<(), AllocError> {
    out.push_str(value.as_str())?;
    out.push_str("|")
}
