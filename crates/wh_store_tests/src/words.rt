//! The words of steps and of answers.

use crate::trouble::Trouble;
use sqlite_value::value::Bytes;
use std::alloc::AllocError;
use std::fmt::Write;
use wh_day::{Day, Values};
use wh_policy::Dim;
use wh_scenarios::{parted, push_line};

/// A step: its verb, what is after it on the line, and the lines that it is handed.
#[derive(Clone, Copy)]
pub struct Step<'a> {
    pub verb: &'a str,
    pub rest: &'a str,
    pub body: &'a str,
}

/// A step of one line, which is handed nothing.
pub fn step_of(line: &str) -> Step<'_> {
    let (verb, rest) = parted(line, ' ');
    Step {
        verb,
        rest,
        body: "",
    }
}

pub fn number(word: &str) -> Result<u64, Trouble> {
    match word.parse::<u64>() {
        Ok(number) => Ok(number),
        Err(_) => Err(Trouble::Unknown),
    }
}

pub fn line_number(word: &str) -> Result<u32, Trouble> {
    match word.parse::<u32>() {
        Ok(number) => Ok(number),
        Err(_) => Err(Trouble::Unknown),
    }
}

/// A day as `20240229`.
pub fn day(word: &str) -> Result<Day, Trouble> {
    match word.parse::<i64>() {
        Ok(key) => Day::from_key(key).ok_or(Trouble::Unknown),
        Err(_) => Err(Trouble::Unknown),
    }
}

pub fn dim(word: &str) -> Result<Dim, Trouble> {
    match word {
        "product" => Ok(Dim::Product),
        "store" => Ok(Dim::Store),
        "customer" => Ok(Dim::Customer),
        _ => Err(Trouble::Unknown),
    }
}

/// An answer of one text.
pub fn push_answer(out: &mut String, text: &str) -> Result<(), AllocError> {
    push_line(out, text)
}

pub fn push_trouble(out: &mut String, trouble: Trouble) -> Result<(), AllocError> {
    let (first, last) = trouble.words();
    out.push_str(first)?;
    push_line(out, last)
}

/// Parts what comes next in a line from what is before it there.
fn part(out: &mut String) -> Result<(), AllocError> {
    let text = out.as_str();
    if !text.is_empty() && !text.ends_with(' ') && !text.ends_with('\n') {
        out.push_str(", ")?;
    }
    Ok(())
}

pub fn push_count(out: &mut String, count: u64) -> Result<(), Trouble> {
    part(out)?;
    match write!(out, "{count}") {
        Ok(()) => Ok(()),
        Err(_) => Err(Trouble::from(AllocError)),
    }
}

pub fn push_counts(out: &mut String, counts: &[u64]) -> Result<(), Trouble> {
    for count in counts {
        push_count(out, *count)?;
    }
    Ok(())
}

pub fn push_number(out: &mut String, number: i64) -> Result<(), Trouble> {
    part(out)?;
    match write!(out, "{number}") {
        Ok(()) => Ok(()),
        Err(_) => Err(Trouble::from(AllocError)),
    }
}

pub fn push_text(out: &mut String, text: &str) -> Result<(), Trouble> {
    part(out)?;
    out.push_str("'")?;
    out.push_str(text)?;
    out.push_str("'")?;
    Ok(())
}

pub fn push_texts(out: &mut String, texts: &Values) -> Result<(), Trouble> {
    for text in texts.as_slice() {
        push_text(out, text.as_str())?;
    }
    Ok(())
}

pub fn push_day(out: &mut String, day: Day) -> Result<(), Trouble> {
    push_count(out, u64::from(day.key()))
}

/// The number of a dimension, as it is stored.
pub fn push_dim(out: &mut String, dim: Dim) -> Result<(), Trouble> {
    match dim {
        Dim::Product => push_count(out, 1),
        Dim::Store => push_count(out, 2),
        Dim::Customer => push_count(out, 3),
    }
}

pub fn push_bytes(out: &mut String, bytes: &Bytes) -> Result<(), Trouble> {
    part(out)?;
    out.push_str("x'")?;
    push_hex(out, bytes.as_slice())?;
    out.push_str("'")?;
    Ok(())
}

fn push_hex(out: &mut String, bytes: &[u8]) -> Result<(), Trouble> {
    for byte in bytes {
        match write!(out, "{byte:02x}") {
            Ok(()) => {}
            Err(_) => return Err(Trouble::from(AllocError)),
        }
    }
    Ok(())
}
