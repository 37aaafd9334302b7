//! Why a field isn't what its column holds.

use crate::encoding::push_no_utf8;
use crate::number::number_reason;
use crate::shown::{Counted, push, push_character};
use crate::wanted::{most_bytes, push_wanted_of};
use std::alloc::AllocError;
use wh_batch::Holds;
use wh_day::Day;

/// Why a field isn't what its column holds, and what that is.
pub(crate) fn push_reason(
    text: &mut Vec<u8>,
    holds: Holds,
    field: &[u8],
) -> Result<(), AllocError> {
    if push_no_utf8(text, field)? {
        return Ok(());
    }
    match most_bytes(holds) {
        Some(most) if field.len() > most && !field.contains(&b'\n') => {
            let found = field.len();
            push!(text; " has ", found, " bytes, at most ", most, " are allowed")
        }
        _ => push_other_reason(text, holds, field),
    }
}

fn push_other_reason(text: &mut Vec<u8>, holds: Holds, field: &[u8]) -> Result<(), AllocError> {
    match fixed_reason(holds, field) {
        Some(reason) => push!(text; reason)?,
        None => push_bad_byte(text, holds, field)?,
    }
    push!(text; "; wanted: ")?;
    push_wanted_of(text, holds)
}

fn is_blank(byte: Option<&u8>) -> bool {
    matches!(byte, Some(b' ' | b'\t'))
}

/// A reason for which it is no matter which character is at fault.
fn fixed_reason(holds: Holds, field: &[u8]) -> Option<&'static str> {
    if field.is_empty() {
        return Some(" is empty");
    }
    if matches!(holds, Holds::Value) {
        return value_reason(field);
    }
    if is_blank(field.first()) {
        return Some(" has a blank in front");
    }
    if is_blank(field.last()) {
        return Some(" has a blank at its end");
    }
    match holds {
        Holds::Day | Holds::EffectiveDay => Some(day_reason(field)),
        Holds::Ticket | Holds::Key | Holds::CustomerKey => None,
        _ => number_reason(holds, field),
    }
}

fn value_reason(field: &[u8]) -> Option<&'static str> {
    match field {
        [b'(', ..] => Some(" begins with ("),
        _ => None,
    }
}

/// Whether a text begins as days are written.
fn begins_as_day(field: &[u8]) -> bool {
    match field {
        [a, b, c, d, b'-', e, f, b'-', g, h, ..] => [*a, *b, *c, *d, *e, *f, *g, *h]
            .iter()
            .all(|byte| byte.is_ascii_digit()),
        _ => false,
    }
}

/// Why a text that begins as days are written is none.
fn misread_reason(field: &[u8]) -> &'static str {
    match field {
        [_, _, _, _, _, _, _, _, _, _, _, ..] => " has more than a day",
        [b'0', ..] | [b'1', b'0'..=b'8', ..] => " is before 1900-01-01",
        _ => " is no real day",
    }
}

fn day_reason(field: &[u8]) -> &'static str {
    if Day::read(field).is_some() {
        return " is after 2199-12-31";
    }
    if begins_as_day(field) {
        return misread_reason(field);
    }
    match field {
        [_, _, b'.', _, _, b'.', _, _, _, _] => " is written DD.MM.YYYY",
        _ if field.contains(&b'.') => " is written with points",
        _ if field.contains(&b'/') => " is written with slashes",
        _ if !field.contains(&b'-') => " has no hyphens",
        _ => " is written in another way",
    }
}

/// Whether a column's fields may have the byte.
fn is_taken(holds: Holds, byte: u8) -> bool {
    match holds {
        Holds::Ticket | Holds::Key | Holds::CustomerKey => {
            byte.is_ascii_alphanumeric() || matches!(byte, b'-' | b'_' | b'.')
        }
        Holds::Value => byte >= b' ' && byte != 0x7F,
        _ => byte.is_ascii_digit() || matches!(byte, b'-' | b'.'),
    }
}

/// The first character that a column's fields may not have, and where it stands.
fn push_bad_byte(text: &mut Vec<u8>, holds: Holds, field: &[u8]) -> Result<(), AllocError> {
    let Some(place) = field.iter().position(|byte| !is_taken(holds, *byte)) else {
        return push!(text; " isn't allowed");
    };
    push!(text; " has ")?;
    push_bad(text, &field[place..])?;
    push!(text; " at byte ", Counted(place))
}

fn push_bad(text: &mut Vec<u8>, field: &[u8]) -> Result<(), AllocError> {
    match field {
        [b'\n' | b'\r', ..] => push!(text; "a line end (a quote not closed?)"),
        [b'\t', ..] => push!(text; "a tab"),
        [0, ..] => push!(text; "a NUL byte"),
        [b' ', ..] => push!(text; "a blank"),
        _ => push_character(text, field),
    }
}
