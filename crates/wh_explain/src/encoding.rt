//! Signs of a file that isn't a table in UTF-8, with commas.

use crate::code_pages::{is_of_code_page, push_meanings};
use crate::shown::{Counted, push};
use std::alloc::AllocError;

/// The place of the first byte that isn't UTF-8.
pub(crate) fn no_utf8_at(bytes: &[u8]) -> Option<usize> {
    match std::str::from_utf8(bytes) {
        Ok(_) => None,
        Err(error) => Some(error.valid_up_to()),
    }
}

/// How many bytes a character has that begins with this one; 0 where none does.
fn character_length(first: u8) -> usize {
    match first {
        0xC2..=0xDF => 2,
        0xE0..=0xEF => 3,
        0xF0..=0xF4 => 4,
        _ => 0,
    }
}

/// Whether a text ends within its first character.
fn is_cut(text: &[u8]) -> bool {
    match text {
        [first, others @ ..] => {
            text.len() < character_length(*first)
                && others.iter().all(|byte| matches!(byte, 0x80..=0xBF))
        }
        [] => false,
    }
}

/// The first byte that only Windows-1252 and CP850 have a character for.
fn code_page_byte(text: &[u8]) -> Option<u8> {
    let place = text.iter().position(|byte| is_of_code_page(*byte))?;
    text.get(place).copied()
}

/// What a text seems to be that begins with a byte that is no UTF-8.
fn push_likely(text: &mut Vec<u8>, found: &[u8]) -> Result<(), AllocError> {
    if is_cut(found) {
        return push!(text; "; it is cut within a character, or Latin-1");
    }
    match code_page_byte(found) {
        Some(byte) => {
            push!(text; "; it looks like Windows-1252 or CP850: ")?;
            push_meanings(text, byte)
        }
        None => push!(text; "; it looks like Latin-1"),
    }
}

/// Which byte of a field is no UTF-8, and whether there is one.
pub(crate) fn push_no_utf8(text: &mut Vec<u8>, bytes: &[u8]) -> Result<bool, AllocError> {
    let Some(place) = no_utf8_at(bytes) else {
        return Ok(false);
    };
    push!(text; " is no UTF-8 at byte ", Counted(place))?;
    push_likely(text, &bytes[place.min(bytes.len())..])?;
    Ok(true)
}

/// In how many pairs of bytes one is 0, and the other isn't.
fn pairs_with_zero(bytes: &[u8]) -> usize {
    let mut found: usize = 0;
    for pair in 0..bytes.len() / 2 {
        if (bytes[2 * pair] == 0) != (bytes[2 * pair + 1] == 0) {
            found = found.saturating_add(1);
        }
    }
    found
}

/// Whether a file begins with the mark of UTF-16, or has 0 as about every second byte.
fn looks_like_utf16(bytes: &[u8]) -> bool {
    let pairs = bytes.len() / 2;
    match bytes {
        [0xFF, 0xFE, ..] | [0xFE, 0xFF, ..] => true,
        _ => pairs > 0 && pairs_with_zero(bytes) > pairs / 2,
    }
}

/// Signs of bytes that no text has.
fn push_no_text(text: &mut Vec<u8>, bytes: &[u8]) -> Result<bool, AllocError> {
    if looks_like_utf16(bytes) {
        push!(text; "the file looks like UTF-16; UTF-8 is wanted\n")?;
        return Ok(true);
    }
    let Some(place) = bytes.iter().position(|byte| *byte == 0) else {
        return Ok(false);
    };
    let what = "the file has a NUL byte, which no text has, at byte ";
    push!(text; what, Counted(place), "\n")?;
    Ok(true)
}

/// A line on what the bytes of a file are that should be in this form, where they are no text in UTF-8.
pub(crate) fn push_encoding_line(
    text: &mut Vec<u8>,
    bytes: &[u8],
    form: &str,
) -> Result<(), AllocError> {
    if matches!(bytes, [b'P', b'K', 3, 4, ..]) {
        let what = "the file is a zip or Excel file; it has to be exported as ";
        return push!(text; what, form, "\n");
    }
    if push_no_text(text, bytes)? {
        return Ok(());
    }
    let Some(place) = no_utf8_at(bytes) else {
        return Ok(());
    };
    push!(text; "the file looks like ")?;
    match code_page_byte(&bytes[place.min(bytes.len())..]) {
        Some(_) => push!(text; "Windows-1252 or CP850")?,
        None => push!(text; "Latin-1")?,
    }
    push!(text; ": it is no UTF-8 at byte ", Counted(place), "\n")
}

/// What seems to part the fields of a header in place of commas.
pub(crate) fn other_separator(header: &[u8]) -> Option<&'static str> {
    if header.contains(&b',') {
        return None;
    }
    if header.contains(&b';') {
        return Some("semicolons");
    }
    if header.contains(&b'\t') {
        return Some("tabs");
    }
    if header.contains(&b'|') {
        return Some("bars");
    }
    None
}
