//! Rows and columns of a file, as an explanation names and shows them.

use crate::shown::{Counted, Shown, push};
use std::alloc::AllocError;
use wh_batch::{Column, lines_above};

/// The line of a file on which something begins.
#[derive(Drop)]
pub(crate) struct LineAt<'a>(pub(crate) &'a [u8], pub(crate) usize);

impl<'a> Shown for LineAt<'a> {
    fn push_to(self, text: &mut Vec<u8>) -> Result<(), AllocError> {
        push!(text; "line ", Counted(lines_above(self.0, self.1)))
    }
}

/// What is said of a file with more bytes than are allowed.
pub(crate) fn push_too_long(text: &mut Vec<u8>, most: usize) -> Result<(), AllocError> {
    let what = " bytes, which is the most that is allowed\n";
    push!(text; "the file has more than ", most, what)
}

/// How many more there are than those that are listed.
pub(crate) fn push_more(text: &mut Vec<u8>, more: u64) -> Result<(), AllocError> {
    if more == 0 {
        return Ok(());
    }
    push!(text; "and ", more, " more\n")
}

/// The beginning of what is said of a column.
pub(crate) fn push_column(
    text: &mut Vec<u8>,
    columns: &[Column],
    place: usize,
) -> Result<(), AllocError> {
    push!(text; "column ", Counted(place))?;
    if let Some(column) = columns.get(place) {
        push!(text; " \"", column.name(), "\"")?;
    }
    push!(text; ": ")
}

/// A row to the end of the line on which it begins.
pub(crate) fn first_line(text: &[u8]) -> &[u8] {
    match text.iter().position(|byte| matches!(byte, b'\n' | b'\r')) {
        Some(end) => &text[..end],
        None => text,
    }
}

/// How often a text has a byte.
pub(crate) fn count_of(text: &[u8], wanted: u8) -> usize {
    text.iter().filter(|byte| **byte == wanted).count()
}

/// How many lines a file has.
pub(crate) fn lines_of(file: &[u8]) -> usize {
    let ended = lines_above(file, file.len());
    match file {
        [.., b'\n' | b'\r'] | [] => ended,
        _ => ended.saturating_add(1),
    }
}
