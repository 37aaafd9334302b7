//! What runs print, as steps answer it.

use std::alloc::AllocError;
use wh_scenarios::{parted, push_line, push_number};

/// What was printed. A last line that isn't ended is told so.
fn push_printed(out: &mut String, text: &str) -> Result<(), AllocError> {
    out.push_str(text)?;
    if !text.is_empty() && !text.ends_with('\n') {
        out.push_str("\nand no end of the line\n")?;
    }
    Ok(())
}

/// The text that was printed.
pub fn text_of(printed: &[u8]) -> &str {
    std::str::from_utf8(printed).unwrap_or("no UTF-8")
}

/// The status that a line says.
fn said_by(line: &str) -> u8 {
    if line.starts_with("error: ") {
        4
    } else if line.starts_with("failed: ") || line.starts_with("wrong: ") {
        3
    } else if line.starts_with("refused: ") {
        2
    } else {
        0
    }
}

/// The status that lines say, which is the greatest of theirs.
fn said(text: &str) -> u8 {
    let mut status = 0;
    for line in text.lines() {
        status = status.max(said_by(line));
    }
    status
}

pub fn push_status(out: &mut String, status: u8) -> Result<(), AllocError> {
    out.push_str("status ")?;
    push_number(out, status as u64)?;
    out.push_str("\n")
}

/// The status, where what was printed doesn't say it.
pub fn push_unsaid(out: &mut String, text: &str, status: u8) -> Result<(), AllocError> {
    if status == said(text) {
        return Ok(());
    }
    push_status(out, status)
}

/// What was printed, and the status where that doesn't say it.
pub fn push_ended(out: &mut String, text: &str, status: u8) -> Result<(), AllocError> {
    push_printed(out, text)?;
    push_unsaid(out, text, status)
}

/// What a report prints, without the first line where this says its words.
pub fn without_title<'a>(text: &'a str, words: &str) -> &'a str {
    let (title, rest) = parted(text, '\n');
    match title.strip_prefix("report ") {
        Some(asked) if asked == words => rest,
        _ => text,
    }
}

/// The field of a row in a column of this name.
fn field_of<'a>(header: &str, row: &'a str, column: &str) -> &'a str {
    for (name, field) in header.split(',').zip(row.split(',')) {
        if name == column {
            return field;
        }
    }
    "no such column"
}

fn push_fields(out: &mut String, header: &str, row: &str, columns: &str) -> Result<(), AllocError> {
    let (first, others) = parted(columns, ' ');
    out.push_str(field_of(header, row, first))?;
    for column in others.split_terminator(' ') {
        out.push_str(",")?;
        out.push_str(field_of(header, row, column))?;
    }
    out.push_str("\n")
}

/// Such columns of a table that was printed, none of whose fields has a comma.
pub fn push_columns(out: &mut String, text: &str, columns: &str) -> Result<(), AllocError> {
    let (header, _) = parted(text, '\n');
    for row in text.lines() {
        push_fields(out, header, row, columns)?;
    }
    Ok(())
}

/// An answer, where it isn't the one that all have, under the words that it was given to.
pub fn push_other(
    out: &mut String,
    common: &str,
    words: &str,
    answer: &str,
) -> Result<(), AllocError> {
    if answer == common {
        return Ok(());
    }
    push_line(out, words)?;
    out.push_str(answer)
}
