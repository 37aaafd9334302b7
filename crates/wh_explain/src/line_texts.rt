//! What is said of the lines of tickets for which a batch is refused.

use crate::line::{Sold, Source, TracedLines};
use crate::row::{LineAt, push_more};
use crate::shown::{Shown, push};
use std::alloc::{AllocError, Global};
use wh_batch::{RowPlace, row_places};

/// The most lines that are listed.
const MOST_LINES: u64 = 20;

impl Shown for &Source {
    fn push_to(self, text: &mut Vec<u8>) -> Result<(), AllocError> {
        push!(text; "command ", self.number, ", ", self.id.as_str())
    }
}

/// By which command, on which day and in which store a line was sold.
fn push_sale(
    text: &mut Vec<u8>,
    alloc: Global,
    lines: &TracedLines,
    sold: &Sold,
) -> Result<(), AllocError> {
    push!(text; "sold by ")?;
    if let Some(source) = lines.seller_of(sold) {
        push!(text; source)?;
    }
    let day = sold.day;
    let shown = format!(in alloc; ", on {day} in ")?;
    push!(text; shown.as_str(), sold.store.as_str())
}

/// What is said of a line that is there already.
fn push_sold(
    text: &mut Vec<u8>,
    alloc: Global,
    lines: &TracedLines,
    place: usize,
) -> Result<(), AllocError> {
    match lines.sale_of(place) {
        Some(sold) => push_sale(text, alloc, lines, sold)?,
        None => push!(text; "sold before")?,
    }
    if let Some(source) = lines.withdrawer_of(place) {
        push!(text; "; withdrawn by ", source)?;
    }
    push!(text; "; a line is sold once\n")
}

/// What is said of a line that doesn't stand.
fn push_missing(text: &mut Vec<u8>, lines: &TracedLines, place: usize) -> Result<(), AllocError> {
    match lines.withdrawer_of(place) {
        Some(source) => push!(text; "withdrawn by ", source, "\n"),
        None => push!(text; "never sold\n"),
    }
}

/// The ticket and the line number of the record at this place of the batch, counted from 0.
fn push_ticket(text: &mut Vec<u8>, lines: &TracedLines, place: usize) -> Result<(), AllocError> {
    let Some(line) = lines.line_at(place) else {
        return Ok(());
    };
    push!(text; ": ticket ", line.ticket.as_str(), ", line ", u64::from(line.line), ": ")
}

/// The line of a file on which a record stands; the header stands before the records.
fn push_record_line(
    text: &mut Vec<u8>,
    file: &[u8],
    rows: &[RowPlace],
    record: usize,
) -> Result<(), AllocError> {
    match rows.get(record.saturating_add(1)) {
        Some(row) => push!(text; LineAt(file, row.start)),
        None => Ok(()),
    }
}

/// Where a line for which the batch is refused stands in its file, its ticket, and the commands that sold and withdrew it.
fn push_refused_line(
    text: &mut Vec<u8>,
    alloc: Global,
    lines: &TracedLines,
    place: usize,
    file: &[u8],
    rows: &[RowPlace],
) -> Result<(), AllocError> {
    push_record_line(text, file, rows, place)?;
    push_ticket(text, lines, place)?;
    if lines.are_sales() {
        push_sold(text, alloc, lines, place)
    } else {
        push_missing(text, lines, place)
    }
}

/// The first lines for which the batch is refused, and how many more there are.
fn push_all_refused(
    text: &mut Vec<u8>,
    alloc: Global,
    lines: &TracedLines,
    file: &[u8],
    rows: &[RowPlace],
) -> Result<(), AllocError> {
    let mut found: u64 = 0;
    for place in 0..lines.len() {
        if !lines.is_refused(place) {
            continue;
        }
        if found < MOST_LINES {
            push_refused_line(text, alloc, lines, place, file, rows)?;
        }
        found = found.saturating_add(1);
    }
    push_more(text, found.saturating_sub(MOST_LINES))
}

/// The lines of tickets for which a batch is refused, with the commands that are noted.
pub(crate) fn push_refused_lines(
    text: &mut Vec<u8>,
    alloc: Global,
    lines: &TracedLines,
    file: &[u8],
) -> Result<(), AllocError> {
    let rows = row_places(alloc, file)?;
    push_all_refused(text, alloc, lines, file, &rows)?;
    let Some(source) = lines.same_command() else {
        return Ok(());
    };
    push!(text; "the same bytes are ", source, "\n")
}
