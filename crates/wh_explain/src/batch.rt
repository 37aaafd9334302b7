//! The lines on the faults of a batch.

use crate::encoding::{other_separator, push_encoding_line};
use crate::field::push_reason;
use crate::further::further_faults;
use crate::header::{Header, push_wrong_header};
use crate::kind::NO_VOIDS;
use crate::row::{LineAt, count_of, first_line, lines_of, push_column, push_more, push_too_long};
use crate::shown::{Quoted, push};
use std::alloc::{AllocError, Global};
use wh_batch::{
    BATCH_LIMIT, BatchKind, Column, FaultKind, Faults, FaultyField, Holds, ListedFault,
    MOST_RECORDS,
};
use wh_policy::{Format, Policy};

/// What a batch is judged by, and its bytes.
#[derive(Drop)]
pub(crate) struct Batch<'a> {
    pub(crate) kind: BatchKind,
    pub(crate) policy: &'a Policy,
    pub(crate) format: Format,
    pub(crate) columns: &'a [Column<'a>],
    pub(crate) bytes: &'a [u8],
}

/// Too many bytes, of which no more are read, or a record too many.
fn push_too_large(text: &mut Vec<u8>, fault: &ListedFault, bytes: &[u8]) -> Result<(), AllocError> {
    let number = u64::from(fault.fault.fault.number);
    if number == 0 {
        return push_too_long(text, BATCH_LIMIT);
    }
    push!(text; LineAt(bytes, fault.row.start), ": record ", number)?;
    push!(text; ", at most ", u64::from(MOST_RECORDS), " are allowed")?;
    push!(text; "; the file has ", lines_of(bytes), " lines\n")
}

/// How many commas end a row.
fn commas_at_end(row: &[u8]) -> usize {
    let mut left = row;
    for found in 0..row.len() {
        match left {
            [others @ .., b','] => left = others,
            _ => return found,
        }
    }
    row.len()
}

/// Whether a quote is opened that isn't closed on the line.
fn is_open(row: &[u8]) -> bool {
    count_of(first_line(row), b'"') % 2 == 1
}

/// What too many fields come from.
fn push_surplus(text: &mut Vec<u8>, row: &[u8], surplus: usize) -> Result<(), AllocError> {
    match (surplus, commas_at_end(row)) {
        (1, 1) => push!(text; "; the last one is empty, behind a comma at the end"),
        (_, commas) if commas >= surplus => {
            push!(text; "; the last ones are empty, behind commas at the end")
        }
        _ => push!(text; "; a field with a comma needs quotes"),
    }
}

/// What another number of fields may come from.
fn push_hint(
    text: &mut Vec<u8>,
    row: &[u8],
    found: usize,
    wanted: usize,
) -> Result<(), AllocError> {
    if let Some(separator) = other_separator(row) {
        return push!(text; "; they seem to be separated by ", separator);
    }
    if found > wanted {
        return push_surplus(text, row, found - wanted);
    }
    if is_open(row) {
        return push!(text; "; a quote is not closed on this line");
    }
    Ok(())
}

/// Another number of fields than the header has.
fn push_wrong_length(
    text: &mut Vec<u8>,
    batch: &Batch,
    fault: &ListedFault,
) -> Result<(), AllocError> {
    let row = fault.row.bytes_in(batch.bytes);
    let found = fault.row.fields;
    let wanted = batch.columns.len();
    push!(text; ": the number of fields is ", found, ", ", wanted, " are wanted")?;
    push_hint(text, row, found, wanted)?;
    push!(text; ": ", Quoted(row))
}

/// Whether a record is a line of a ticket, and not of a member.
fn has_ticket(columns: &[Column]) -> bool {
    match columns {
        [first, ..] => matches!(first.holds(), Holds::Ticket),
        [] => false,
    }
}

/// A key that an earlier record has.
fn push_twice(text: &mut Vec<u8>, columns: &[Column], row: &[u8]) -> Result<(), AllocError> {
    let key = if has_ticket(columns) {
        "ticket and line"
    } else {
        "id and day"
    };
    push!(text; ": an earlier record has the same ", key, ": ", Quoted(row))
}

/// What is said of a field.
fn push_field(
    text: &mut Vec<u8>,
    batch: &Batch,
    kind: FaultKind,
    field: &FaultyField,
) -> Result<(), AllocError> {
    push!(text; ", ")?;
    push_column(text, batch.columns, field.place)?;
    push!(text; Quoted(field.text.as_bytes()))?;
    if matches!(kind, FaultKind::OutsideCalendar) {
        let what = " is outside the calendar, which has the years ";
        return push!(text; what, batch.policy.years);
    }
    match batch.columns.get(field.place) {
        Some(column) => push_reason(text, column.holds(), field.text.as_bytes()),
        None => Ok(()),
    }
}

/// What is said of a header, and of the file that begins so.
fn push_header(
    text: &mut Vec<u8>,
    batch: &Batch,
    fault: &ListedFault,
    field: &FaultyField,
) -> Result<(), AllocError> {
    let header = Header {
        row: fault.row.bytes_in(batch.bytes),
        fields: fault.row.fields,
    };
    push!(text; ", ")?;
    push_wrong_header(text, batch.columns, field, &header)?;
    push_encoding_line(text, batch.bytes, "CSV")
}

/// What is said of a row.
fn push_row(text: &mut Vec<u8>, batch: &Batch, fault: &ListedFault) -> Result<(), AllocError> {
    let kind = fault.fault.fault.kind;
    push!(text; LineAt(batch.bytes, fault.row.start))?;
    match (kind, &fault.fault.field) {
        (FaultKind::WrongHeader, Some(field)) => return push_header(text, batch, fault, field),
        (_, Some(field)) => push_field(text, batch, kind, field)?,
        (FaultKind::TwiceInBatch, None) => {
            push_twice(text, batch.columns, fault.row.bytes_in(batch.bytes))?
        }
        _ => push_wrong_length(text, batch, fault)?,
    }
    push!(text; "\n")
}

/// The lines on the faults of a row's fields beside the first, which is shown already.
fn push_further(
    text: &mut Vec<u8>,
    alloc: Global,
    batch: &Batch,
    first: &ListedFault,
) -> Result<(), AllocError> {
    let further = further_faults(alloc, batch, first)?;
    for found in &further {
        if let Some(field) = &found.field {
            push!(text; LineAt(batch.bytes, first.row.start))?;
            push_field(text, batch, found.fault.kind, field)?;
            push!(text; "\n")?;
        }
    }
    Ok(())
}

/// The lines on the faults of a row, or on a fault of the batch.
fn push_fault(
    text: &mut Vec<u8>,
    alloc: Global,
    batch: &Batch,
    fault: &ListedFault,
) -> Result<(), AllocError> {
    match fault.fault.fault.kind {
        FaultKind::TooLarge => push_too_large(text, fault, batch.bytes),
        FaultKind::NotInFormat => push!(text; NO_VOIDS),
        _ => {
            push_row(text, batch, fault)?;
            push_further(text, alloc, batch, fault)
        }
    }
}

/// The lines on the faults of the rows that are listed, and how many more rows have some.
pub(crate) fn push_faults(
    text: &mut Vec<u8>,
    alloc: Global,
    batch: &Batch,
    faults: &Faults,
) -> Result<(), AllocError> {
    for fault in &faults.listed {
        push_fault(text, alloc, batch, fault)?;
    }
    push_more(text, faults.more)
}
