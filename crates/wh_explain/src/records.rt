//! What may be a slip in the records of members.

use crate::code_pages::push_meanings;
use crate::explanation::SentCommand;
use crate::left_out::{LeftOut, SparseRecord};
use crate::line::records_in;
use crate::row::{LineAt, push_column, push_more};
use crate::shown::{Counted, Quoted, push};
use std::alloc::{AllocError, Global};
use wh_batch::{BatchKind, Column, CommandKind, Records, RowPlace, columns_of, row_places};
use wh_day::Value;
use wh_policy::{Attribute, DimensionRecord};

/// The most records or values that are listed.
const MOST_LISTED: u64 = 20;

/// The records of members in a file.
#[derive(Drop)]
pub(crate) struct SentRecords<'a> {
    pub(crate) file: &'a [u8],
    /// The places of the rows, with the header's.
    pub(crate) rows: &'a [RowPlace],
    pub(crate) records: &'a [DimensionRecord],
    pub(crate) columns: &'a [Column<'a>],
    pub(crate) attributes: &'a [Attribute],
}

impl SentRecords<'_> {
    /// The line on which the record with this number stands; the header has the number 0.
    fn push_line(&self, text: &mut Vec<u8>, number: u64) -> Result<(), AllocError> {
        match self.rows.get(number as usize) {
            Some(row) => push!(text; LineAt(self.file, row.start)),
            None => Ok(()),
        }
    }

    /// The member of the record with this number.
    fn push_member(&self, text: &mut Vec<u8>, number: u64) -> Result<(), AllocError> {
        match self.records.get(number.saturating_sub(1) as usize) {
            Some(record) => push!(text; record.natural.as_str()),
            None => Ok(()),
        }
    }
}

/// The place of the first character of a value that was a byte from 80 to 9F, if it has one.
fn control_in(value: &[u8]) -> Option<usize> {
    for place in 0..value.len() {
        match &value[place..] {
            [0xC2, 0x80..=0x9F, ..] => return Some(place),
            _ => {}
        }
    }
    None
}

/// The line on a value with such a character.
fn push_control(
    text: &mut Vec<u8>,
    sent: &SentRecords,
    number: u64,
    slot: usize,
    value: &[u8],
    place: usize,
) -> Result<(), AllocError> {
    sent.push_line(text, number)?;
    push!(text; ", ")?;
    push_column(text, sent.columns, slot.saturating_add(2))?;
    let what = " has a control character at byte ";
    push!(text; Quoted(value), what, Counted(place), "; ")?;
    push_meanings(
        text,
        value.get(place.saturating_add(1)).copied().unwrap_or(0),
    )
}

/// The lines on such values of a record, behind so many others.
fn push_controls_of(
    text: &mut Vec<u8>,
    sent: &SentRecords,
    number: u64,
    values: &[Value],
    others: u64,
) -> Result<u64, AllocError> {
    let mut found = others;
    for slot in 0..values.len() {
        let value = values[slot].as_str().as_bytes();
        let Some(place) = control_in(value) else {
            continue;
        };
        if found < MOST_LISTED {
            push_control(text, sent, number, slot, value, place)?;
            push!(text; "\n")?;
        }
        found = found.saturating_add(1);
    }
    Ok(found)
}

/// The first values with such characters, and how many more there are.
fn push_controls(text: &mut Vec<u8>, sent: &SentRecords) -> Result<(), AllocError> {
    let mut found: u64 = 0;
    for place in 0..sent.records.len() {
        let values = sent.records[place].values.as_slice();
        let number = (place as u64).saturating_add(1);
        found = push_controls_of(text, sent, number, values, found)?;
    }
    push_more(text, found.saturating_sub(MOST_LISTED))
}

/// Whether a record takes the value of an attribute away.
fn takes_some(record: &SparseRecord, attributes: &[Attribute]) -> bool {
    for slot in 0..attributes.len() {
        if record.takes_away(slot, attributes[slot].kind) {
            return true;
        }
    }
    false
}

/// The names of the attributes whose values a record takes away.
fn push_taken(
    text: &mut Vec<u8>,
    record: &SparseRecord,
    attributes: &[Attribute],
) -> Result<(), AllocError> {
    let mut before = ": ";
    for slot in 0..attributes.len() {
        if record.takes_away(slot, attributes[slot].kind) {
            push!(text; before, attributes[slot].name.as_str())?;
            before = ", ";
        }
    }
    Ok(())
}

/// The line on a record that takes values away.
fn push_sparse(
    text: &mut Vec<u8>,
    sent: &SentRecords,
    record: &SparseRecord,
) -> Result<(), AllocError> {
    sent.push_line(text, record.number)?;
    push!(text; ": ")?;
    sent.push_member(text, record.number)?;
    push!(text; ": empty, which replaces what was there by (none)")?;
    push_taken(text, record, sent.attributes)?;
    push!(text; "\n")
}

/// The first records that take values away, and how many more there are.
fn push_left_out(
    text: &mut Vec<u8>,
    sent: &SentRecords,
    left_out: &LeftOut,
) -> Result<(), AllocError> {
    let mut found: u64 = 0;
    for record in left_out.records() {
        if !takes_some(record, sent.attributes) {
            continue;
        }
        if found < MOST_LISTED {
            push_sparse(text, sent, record)?;
        }
        found = found.saturating_add(1);
    }
    push_more(text, found.saturating_sub(MOST_LISTED))
}

/// The lines on the records of a batch.
fn push_sent(
    text: &mut Vec<u8>,
    sent: &SentCommand,
    records: &SentRecords,
) -> Result<(), AllocError> {
    push_controls(text, records)?;
    match &sent.left_out {
        Some(left_out) => push_left_out(text, records, left_out),
        None => Ok(()),
    }
}

/// The lines on what may be a slip in a batch of records.
pub(crate) fn push_records(
    text: &mut Vec<u8>,
    alloc: Global,
    sent: &SentCommand,
) -> Result<(), AllocError> {
    let CommandKind::Batch(kind) = sent.kind else {
        return Ok(());
    };
    let BatchKind::Dimension(dim) = kind else {
        return Ok(());
    };
    let Some(Records::Dimension(records)) = records_in(
        alloc,
        kind,
        sent.policy,
        sent.format,
        sent.bytes,
    )?
    else {
        return Ok(());
    };
    let rows = row_places(alloc, sent.bytes)?;
    let columns = columns_of(alloc, kind, sent.policy, sent.format)?;
    let records = SentRecords {
        file: sent.bytes,
        rows: &rows,
        records: records.as_slice(),
        columns: &columns,
        attributes: sent.policy.attributes(dim),
    };
    push_sent(text, sent, &records)
}
