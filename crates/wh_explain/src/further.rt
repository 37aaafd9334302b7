//! The faults of a record beside the first, by the reader that found that one.

use crate::batch::Batch;
use crate::header::push_names;
use crate::shown::push;
use csv::{ByteRecord, ReaderBuilder};
use std::alloc::{AllocError, Global};
use wh_batch::{FaultKind, Holds, ListedFault, RecordFault, faults};

/// A text that a field may have.
fn good_text(holds: Holds) -> &'static str {
    match holds {
        Holds::Day | Holds::EffectiveDay => "2000-01-01",
        _ => "1",
    }
}

/// A field as a batch has it, in quotes.
fn push_field(text: &mut Vec<u8>, field: &[u8]) -> Result<(), AllocError> {
    text.push(b'"')?;
    for byte in field {
        if *byte == b'"' {
            text.push(b'"')?;
        }
        text.push(*byte)?;
    }
    text.push(b'"')?;
    Ok(())
}

/// A batch of one record, whose only doubtful field is this one in this place.
fn trial(alloc: Global, batch: &Batch, place: usize, field: &[u8]) -> Result<Vec<u8>, AllocError> {
    let mut text = Vec::new(alloc);
    push_names(&mut text, batch.columns)?;
    let mut before = b'\n';
    for other in 0..batch.columns.len() {
        text.push(before)?;
        before = b',';
        if other == place {
            push_field(&mut text, field)?;
        } else {
            push!(&mut text; good_text(batch.columns[other].holds()))?;
        }
    }
    Ok(text)
}

/// The fault of a field, if it has one where all others are good: a good day may be outside the calendar, which is another field's fault.
fn fault_of_field(
    alloc: Global,
    batch: &Batch,
    place: usize,
    field: &[u8],
) -> Result<Option<RecordFault>, AllocError> {
    let bytes = trial(alloc, batch, place, field)?;
    let mut found = faults(alloc, batch.kind, batch.policy, batch.format, &bytes, 1)?;
    match found.listed.pop() {
        Some(found) if is_at(&found, place) => Ok(Some(found.fault)),
        _ => Ok(None),
    }
}

/// Whether a fault is one of the field in this place.
fn is_at(found: &ListedFault, place: usize) -> bool {
    match &found.fault.field {
        Some(field) => field.place == place,
        None => false,
    }
}

/// Whether the fields of a row with this fault can be looked at one by one.
fn has_more(kind: FaultKind) -> bool {
    matches!(
        kind,
        FaultKind::BadKey
            | FaultKind::BadDay
            | FaultKind::BadValue
            | FaultKind::BadNumber
            | FaultKind::TwiceInBatch
    )
}

/// The fields of a row of a batch.
fn fields_in(alloc: Global, row: &[u8]) -> Result<ByteRecord, AllocError> {
    let mut reader = ReaderBuilder::new()
        .has_headers(false)
        .flexible(true)
        .from_reader(alloc, row);
    let mut fields = ByteRecord::new(alloc);
    match reader.read_byte_record(&mut fields) {
        Ok(_) => Ok(fields),
        Err(_) => Err(AllocError),
    }
}

/// The faults of these fields, but for the first fault's own.
fn faults_among(
    alloc: Global,
    batch: &Batch,
    first: &ListedFault,
    fields: &ByteRecord,
) -> Result<Vec<RecordFault>, AllocError> {
    let mut all = Vec::new(alloc);
    for place in 0..batch.columns.len() {
        let Some(field) = fields.get(place) else {
            return Ok(all);
        };
        if is_at(first, place) {
            continue;
        }
        if let Some(found) = fault_of_field(alloc, batch, place, field)? {
            all.push(found)?;
        }
    }
    Ok(all)
}

/// The faults of a row's fields beside the first, from left to right.
pub(crate) fn further_faults(
    alloc: Global,
    batch: &Batch,
    first: &ListedFault,
) -> Result<Vec<RecordFault>, AllocError> {
    if !has_more(first.fault.fault.kind) {
        return Ok(Vec::new(alloc));
    }
    let fields = fields_in(alloc, first.row.bytes_in(batch.bytes))?;
    faults_among(alloc, batch, first, &fields)
}
