//! Records in parts that are batches.

ghost use Rattle.std.specs.Prelude.{◌≡◌, ◌-◌, ◌++◌, ℕ, [], List, Bool, true, false, flat_map, length, min, nat_le, suc, take, IfOk, OnOk};
ghost use Rattle.wh_policy.specs.declared.attribute.Attribute.{Attribute};
ghost use Rattle.wh_policy.specs.declared.record.DimensionRecord.{DimensionRecord};
ghost use Rattle.wh_records.specs.Filled.{IsFilled, IsFurther, is_begun};
ghost use Rattle.wh_records.specs.Parts.{fitting};
ghost use Rattle.wh_records.specs.Texts.{record_line};

use crate::text::{header_line, record_line};
use std::alloc::{AllocError, Global};
use wh_batch::{BATCH_LIMIT, MOST_RECORDS};
use wh_policy::{Attribute, DimensionRecord};

/// Some records as one batch.
#[derive(Debug, Drop)]
pub struct Part {
    /// The batch.
    pub text: Vec<u8>,
    /// How many records stand in it.
    pub records: usize,
}

/// Adds the lines of the first records that fit, and says how many these are. After an `Err` some may have been added.
fn push_fitting(
    alloc: Global,
    text: &mut Vec<u8>,
    most: usize,
    room: usize,
    records: &[DimensionRecord],
) -> Result<usize, AllocError>
    ensures count { IfOk result (λ count. count ≡ fitting most room records.now) }
    ensures text { IfOk result (λ count. text.new.items ≡ text.old.items ++ flat_map record_line (take count records.now)) }
{
    let mut left = room;
    for place in 0..records.len() {
        if place == most {
            return Ok(place);
        }
        let line = record_line(alloc, &records[place])?;
        if left < line.len() {
            return Ok(place);
        }
        text.extend_from_slice(&line)?;
        left -= line.len();
    }
    Ok(records.len())
}

/// How many of further records are passed over, where so many are to be.
fn pass_over(before: &mut usize, records: usize) -> usize
    ensures first { result ≡ min before.old records }
    ensures left { before.new ≡ before.old - records }
{
    let first = (*before).min(records);
    *before -= first;
    first
}

/// A part that is filled from records that come a few at a time. It begins at a place among them, counted from 0, and has as many as one batch
/// holds; so it doesn't matter how many come at once.
#[derive(Debug, Drop)]
pub struct Filling {
    part: Part,
    /// How many records come before the part's first.
    before: usize,
    /// Whether a record had no room.
    is_full: bool,
}

impl Filling {
    /// The part of records of a dimension with these attributes that begins at a place, with no record yet.
    pub fn new(alloc: Global, attributes: &[Attribute], place: usize) -> Result<Filling, AllocError>
        ensures { IfOk result (IsFilled attributes.now place []) }
    {
        let text = header_line(alloc, attributes)?;
        Ok(Filling {
            part: Part { text, records: 0 },
            before: place,
            is_full: false,
        })
    }

    /// Whether the part ends before a record that came, so that no further one goes in.
    pub fn is_full(&self) -> bool
        ensures { result ≡ self.now.is_full }
    {
        self.is_full
    }

    /// Whether a record came that doesn't stand before the part.
    pub fn is_begun(&self) -> bool
        ensures { result ≡ is_begun self.now }
    {
        self.is_full || 0 < self.part.records
    }

    /// How many more records would come before the part's first.
    pub fn before(&self) -> usize
        ensures { result ≡ self.now.before }
    {
        self.before
    }

    /// The part as it is.
    pub fn into_part(self) -> Part
        ensures { result ≡ self.part }
    {
        self.part
    }

    /// Adds as many of further records as have room.
    fn push(&mut self, alloc: Global, records: &[DimensionRecord]) -> Result<(), AllocError>
        ensures { OnOk result (IsFurther self.old records.now self.new) }
    {
        let most = (MOST_RECORDS as usize).saturating_sub(self.part.records);
        let room = BATCH_LIMIT.saturating_sub(self.part.text.len());
        let count = push_fitting(alloc, &mut self.part.text, most, room, records)?;
        self.part.records = self.part.records.saturating_add(count);
        self.is_full = count < records.len();
        Ok(())
    }

    /// Takes the next records. After an `Err` the part is of no use.
    pub fn add(&mut self, alloc: Global, records: &[DimensionRecord]) -> Result<(), AllocError>
        // Whatever came before: it is what these and those together fill.
        ensures { OnOk result ((attributes : List Attribute) (place : ℕ) (done : List DimensionRecord) → IsFilled attributes place done self.old → IsFilled attributes place (done ++ records.now) self.new) }
    {
        if self.is_full {
            return Ok(());
        }
        let first = pass_over(&mut self.before, records.len());
        self.push(alloc, &records[first..])
    }
}
