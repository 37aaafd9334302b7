//! Reading a batch of records.

ghost use Rattle.std.specs.Prelude.{◌≡◌, ◌++◌, ◌∷◌, [], IfOk};
ghost use Rattle.csv.specs.Records.{fields_of};
ghost use Rattle.wh_day.specs.Reading.{Gives};
ghost use Rattle.wh_batch.specs.Batch.{next_record, records_after, batch_of};
ghost use Rattle.wh_batch.specs.Faults.{key_of_row};
ghost use Rattle.wh_batch.specs.Keys.{AreSameKeys, UnlessMemory};

use crate::column::is_header;
use crate::fault::{BatchFault, FaultKind};
use crate::fields::fields_of;
use crate::keys::Keys;
use crate::layout::RecordLayout;
use crate::rows::Rows;
use csv::ByteRecord;
use std::alloc::Global;
use wh_day::ParseError;

/// The most bytes of a batch.
pub const BATCH_LIMIT: usize = 1_000_000;

/// The most records of a batch.
pub const MOST_RECORDS: u32 = 5_000;

/// The records of a batch, in order. `Memory` comes where a growth was refused, or where the CSV reader gave up.
#[tactic(auto, unfolding(crate::specs::Batch::batch_of, crate::specs::Batch::below_header))]
pub(crate) fn batch_of<L: RecordLayout>(
    alloc: Global,
    layout: &L,
    bytes: &[u8],
) -> Result<Vec<L::Record>, ParseError<BatchFault>>
    ensures { Gives (λ records. records.items) result (batch_of (L.layout layout.now) bytes.now) }
{
    if bytes.len() > BATCH_LIMIT {
        return Err(fault(0, FaultKind::TooLarge));
    }
    let mut rows = Rows::new(alloc, bytes);
    let mut row = ByteRecord::new(alloc);
    if !rows.next(&mut row)? {
        return Err(fault(0, FaultKind::WrongHeader));
    }
    let header = fields_of(alloc, &row)?;
    let columns = layout.columns(alloc)?;
    if !is_header(&columns, &header) {
        return Err(fault(0, FaultKind::WrongHeader));
    }
    // A record seldom has fewer than 32 bytes.
    let room = (bytes.len() / 32).min(MOST_RECORDS as usize);
    records_after(alloc, layout, room, &mut rows)
}

fn records_after<L: RecordLayout>(
    alloc: Global,
    layout: &L,
    room: usize,
    rows: &mut Rows,
) -> Result<Vec<L::Record>, ParseError<BatchFault>>
    ensures { Gives (λ records. records.items) result (records_after (L.layout layout.now) [] 1 rows.old) }
{
    let mut row = ByteRecord::new(alloc);
    let mut keys = Keys::with_capacity(alloc, room)?;
    let mut records = Vec::with_capacity(alloc, room)?;
    for number in 1..MOST_RECORDS + 1 {
        if !rows.next(&mut row)? {
            return Ok(records);
        }
        match next_record(alloc, layout, &mut keys, &row) {
            Ok(record) => records.push(record)?,
            Err(ParseError::Memory) => return Err(ParseError::Memory),
            Err(ParseError::Fault(kind)) => return Err(fault(number, kind)),
        }
    }
    if rows.next(&mut row)? {
        return Err(fault(MOST_RECORDS + 1, FaultKind::TooLarge));
    }
    Ok(records)
}

/// The record of a row. Its key counts also where an earlier one has it, and outside the calendar.
#[tactic(auto, unfolding(crate::specs::Batch::next_record))]
pub(crate) fn next_record<L: RecordLayout>(
    alloc: Global,
    layout: &L,
    keys: &mut Keys,
    row: &ByteRecord,
) -> Result<L::Record, ParseError<FaultKind>>
    ensures reads { Gives (λ r. r) result (next_record (L.layout layout.now) keys.old (fields_of row.now)) }
    ensures counts { UnlessMemory result (AreSameKeys keys.new (keys.old ++ key_of_row (L.layout layout.now) (fields_of row.now))) }
    ensures keeps { IfOk result (λ r. keys.new ≡ keys.old ++ (L.layout layout.now).key r ∷ []) }
{
    let record = layout.read(alloc, row)?;
    if !keys.insert(layout.key(&record))? {
        return Err(ParseError::Fault(FaultKind::TwiceInBatch));
    }
    if !layout.is_within(&record) {
        return Err(ParseError::Fault(FaultKind::OutsideCalendar));
    }
    Ok(record)
}

/// The fault of this kind at the record with this number.
pub(crate) fn fault(number: u32, kind: FaultKind) -> ParseError<BatchFault>
    ensures { result ≡ ParseError.Fault (record { kind = kind; number = number }) }
{
    ParseError::Fault(BatchFault { kind, number })
}
