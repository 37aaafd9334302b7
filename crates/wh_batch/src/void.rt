//! Batches of voids.

ghost use Rattle.std.specs.Prelude.{◌≡◌, map, IfOk};
ghost use Rattle.wh_day.specs.Reading.{Gives};
ghost use Rattle.wh_batch.specs.Layouts.{void_columns, void_record, void_records};

use crate::batch::{batch_of, fault};
use crate::column::Column;
use crate::fault::{BatchFault, FaultKind};
use crate::fields::{fields_of, key_of};
use crate::holds::Holds;
use crate::keys::RecordKey;
use crate::layout::RecordLayout;
use crate::numbers::line_of;
use crate::records::VoidRecords;
use csv::ByteRecord;
use std::alloc::{AllocError, Global};
use wh_day::{ParseError, TICKET_LIMIT};
use wh_policy::{Format, VoidRecord};

/// The records of a batch of voids, in order; the first format has no such batch. `Memory` comes where a growth was refused, or
/// where the CSV reader gave up.
#[tactic(auto, unfolding(crate::specs::Layouts::void_records))]
pub fn void_records(
    alloc: Global,
    format: Format,
    bytes: &[u8],
) -> Result<VoidRecords, ParseError<BatchFault>>
    ensures { Gives (λ records. records) result (void_records format bytes.now) }
{
    match format {
        Format::One => Err(fault(0, FaultKind::NotInFormat)),
        Format::Two => Ok(VoidRecords::of(batch_of(alloc, &VoidsLayout, bytes)?)),
    }
}

/// The columns of a void.
pub(crate) fn void_columns<'a>(alloc: Global) -> Result<Vec<Column<'a>>, AllocError>
    ensures { IfOk result (λ columns. columns.items ≡ void_columns) }
{
    let columns = [
        Column::new("ticket", Holds::Ticket),
        Column::new("line", Holds::Line),
    ];
    Ok(Vec::from_array(alloc, columns)?)
}

/// A record has a ticket and a line.
#[derive(Drop)]
pub(crate) struct VoidsLayout;

impl RecordLayout for VoidsLayout {
    ghost use Rattle.wh_batch.specs.Layouts.{voids_layout};

    type Record = VoidRecord;

    ghost layout = { λ v. voids_layout };

    fn columns(&self, alloc: Global) -> Result<Vec<Column<'_>>, AllocError> {
        void_columns(alloc)
    }

    fn read(&self, alloc: Global, row: &ByteRecord) -> Result<VoidRecord, ParseError<FaultKind>> {
        void_record(&fields_of(alloc, row)?)
    }

    fn key(&self, record: &VoidRecord) -> RecordKey {
        RecordKey::new(&record.ticket, record.line)
    }

    fn is_within(&self, _record: &VoidRecord) -> bool {
        true
    }
}

#[tactic(auto, unfolding(crate::specs::Layouts::void_record))]
fn void_record(fields: &[&[u8]]) -> Result<VoidRecord, ParseError<FaultKind>>
    ensures { Gives (λ r. r) result (void_record (map (λ f. f.now) fields.now)) }
{
    let [ticket, line] = fields else {
        return Err(ParseError::Fault(FaultKind::WrongLength));
    };
    let ticket = key_of(TICKET_LIMIT, ticket)?;
    let line = line_of(line)?;
    Ok(VoidRecord { ticket, line })
}
