//! Batches for dimensions.

ghost use Rattle.std.specs.Prelude.{◌≡◌, map, IfOk};
ghost use Rattle.wh_day.specs.Reading.{Gives};
ghost use Rattle.wh_batch.specs.Layouts.{dimension_columns, dimension_record, dimension_records};

use crate::batch::batch_of;
use crate::column::Column;
use crate::fault::{BatchFault, FaultKind};
use crate::fields::{effective_day_of, fields_of, key_of, values_of};
use crate::holds::Holds;
use crate::keys::RecordKey;
use crate::layout::RecordLayout;
use crate::records::DimensionRecords;
use csv::ByteRecord;
use std::alloc::{AllocError, Global};
use wh_day::{KEY_LIMIT, ParseError};
use wh_policy::{Attribute, Dim, DimensionRecord, Policy};

/// The records of a batch for a dimension, in order. `Memory` comes where a growth was refused, or where the CSV reader
/// gave up.
#[tactic(auto, unfolding(crate::specs::Layouts::dimension_records))]
pub fn dimension_records(
    alloc: Global,
    dim: Dim,
    policy: &Policy,
    bytes: &[u8],
) -> Result<DimensionRecords, ParseError<BatchFault>>
    ensures { Gives (λ records. records) result (dimension_records dim policy.now bytes.now) }
{
    let layout = DimensionLayout {
        attributes: policy.attributes(dim),
    };
    Ok(DimensionRecords::of(batch_of(alloc, &layout, bytes)?))
}

/// `id`, `day` and the attributes.
pub(crate) fn dimension_columns(
    alloc: Global,
    attributes: &[Attribute],
) -> Result<Vec<Column<'_>>, AllocError>
    ensures { IfOk result (λ columns. columns.items ≡ dimension_columns attributes.now) }
{
    let mut columns = Vec::with_capacity(alloc, attributes.len())?;
    columns.push(Column::new("id", Holds::Key))?;
    columns.push(Column::new("day", Holds::EffectiveDay))?;
    for attribute in attributes {
        columns.push(Column::new(attribute.name.as_str(), Holds::Value))?;
    }
    Ok(columns)
}

/// A record has an id, a day, and a value for each attribute.
#[derive(Drop)]
pub(crate) struct DimensionLayout<'a> {
    pub(crate) attributes: &'a [Attribute],
}

impl<'a> RecordLayout for DimensionLayout<'a> {
    ghost use Rattle.wh_batch.specs.Layouts.{dimension_layout};

    type Record = DimensionRecord;

    ghost layout = { λ d. dimension_layout d.attributes.now };

    fn columns(&self, alloc: Global) -> Result<Vec<Column<'_>>, AllocError> {
        dimension_columns(alloc, self.attributes)
    }

    fn read(
        &self,
        alloc: Global,
        row: &ByteRecord,
    ) -> Result<DimensionRecord, ParseError<FaultKind>> {
        let fields = fields_of(alloc, row)?;
        dimension_record(alloc, self.attributes.len(), &fields)
    }

    fn key(&self, record: &DimensionRecord) -> RecordKey {
        RecordKey::new(&record.natural, record.day.key())
    }

    fn is_within(&self, _record: &DimensionRecord) -> bool {
        true
    }
}

#[tactic(auto, unfolding(crate::specs::Layouts::dimension_record))]
fn dimension_record(
    alloc: Global,
    attributes: usize,
    fields: &[&[u8]],
) -> Result<DimensionRecord, ParseError<FaultKind>>
    ensures { Gives (λ r. r) result (dimension_record attributes (map (λ f. f.now) fields.now)) }
{
    let [id, day, values @ ..] = fields else {
        return Err(ParseError::Fault(FaultKind::WrongLength));
    };
    if values.len() != attributes {
        return Err(ParseError::Fault(FaultKind::WrongLength));
    }
    let natural = key_of(KEY_LIMIT, id)?;
    let day = effective_day_of(day)?;
    let values = values_of(alloc, values)?;
    Ok(DimensionRecord {
        natural,
        day,
        values,
    })
}
