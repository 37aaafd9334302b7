//! Batches of any kind.

ghost use Rattle.std.specs.Prelude.{◌≡◌, IfOk};
ghost use Rattle.wh_day.specs.Reading.{Gives};
ghost use Rattle.wh_batch.specs.Layouts.{columns_of, records_of};

use crate::column::Column;
use crate::dimension::{dimension_columns, dimension_records};
use crate::fault::BatchFault;
use crate::kind::BatchKind;
use crate::records::Records;
use crate::sale::{sale_records, sales_columns};
use crate::void::{void_columns, void_records};
use std::alloc::{AllocError, Global};
use wh_day::ParseError;
use wh_policy::{Format, Policy};

/// The records of a batch of this kind, in order. `Memory` comes where a growth was refused, or where the CSV reader
/// gave up.
#[tactic(auto, unfolding(crate::specs::Layouts::records_of))]
pub fn read(
    alloc: Global,
    kind: BatchKind,
    policy: &Policy,
    format: Format,
    bytes: &[u8],
) -> Result<Records, ParseError<BatchFault>>
    ensures { Gives (λ records. records) result (records_of kind policy.now format bytes.now) }
{
    match kind {
        BatchKind::Dimension(dim) => Ok(Records::Dimension(dimension_records(
            alloc, dim, policy, bytes,
        )?)),
        BatchKind::Sales => Ok(Records::Sales(sale_records(alloc, policy, format, bytes)?)),
        BatchKind::Voids => Ok(Records::Voids(void_records(alloc, format, bytes)?)),
    }
}

/// The columns of a batch of this kind, in order: its header has their names, and each of its records a field for each. Voids
/// have theirs in the first format too, which takes none. The error comes where memory ran out.
pub fn columns_of<'a>(
    alloc: Global,
    kind: BatchKind,
    policy: &'a Policy,
    format: Format,
) -> Result<Vec<Column<'a>>, AllocError>
    ensures { IfOk result (λ columns. columns.items ≡ columns_of kind policy.now format) }
{
    match kind {
        BatchKind::Dimension(dim) => dimension_columns(alloc, policy.attributes(dim)),
        BatchKind::Sales => sales_columns(alloc, format),
        BatchKind::Voids => void_columns(alloc),
    }
}
