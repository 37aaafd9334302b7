//! How the records of a kind are laid out.

ghost use Rattle.std.specs.Prelude.{◌≡◌, IfOk};
ghost use Rattle.csv.specs.Records.{fields_of};
ghost use Rattle.wh_day.specs.Reading.{Gives};
ghost use Rattle.wh_batch.specs.Batch.{Layout};
ghost use Rattle.wh_batch.specs.Keys.{key_of};

use crate::column::Column;
use crate::fault::FaultKind;
use crate::keys::RecordKey;
use csv::ByteRecord;
use std::alloc::{AllocError, Global};
use wh_day::ParseError;

/// How the records of a kind are laid out.
pub(crate) trait RecordLayout {
    type Record: Drop;

    ghost layout: { Self → Layout Self.Record };

    fn columns(&self, alloc: Global) -> Result<Vec<Column<'_>>, AllocError>
        ensures { IfOk result (λ columns. columns.items ≡ (layout self.now).columns) };

    /// The record of a row.
    fn read(&self, alloc: Global, row: &ByteRecord) -> Result<Self::Record, ParseError<FaultKind>>
        ensures { Gives (λ r. r) result ((layout self.now).read (fields_of row.now)) };

    fn key(&self, record: &Self::Record) -> RecordKey
        ensures { key_of result ≡ (layout self.now).key «record».now };

    /// Whether the calendar has the record's day.
    fn is_within(&self, record: &Self::Record) -> bool
        ensures { result ≡ (layout self.now).is_within «record».now };
}
