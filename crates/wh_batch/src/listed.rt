//! The faults of a batch, as they are listed.

ghost use Rattle.std.specs.Prelude.{◌≡◌, IfOk};

use crate::fault::BatchFault;
use crate::row_place::RowPlace;
use std::alloc::{AllocError, Global};
use std::marker::Model;

/// The text of a field as it stands: any bytes. A contract sees these.
#[derive(Debug, Drop)]
pub struct FieldText {
    bytes: Vec<u8>,
}

impl Model for FieldText {
    ghost use Rattle.std.specs.Prelude.{List, ℕ};

    ghost Value = { List ℕ };

    ghost view = { λ t. t.bytes.items };
}

impl FieldText {
    pub(crate) fn new(alloc: Global, bytes: &[u8]) -> Result<FieldText, AllocError>
        ensures { IfOk result (λ text. text ≡ bytes.now) }
    {
        Ok(FieldText {
            bytes: Vec::from_slice(alloc, bytes)?,
        })
    }

    /// Its bytes, which need not be UTF-8.
    pub fn as_bytes(&self) -> &[u8]
        ensures { result.now ≡ self.now }
    {
        self.bytes.as_slice()
    }
}

/// The field of a row that is at fault.
#[derive(Debug, Drop)]
pub struct FaultyField {
    /// Its place in the row, from 0: its column's.
    pub place: usize,
    /// Its text; empty where the row ends before it.
    pub text: FieldText,
}

/// A fault of a batch, and where in its row it is.
#[derive(Debug, Drop)]
pub struct RecordFault {
    /// What is wrong, and in which record.
    pub fault: BatchFault,
    /// `None` for a fault of a row as a whole (its length, its key, which an earlier one has), or of the batch.
    pub field: Option<FaultyField>,
}

/// A fault of a batch, and where its row stands.
#[derive(Debug, Drop)]
pub struct ListedFault {
    /// The fault, with its field.
    pub fault: RecordFault,
    /// The place of its row. A fault of the batch as a whole stands at its beginning.
    pub row: RowPlace,
}

/// The first faults of a batch, in the order of its records.
#[derive(Debug, Drop)]
pub struct Faults {
    /// Those that are listed.
    pub listed: Vec<ListedFault>,
    /// How many more there are.
    pub more: u64,
}
