//! The records of a batch.

ghost use Rattle.std.specs.Prelude.{◌≡◌, ◌++◌, ◌∷◌, [], OnOk, OnErr};

use std::alloc::{AllocError, Global};
use std::marker::Model;
use wh_policy::{DimensionRecord, SaleRecord, VoidRecord};

/// The records of a batch, in its order. A contract sees the list.
#[derive(Debug, Drop)]
pub struct RecordList<R: Drop> {
    list: Vec<R>,
}

/// The records of a batch for a dimension.
pub type DimensionRecords = RecordList<DimensionRecord>;

/// The records of a batch of sales.
pub type SaleRecords = RecordList<SaleRecord>;

/// The records of a batch of voids.
pub type VoidRecords = RecordList<VoidRecord>;

impl<R: Drop> Model for RecordList<R> {
    ghost use Rattle.std.specs.Prelude.{List};

    ghost Value = { List R };

    ghost view = { λ r. r.list.items };
}

impl<R: Drop> RecordList<R> {
    /// No record yet.
    pub fn new(alloc: Global) -> RecordList<R>
        ensures { result ≡ [] }
    {
        RecordList {
            list: Vec::new(alloc),
        }
    }

    pub(crate) fn of(list: Vec<R>) -> RecordList<R>
        ensures { result ≡ list.items }
    {
        RecordList { list }
    }

    /// The records in the order of the batch.
    pub fn as_slice(&self) -> &[R]
        ensures { result.now ≡ self.now }
    {
        self.list.as_slice()
    }

    /// Adds a record at the end. After an `Err` the records are those before.
    pub fn push(&mut self, record: R) -> Result<(), AllocError>
        ensures ok { OnOk result (self.new ≡ self.old ++ «record» ∷ []) }
        ensures err { OnErr result (self.new ≡ self.old) }
    {
        self.list.push(record)?;
        Ok(())
    }
}

/// The records of a batch of any kind.
#[derive(Debug, Drop)]
pub enum Records {
    /// Of a batch for a dimension.
    Dimension(DimensionRecords),
    /// Of a batch of sales.
    Sales(SaleRecords),
    /// Of a batch of voids.
    Voids(VoidRecords),
}
