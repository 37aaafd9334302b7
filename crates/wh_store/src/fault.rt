//! Why no tables were made or found.

ghost use Rattle.std.specs.Prelude.{◌≡◌};
ghost use Rattle.wh_store.specs.Opening.{unread};
ghost use Rattle.wh_store.specs.declared.fault.OpenFault.TheVariants.{Memory};

use std::alloc::{AllocError, AllocFailed};
use thiserror::Error;
use wh_rows::{Cause, Table};
use wh_sql::ReadFault;

/// Why no tables can be made.
#[derive(Clone, Copy, Debug, PartialEq, Eq, Error)]
pub enum NotFree {
    /// A table, an index or a view has the name of one of the twelve tables.
    #[error("a name of the twelve tables is taken")]
    NotEmpty,
    /// The connection is inside a transaction; the cause is `Disk`.
    #[error("the connection is inside a transaction")]
    Store(Cause),
}

/// Why a database isn't taken for a warehouse.
#[derive(Clone, Copy, Debug, PartialEq, Eq, Error)]
pub enum OpenFault {
    /// A table of the format that meta says, or one of its columns, is missing, or meta has no row `format`.
    #[error("this is no warehouse")]
    NotAWarehouse,
    /// The format is below 1.
    #[error("the format is older than any that is known")]
    OldFormat,
    /// The format is above the newest that the caller knows.
    #[error("the format is newer than any that is known")]
    NewFormat,
    /// A row that is needed isn't there, or has a value out of its type.
    #[error("a row that is needed is missing, or out of its type")]
    Damaged(Table),
    /// A growth was refused outside the database, and the database refused nothing.
    #[error("memory ran out")]
    Memory,
    /// The database refused a statement, for this cause.
    #[error("the store refused a statement")]
    Store(Cause),
}

impl From<AllocError> for OpenFault {
    ghost from_gives = { λ _ fault. fault ≡ Memory };

    fn from(_e: AllocError) -> OpenFault {
        OpenFault::Memory
    }
}

impl<T: Drop> From<AllocFailed<T>> for OpenFault {
    ghost from_gives = { λ _ fault. fault ≡ Memory };

    fn from(_e: AllocFailed<T>) -> OpenFault {
        OpenFault::Memory
    }
}

impl From<ReadFault> for OpenFault {
    ghost from_gives = { λ why fault. fault ≡ unread why };

    fn from(why: ReadFault) -> OpenFault {
        match why {
            ReadFault::Memory => OpenFault::Memory,
            ReadFault::Damaged(table) => OpenFault::Damaged(table),
            ReadFault::Store(cause) => OpenFault::Store(cause),
        }
    }
}
