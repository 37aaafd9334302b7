//! Why the rows of a table weren't read.

ghost use Rattle.std.specs.Prelude.{◌≡◌};
ghost use Rattle.wh_sql.specs.Reads.{unasked};
ghost use Rattle.wh_sql.specs.declared.fault.ReadFault.TheVariants.{Memory};

use std::alloc::{AllocError, AllocFailed};
use thiserror::Error;
use wh_rows::{Cause, Table};

/// Why the rows of a table weren't read.
#[derive(Clone, Copy, Debug, PartialEq, Eq, Error)]
pub enum ReadFault {
    /// A growth was refused outside the database, and the database refused nothing.
    #[error("memory ran out")]
    Memory,
    /// A row of this table that the call reads is out of its type.
    #[error("a row of a table is out of its type")]
    Damaged(Table),
    /// The database refused the statement, for this cause.
    #[error("the store refused the statement")]
    Store(Cause),
}

impl From<AllocError> for ReadFault {
    ghost from_gives = { λ _ fault. fault ≡ Memory };

    fn from(_e: AllocError) -> ReadFault {
        ReadFault::Memory
    }
}

impl<T: Drop> From<AllocFailed<T>> for ReadFault {
    ghost from_gives = { λ _ fault. fault ≡ Memory };

    fn from(_e: AllocFailed<T>) -> ReadFault {
        ReadFault::Memory
    }
}

/// Why the parameters of a statement weren't made, before it was run.
impl From<Cause> for ReadFault {
    ghost from_gives = { λ cause fault. fault ≡ unasked cause };

    fn from(cause: Cause) -> ReadFault {
        match cause {
            Cause::Memory => ReadFault::Memory,
            cause => ReadFault::Store(cause),
        }
    }
}
