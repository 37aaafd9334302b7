//! Why the database refuses a statement.

ghost use Rattle.std.specs.Prelude.{◌≡◌};
ghost use Rattle.wh_rows.specs.Cause.{cause_of};
ghost use Rattle.wh_rows.specs.declared.cause.Cause.TheVariants.{Memory};

use sqlite::ErrorCode;
use std::alloc::{AllocError, AllocFailed};
use thiserror::Error;

/// Why a statement was refused.
#[derive(Clone, Copy, Debug, PartialEq, Eq, Error)]
pub enum Cause {
    /// Memory ran out.
    #[error("memory ran out")]
    Memory,
    /// The disk failed or is full, or the file doesn't take the statement.
    #[error("the disk failed or is full, or the file does not take the statement")]
    Disk,
    /// A number, a text or a row is too big to be stored.
    #[error("a number, a text or a row is too big to be stored")]
    Size,
    /// The limit on the steps of a statement was met.
    #[error("the limit on the steps of a statement was met")]
    Interrupted,
}

impl From<AllocError> for Cause {
    ghost from_gives = { λ _ cause. cause ≡ Memory };

    fn from(_e: AllocError) -> Cause {
        Cause::Memory
    }
}

impl<T: Drop> From<AllocFailed<T>> for Cause {
    ghost from_gives = { λ _ cause. cause ≡ Memory };

    fn from(_e: AllocFailed<T>) -> Cause {
        Cause::Memory
    }
}

impl From<sqlite::Error> for Cause {
    ghost from_gives = { λ error cause. cause ≡ cause_of error };

    fn from(error: sqlite::Error) -> Cause {
        match error {
            sqlite::Error::SqliteFailure(ErrorCode::OutOfMemory) => Cause::Memory,
            sqlite::Error::SqliteFailure(ErrorCode::TooBig) => Cause::Size,
            sqlite::Error::SqliteFailure(ErrorCode::OperationInterrupted) => Cause::Interrupted,
            _ => Cause::Disk,
        }
    }
}
