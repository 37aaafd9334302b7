//! Why a call on a warehouse isn't answered.

ghost use Rattle.std.specs.Prelude.{◌≡◌};
ghost use Rattle.wh_engine.specs.Faults.{of_content, of_reading, stops};
ghost use Rattle.wh_engine.specs.declared.fault.Fault.TheVariants as faults;

use std::alloc::AllocError;
use thiserror::Error;
use wh_admission::Refusal;
use wh_day::ParseError;
use wh_rows::{Cause, Table};
use wh_store::ReadFault;

/// Why a call on the tables of a warehouse isn't answered.
#[derive(Clone, Copy, Debug, PartialEq, Eq, Error)]
pub enum Fault {
    /// The command isn't accepted. It isn't kept, and nothing changed.
    #[error("the command is not accepted")]
    Refused(Refusal),
    /// A row of this table is out of its type. Nothing changed.
    #[error("a row of a table is out of its type")]
    Damaged(Table),
    /// A growth was refused before anything was written. Nothing changed.
    #[error("memory ran out")]
    Memory,
    /// The database refused a call, or a growth was refused inside a transaction. What is left is found by opening again.
    #[error("the store refused a call")]
    Store(Cause),
    /// The database refused an earlier call: the warehouse has to be opened again. Nothing changed.
    #[error("the warehouse has to be opened again")]
    Reopen,
}

/// Whether the database refused a call.
pub(crate) fn stops<T>(answer: &Result<T, Fault>) -> bool
    ensures { result ≡ stops answer.now }
{
    matches!(answer, Err(Fault::Store(_)))
}

impl From<AllocError> for Fault {
    ghost from_gives = { λ _ fault. fault ≡ faults.Memory };

    fn from(_error: AllocError) -> Fault {
        Fault::Memory
    }
}

impl From<Refusal> for Fault {
    ghost from_gives = { λ why fault. fault ≡ faults.Refused why };

    fn from(why: Refusal) -> Fault {
        Fault::Refused(why)
    }
}

impl From<ParseError<Refusal>> for Fault {
    ghost from_gives = { λ why fault. fault ≡ of_content why };

    fn from(why: ParseError<Refusal>) -> Fault {
        match why {
            ParseError::Memory => Fault::Memory,
            ParseError::Fault(why) => Fault::Refused(why),
        }
    }
}

impl From<ReadFault> for Fault {
    ghost from_gives = { λ why fault. fault ≡ of_reading why };

    fn from(why: ReadFault) -> Fault {
        match why {
            ReadFault::Memory => Fault::Memory,
            ReadFault::Damaged(table) => Fault::Damaged(table),
            ReadFault::Store(cause) => Fault::Store(cause),
        }
    }
}
