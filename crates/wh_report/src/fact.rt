//! Why the facts of a report can't be counted.

ghost use Rattle.std.specs.Prelude.{◌≡◌};

use crate::summary::AddError;
use thiserror::Error;

/// Why facts weren't counted.
#[derive(Clone, Copy, Debug, PartialEq, Eq, Error)]
pub enum FactFault {
    /// A growth was refused.
    #[error("memory ran out")]
    Memory,
    /// The row that a fact names for its label isn't there.
    #[error("a fact names a row that is not there")]
    NoLabel,
    /// The measures of a fact are out of the range of a sale's, or there are more than 4,294,967,295 facts.
    #[error("a fact is out of range, or there are too many")]
    Damaged,
}

impl From<AddError> for FactFault {
    ghost use Rattle.std.specs.Prelude.{◌≡◌};
    ghost use Rattle.wh_report.specs.Counting.{fault_of};

    ghost from_gives = { λ error fault. fault ≡ fault_of error };

    fn from(error: AddError) -> FactFault {
        match error {
            AddError::Memory => FactFault::Memory,
            AddError::Damaged => FactFault::Damaged,
        }
    }
}
