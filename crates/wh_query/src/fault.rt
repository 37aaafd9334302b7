//! Why the facts of a query can't be counted.

ghost use Rattle.std.specs.Prelude.{◌≡◌};
ghost use Rattle.wh_query.specs.declared.fault.SaleFault.TheVariants as uncounted;

use std::alloc::{AllocError, AllocFailed};
use wh_report::LabelColumn;

/// Why a sale isn't counted.
#[derive(Clone, Copy, Debug, PartialEq, Eq)]
pub(crate) enum SaleFault {
    /// A growth was refused.
    Memory,
    /// The row that its fact names for a label in this column isn't there.
    NoLabel(LabelColumn),
    /// Its measures are out of the range of a sale's, or there are more than 4,294,967,295 facts.
    Damaged,
}

impl From<AllocError> for SaleFault {
    ghost from_gives = { λ _ fault. fault ≡ uncounted.Memory };

    fn from(_error: AllocError) -> SaleFault {
        SaleFault::Memory
    }
}

impl<T: Drop> From<AllocFailed<T>> for SaleFault {
    ghost from_gives = { λ _ fault. fault ≡ uncounted.Memory };

    fn from(_error: AllocFailed<T>) -> SaleFault {
        SaleFault::Memory
    }
}
