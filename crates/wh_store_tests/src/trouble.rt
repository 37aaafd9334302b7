//! Why a step of a scenario was not made.

use sqlite::Error;
use std::alloc::{AllocError, AllocFailed};
use std::io;
use wh_rows::{Cause, Table};
use wh_sql::ReadFault;
use wh_store::{NotFree, OpenFault};

/// Why a step was not made.
#[derive(Clone, Copy, Debug, PartialEq, Eq, Drop)]
pub enum Trouble {
    /// The database refused it.
    Refused(Cause),
    /// A stored value of this table is out of its type.
    Damaged(Table),
    /// No new warehouse is taken here.
    Unmade(NotFree),
    /// No warehouse is found here.
    Unopened(OpenFault),
    /// No warehouse may have such limits.
    NoLimits,
    /// There is no such step, or not here.
    Unknown,
}

impl From<AllocError> for Trouble {
    fn from(_e: AllocError) -> Trouble {
        Trouble::Refused(Cause::Memory)
    }
}

impl<T: Drop> From<AllocFailed<T>> for Trouble {
    fn from(_e: AllocFailed<T>) -> Trouble {
        Trouble::Refused(Cause::Memory)
    }
}

impl From<Cause> for Trouble {
    fn from(cause: Cause) -> Trouble {
        Trouble::Refused(cause)
    }
}

impl From<Error> for Trouble {
    fn from(error: Error) -> Trouble {
        Trouble::Refused(Cause::from(error))
    }
}

impl From<ReadFault> for Trouble {
    fn from(fault: ReadFault) -> Trouble {
        match fault {
            ReadFault::Memory => Trouble::Refused(Cause::Memory),
            ReadFault::Damaged(table) => Trouble::Damaged(table),
            ReadFault::Store(cause) => Trouble::Refused(cause),
        }
    }
}

impl From<io::Error> for Trouble {
    fn from(_e: io::Error) -> Trouble {
        Trouble::Refused(Cause::Disk)
    }
}

impl Trouble {
    /// How a scenario says it.
    pub fn words(self) -> (&'static str, &'static str) {
        match self {
            Trouble::Refused(cause) => ("refused ", word_of_cause(cause)),
            Trouble::Damaged(table) => ("damaged ", table.name()),
            Trouble::Unmade(NotFree::NotEmpty) => ("not empty", ""),
            Trouble::Unmade(NotFree::Store(cause)) => ("refused ", word_of_cause(cause)),
            Trouble::Unopened(fault) => words_of_opening(fault),
            Trouble::NoLimits => ("no limits", ""),
            Trouble::Unknown => ("no such step", ""),
        }
    }
}

fn word_of_cause(cause: Cause) -> &'static str {
    match cause {
        Cause::Memory => "memory",
        Cause::Disk => "disk",
        Cause::Size => "size",
        Cause::Interrupted => "interrupted",
    }
}

fn words_of_opening(fault: OpenFault) -> (&'static str, &'static str) {
    match fault {
        OpenFault::NotAWarehouse => ("no warehouse", ""),
        OpenFault::OldFormat => ("old format", ""),
        OpenFault::NewFormat => ("new format", ""),
        OpenFault::Damaged(table) => ("damaged ", table.name()),
        OpenFault::Memory => ("refused ", word_of_cause(Cause::Memory)),
        OpenFault::Store(cause) => ("refused ", word_of_cause(cause)),
    }
}
