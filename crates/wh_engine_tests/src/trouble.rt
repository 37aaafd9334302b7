//! Why a step of a scenario has no answer.

use sqlite::Error;
use std::alloc::{AllocError, AllocFailed};
use std::io;
use wh_rows::Cause;
use wh_scenarios::NotMade;
use wh_sql::ReadFault;

/// A step that could not be made: its words mean nothing where it stands, or memory, the store or a file refused it.
#[derive(Clone, Copy, Debug, PartialEq, Eq, Drop)]
pub struct Trouble;

impl From<AllocError> for Trouble {
    fn from(_e: AllocError) -> Trouble {
        Trouble
    }
}

impl<T: Drop> From<AllocFailed<T>> for Trouble {
    fn from(_e: AllocFailed<T>) -> Trouble {
        Trouble
    }
}

impl From<Error> for Trouble {
    fn from(_e: Error) -> Trouble {
        Trouble
    }
}

impl From<Cause> for Trouble {
    fn from(_e: Cause) -> Trouble {
        Trouble
    }
}

impl From<ReadFault> for Trouble {
    fn from(_e: ReadFault) -> Trouble {
        Trouble
    }
}

impl From<io::Error> for Trouble {
    fn from(_e: io::Error) -> Trouble {
        Trouble
    }
}

impl From<NotMade> for Trouble {
    fn from(_e: NotMade) -> Trouble {
        Trouble
    }
}

impl From<Trouble> for NotMade {
    fn from(_e: Trouble) -> NotMade {
        NotMade
    }
}
