//! Where in a policy a fault stands.

ghost use Rattle.std.specs.Prelude.{◌≡◌};
ghost use Rattle.wh_day.specs.declared.error.ParseError.TheVariants.{Fault};

use crate::fault::PolicyFault;
use std::marker::Model;
use wh_day::ParseError;

/// A place in a policy.
#[derive(Clone, Copy, Debug, PartialEq, Eq)]
pub struct Place<'a> {
    /// The array of tables; `None` for the file itself.
    pub array: Option<&'static str>,
    /// Which of its tables, from 1; 0 for the array, or the file.
    pub number: usize,
    /// The key; `None` for all of them.
    pub key: Option<&'a str>,
}

impl<'a> Place<'a> {
    /// The file itself.
    pub(crate) fn of_file() -> Place<'a> {
        Place {
            array: None,
            number: 0,
            key: None,
        }
    }

    /// An array of tables.
    pub(crate) fn of_array(array: &'static str) -> Place<'a> {
        Place {
            array: Some(array),
            number: 0,
            key: None,
        }
    }

    /// The table of an array that stands behind so many others.
    pub(crate) fn of_table(array: &'static str, earlier: usize) -> Place<'a> {
        Place {
            array: Some(array),
            number: earlier.saturating_add(1),
            key: None,
        }
    }

    /// A key of the table, or of the file.
    pub(crate) fn at(self, key: &'a str) -> Place<'a> {
        Place {
            array: self.array,
            number: self.number,
            key: Some(key),
        }
    }

    /// A fault that stands here.
    pub(crate) fn fault(self, kind: PolicyFault) -> ParseError<PlacedFault<'a>>
        ensures { result ≡ Fault kind }
    {
        ParseError::Fault(PlacedFault { kind, place: self })
    }
}

/// A fault, and where it stands. A contract sees the fault alone.
#[derive(Debug, Drop)]
pub struct PlacedFault<'a> {
    kind: PolicyFault,
    place: Place<'a>,
}

impl<'a> Model for PlacedFault<'a> {
    ghost use Rattle.wh_policy.specs.declared.fault.PolicyFault.{PolicyFault};

    ghost Value = { PolicyFault };

    ghost view = { λ f. f.kind };
}

impl<'a> PlacedFault<'a> {
    /// The fault.
    pub fn kind(&self) -> PolicyFault
        ensures { result ≡ self.now }
    {
        self.kind
    }

    /// Where it stands.
    pub fn place(&self) -> Place<'a> {
        self.place
    }
}
