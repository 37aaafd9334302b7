//! The columns of a batch.

ghost use Rattle.std.specs.Prelude.{◌≡◌, map};
ghost use Rattle.std.specs.Str.{bytes_eq};
ghost use Rattle.std.specs.Cmp.Lexicographic.{pointwise};
ghost use Rattle.wh_batch.specs.Columns.{names};

use crate::holds::Holds;
use std::marker::Model;

/// A column of a batch: its name in the header, and what its fields hold.
#[derive(Debug, Drop)]
pub struct Column<'a> {
    name: &'a str,
    holds: Holds,
}

impl<'a> Model for Column<'a> {
    ghost use Rattle.wh_batch.specs.Columns.{Column as Described};

    ghost Value = { Described };

    ghost view = { λ c. record { name = c.name.now; holds = c.holds } };
}

impl<'a> Column<'a> {
    pub(crate) fn new(name: &'a str, holds: Holds) -> Column<'a>
        ensures { result ≡ record { name = name.now; holds = holds } }
    {
        Column { name, holds }
    }

    /// Its name, as the header writes it.
    pub fn name(&self) -> &str
        ensures { result.now ≡ self.now.name }
    {
        self.name
    }

    /// What its fields hold.
    pub fn holds(&self) -> Holds
        ensures { result ≡ self.now.holds }
    {
        self.holds
    }
}

/// Whether a row writes the names of these columns.
pub(crate) fn is_header(columns: &[Column], fields: &[&[u8]]) -> bool
    ensures { result ≡ pointwise bytes_eq (map (λ f. f.now) fields.now) (names columns.now) }
{
    match (fields, columns) {
        ([], []) => true,
        ([field, fields @ ..], [column, columns @ ..]) => {
            *field == column.name().as_bytes() && is_header(columns, fields)
        }
        _ => false,
    }
}
