//! The keys of the tables whose key has two columns, and the numbers of the dimensions in them.

ghost use Rattle.std.specs.Prelude.{◌≡◌};
ghost use Rattle.wh_rows.specs.Types.{dim_number};

use wh_day::Value;
use wh_policy::Dim;

/// The number of a dimension, by which the tables member and change name it: 1 for product, 2 for store, 3 for customer.
pub fn dim_number(dim: Dim) -> u64
    ensures { result ≡ dim_number dim }
{
    match dim {
        Dim::Product => 1,
        Dim::Store => 2,
        Dim::Customer => 3,
    }
}

/// The key of member: a dimension, and a durable key of it.
#[derive(Clone, Copy, Debug, PartialEq, Eq)]
pub struct MemberKey {
    /// The dimension.
    pub dim: Dim,
    /// The durable key of the member.
    pub durable: u64,
}

/// The key of change: a command's number, and the place of a record in it, from 1.
#[derive(Clone, Copy, Debug, PartialEq, Eq)]
pub struct ChangeKey {
    /// The number of the command.
    pub command: u64,
    /// The place of the record in it.
    pub place: u64,
}

/// The key of fact: a ticket and one of its lines.
#[derive(Debug, Drop)]
pub struct LineKey {
    /// The number of the ticket, up to 20 bytes where it is stored.
    pub ticket: Value,
    /// The line's number on it, 1 to 9999.
    pub line: u32,
}
