//! The rows of the tables. The dimensions' are `wh_history`'s [`DimRow`], the facts' its [`Fact`], and the calendar's
//! `wh_day`'s [`DateRow`].

ghost use Rattle.std.specs.Prelude.{◌≡◌, IfOk};

use sqlite_value::value::Bytes;
use std::alloc::{AllocError, Global};
use wh_day::{Day, Value, Values};
use wh_history::PlannedRow;
use wh_policy::Dim;

/// A row of meta: a limit or the format, under its name.
#[derive(Debug, Drop)]
pub struct MetaRow {
    /// `format`, `commands_max`, `changes_max` or `facts_max` in a sound warehouse.
    pub name: Value,
    /// The number of the format, or the limit.
    pub value: i64,
}

/// A row of command: an accepted command, with what its receipt says.
#[derive(Debug, Drop)]
pub struct CommandRow {
    /// From 1, in order of acceptance.
    pub number: u64,
    /// What the sender calls it, which no two commands share.
    pub id: Value,
    /// `init`, `migrate`, `upgrade`, `product`, `store`, `customer`, `sales` or `void`.
    pub kind: Value,
    /// The policy or the batch, as it came.
    pub bytes: Bytes,
    /// How many records it has.
    pub records: u64,
    /// How many members its sales were the first to mention.
    pub placeholders: u64,
}

/// A row of member: what the source calls a member of a dimension.
///
/// Kimball & Ross, *The Data Warehouse Toolkit*, 3rd edition, chapter 3, "Dimension Natural and Durable Supernatural Keys".
#[derive(Debug, Drop)]
pub struct MemberRow {
    /// The dimension.
    pub dim: Dim,
    /// The durable key: its place, from 1, in order of first mention.
    pub durable: u64,
    /// The natural key: its name in the source.
    pub natural: Value,
    /// The surrogate key of the member's first row.
    pub opening: u64,
}

/// A row of change: an accepted record of a member.
#[derive(Debug, Drop)]
pub struct ChangeRow {
    /// The number of the command that brought the record.
    pub command: u64,
    /// The record's place in that command, from 1. The column is called `record`.
    pub place: u64,
    /// The dimension of the member.
    pub dim: Dim,
    /// The durable key of the member.
    pub durable: u64,
    /// The day from which on the values hold.
    pub day: Day,
    /// The surrogate key of the member on that day.
    pub anchor: u64,
    /// The values of the six slots, empty where the policy had no attribute.
    pub values: Values,
}

/// A row of profile: a combination of the values of the customer's attributes of types 4 and 5.
///
/// After Kimball & Ross, *The Data Warehouse Toolkit*, 3rd edition, chapter 5, "Type 4: Add Mini-Dimension".
#[derive(Debug, Drop)]
pub struct ProfileRow {
    /// 0 for sales without a card, 1 for customers without a record, and from 2 on for combinations.
    pub number: u64,
    /// The texts of the six slots, empty where the attribute is of another type.
    pub values: Values,
}

impl ProfileRow {
    ghost use Rattle.wh_rows.specs.SameRows.{same_values};

    /// Whether two rows of one number are the same.
    pub fn is_same(&self, other: &ProfileRow) -> bool
        ensures { result ≡ same_values self.now other.now }
    {
        self.values.is_same(&other.values)
    }

    /// The same row, in memory of its own.
    pub fn copy(&self, alloc: Global) -> Result<ProfileRow, AllocError>
        ensures { IfOk result (λ copied. copied ≡ self.now) }
    {
        Ok(ProfileRow {
            number: self.number,
            values: self.values.copy(alloc)?,
        })
    }
}

impl PlannedRow for ProfileRow {
    ghost use Rattle.wh_rows.specs.SameRows.{same_values};

    ghost same = { same_values };

    fn is_same_row(&self, other: &ProfileRow) -> bool {
        self.is_same(other)
    }

    fn copy_row(&self, alloc: Global) -> Result<ProfileRow, AllocError> {
        self.copy(alloc)
    }
}

/// A row of void: a line that was withdrawn.
#[derive(Debug, Drop)]
pub struct VoidRow {
    /// The number of the ticket.
    pub ticket: Value,
    /// The line's number on it, 1 to 9999.
    pub line: u32,
    /// The number of the command that withdrew it.
    pub command: u64,
}
