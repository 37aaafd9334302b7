//! The rows of a dimension's table.

ghost use Rattle.std.specs.Prelude.{◌≡◌, IfOk, IsSome, position, count_by};
ghost use Rattle.wh_history.specs.Rows.{holds};
ghost use Rattle.std.specs.Option.{option_copied};
ghost use Rattle.wh_history.specs.Plan.{row_of, same_frame, same_row};

use std::alloc::{AllocError, Global};
use std::marker::Model;
use wh_day::{Day, Value, Values};

/// The greatest number that a member, an anchor or a profile has in the tables.
pub const GREATEST_NUMBER: u64 = 9_999_999;

/// A row of a dimension's table: a member from one day to another.
///
/// Kimball & Ross, *The Data Warehouse Toolkit*, 3rd edition, chapter 5, "Type 2: Add New Row", with the columns of types 3, 5 and 6.
/// A placeholder's only row says `(unknown)`: chapter 2, "Late Arriving Dimensions".
#[derive(Debug, Drop)]
pub struct DimRow {
    /// The surrogate key, from 1; 0 is the row of sales without a card.
    pub surrogate: u64,
    /// The durable key of the member; 0 in the row of sales without a card.
    pub durable: u64,
    /// The natural key of the member.
    pub natural: Value,
    /// The first day; 1900-01-01 in the opening.
    pub from_day: Day,
    /// The last day, 9999-12-31 in the current row.
    pub to_day: Day,
    /// Whether it is the last of its member's rows.
    pub is_current: bool,
    /// The main texts of the six slots, empty where there is no attribute.
    pub a: Values,
    /// The second texts of the six slots: the prior value of type 3, the latest of type 6.
    pub b: Values,
    /// The number of the member's newest profile, where an attribute is of type 5, else 0.
    pub profile_now: u64,
}

impl DimRow {
    /// The same row, in memory of its own.
    pub fn copy(&self, alloc: Global) -> Result<DimRow, AllocError>
        ensures { IfOk result (λ r. r ≡ self.now) }
    {
        Ok(DimRow {
            surrogate: self.surrogate,
            durable: self.durable,
            natural: self.natural.copy()?,
            from_day: self.from_day,
            to_day: self.to_day,
            is_current: self.is_current,
            a: self.a.copy(alloc)?,
            b: self.b.copy(alloc)?,
            profile_now: self.profile_now,
        })
    }

    /// Whether the rows have the same numbers and days.
    fn is_same_frame(&self, other: &DimRow) -> bool
        ensures { result ≡ same_frame self.now other.now }
    {
        self.surrogate == other.surrogate
            && self.durable == other.durable
            && self.from_day == other.from_day
            && self.to_day == other.to_day
            && self.is_current == other.is_current
            && self.profile_now == other.profile_now
    }

    /// Whether the rows are the same.
    pub fn is_same(&self, other: &DimRow) -> bool
        ensures { result ≡ same_row self.now other.now }
    {
        self.is_same_frame(other)
            && self.natural.is_same(&other.natural)
            && self.a.is_same(&other.a)
            && self.b.is_same(&other.b)
    }

    /// Whether the row holds a day.
    pub fn holds(&self, day: Day) -> bool
        ensures { result ≡ holds day self.now }
    {
        self.from_day <= day && day <= self.to_day
    }
}

/// The rows of one member, in order of their starts. A contract sees the list.
#[derive(Debug, Drop)]
pub(crate) struct DimRows {
    list: Vec<DimRow>,
}

impl Model for DimRows {
    ghost use Rattle.std.specs.Prelude.{List};
    ghost use Rattle.wh_history.specs.declared.rows.DimRow.{DimRow};

    ghost Value = { List DimRow };

    ghost view = { λ r. r.list.items };
}

impl DimRows {
    pub(crate) fn new(list: Vec<DimRow>) -> DimRows
        ensures { result ≡ list.items }
    {
        DimRows { list }
    }

    pub(crate) fn as_slice(&self) -> &[DimRow]
        ensures { result.now ≡ self.now }
    {
        self.list.as_slice()
    }
}

/// The row of a key.
pub(crate) fn row_of(rows: &[DimRow], key: u64) -> Option<&DimRow>
    ensures { option_copied result ≡ row_of key rows.now }
{
    rows.iter().find(|row| row.surrogate == key)
}

/// The place of the first row that holds the day. The keys of facts are found without it; tests compare them with it.
pub fn row_at(rows: &[DimRow], day: Day) -> Option<usize>
    ensures first { result ≡ position (holds day) rows.now }
    // Of a member's rows one does.
    ensures found { count_by (holds day) rows.now ≡ 1 → IsSome result }
{
    first_that_holds(rows, day)
}

fn first_that_holds(rows: &[DimRow], day: Day) -> Option<usize>
    ensures { result ≡ position (holds day) rows.now }
{
    rows.iter().position(|row| row.holds(day))
}
