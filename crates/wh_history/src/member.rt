//! A member and all that was accepted of it.

ghost use Rattle.std.specs.Prelude.{◌≡◌, ◌++◌, ◌∷◌, [], IfOk, OnOk, OnErr};
ghost use Rattle.wh_history.specs.Touched.{nothing_stored};

use std::alloc::{AllocError, Global};
use std::marker::Model;
use wh_day::{Day, Value, Values};

/// What a dimension record says of its member from a day on.
///
/// Kimball & Ross, *The Data Warehouse Toolkit*, 3rd edition, chapter 5, "Slowly Changing Dimension Basics". A change may come
/// late, after others of later days.
#[derive(Debug, Drop)]
pub struct Change {
    /// The effective day.
    pub day: Day,
    /// The surrogate key that was drawn for the member and this day.
    pub anchor: u64,
    /// The values by slot.
    pub values: Values,
}

impl Change {
    /// The same change, in memory of its own.
    pub fn copy(&self, alloc: Global) -> Result<Change, AllocError>
        ensures { IfOk result (λ copied. copied ≡ self.now) }
    {
        Ok(Change {
            day: self.day,
            anchor: self.anchor,
            values: self.values.copy(alloc)?,
        })
    }
}

/// Changes in the order in which they were accepted. A contract sees the list.
#[derive(Debug, Drop)]
pub struct Changes {
    list: Vec<Change>,
}

impl Model for Changes {
    ghost use Rattle.std.specs.Prelude.{List};
    ghost use Rattle.wh_history.specs.declared.member.Change.{Change};

    ghost Value = { List Change };

    ghost view = { λ c. c.list.items };
}

impl Changes {
    /// No change yet.
    pub fn new(alloc: Global) -> Changes
        ensures { result ≡ [] }
    {
        Changes {
            list: Vec::new(alloc),
        }
    }

    /// The changes in order of acceptance.
    pub fn as_slice(&self) -> &[Change]
        ensures { result.now ≡ self.now }
    {
        self.list.as_slice()
    }

    /// The same changes, in memory of their own.
    pub fn copy(&self, alloc: Global) -> Result<Changes, AllocError>
        ensures { IfOk result (λ copied. copied ≡ self.now) }
    {
        let mut copied = Changes::new(alloc);
        for change in self.as_slice() {
            copied.push(change.copy(alloc)?)?;
        }
        Ok(copied)
    }

    /// Adds a change that was accepted after the others. After an `Err` the changes are those before.
    pub fn push(&mut self, change: Change) -> Result<(), AllocError>
        ensures ok { OnOk result (self.new ≡ self.old ++ change ∷ []) }
        ensures err { OnErr result (self.new ≡ self.old) }
    {
        self.list.push(change)?;
        Ok(())
    }
}

/// A member of a dimension, with its natural and its durable key.
///
/// Kimball & Ross, *The Data Warehouse Toolkit*, 3rd edition, chapter 2, "Natural, Durable, and Supernatural Keys". A member
/// without changes is a placeholder: a sale was the first to mention it.
#[derive(Debug, Drop)]
pub struct Member {
    /// The durable key: its place, from 1, among the dimension's members in order of first mention.
    pub durable: u64,
    /// The natural key: its name in the source.
    pub natural: Value,
    /// The surrogate key of its opening, the row from 1900-01-01 on.
    pub opening: u64,
    /// All that was accepted of it, in order of acceptance.
    pub changes: Changes,
}

impl Member {
    /// The same member, in memory of its own.
    pub fn copy(&self, alloc: Global) -> Result<Member, AllocError>
        ensures { IfOk result (λ copied. copied ≡ self.now) }
    {
        Ok(Member {
            durable: self.durable,
            natural: self.natural.copy()?,
            opening: self.opening,
            changes: self.changes.copy(alloc)?,
        })
    }

    /// A member that isn't stored: all its numbers are 0, and it has no changes.
    pub fn absent(alloc: Global, natural: &Value) -> Result<Member, AllocError>
        ensures { IfOk result (λ member. member ≡ nothing_stored natural.now) }
    {
        Ok(Member {
            durable: 0,
            natural: natural.copy()?,
            opening: 0,
            changes: Changes::new(alloc),
        })
    }
}
