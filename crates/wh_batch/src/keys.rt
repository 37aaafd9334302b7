//! The keys of records.

ghost use Rattle.std.specs.Prelude.{◌≡◌, ◌++◌, ◌∷◌, [], not, if◌then◌else◌, string_bytes, IfOk, OnErr};
ghost use Rattle.std.specs.List.{list_any};
ghost use Rattle.wh_batch.specs.Batch.{is_same_key};

use indexmap::IndexSet;
use std::alloc::{AllocError, Global};
use std::marker::Model;
use wh_day::NaturalKey;

/// What no two records of a batch share: the member and the day, or the ticket and the line.
#[derive(Debug, PartialEq, Eq, Hash, Drop)]
pub(crate) struct RecordKey {
    text: NaturalKey,
    number: u32,
}

impl RecordKey {
    ghost use Rattle.wh_batch.specs.Keys.{key_of};

    pub(crate) fn new(text: &NaturalKey, number: u32) -> RecordKey
        ensures { key_of result ≡ record { text = text.now; number = number } }
    {
        RecordKey {
            text: text.copy(),
            number,
        }
    }
}

/// The keys of the records so far. A contract sees the list.
#[derive(Drop)]
pub(crate) struct Keys {
    set: IndexSet<RecordKey>,
}

impl Model for Keys {
    ghost use Rattle.std.specs.Prelude.{List, map};
    ghost use Rattle.wh_batch.specs.Batch.{Key};
    ghost use Rattle.wh_batch.specs.Keys.{key_of};

    ghost Value = { List Key };

    ghost view = { λ k. map key_of k.set.keys };
}

impl Keys {
    ghost use Rattle.wh_batch.specs.Keys.{key_of};

    /// No key yet, and room for so many.
    pub(crate) fn with_capacity(alloc: Global, room: usize) -> Result<Keys, AllocError>
        ensures { IfOk result (λ keys. keys ≡ []) }
    {
        Ok(Keys {
            set: IndexSet::with_capacity(alloc, room)?,
        })
    }

    /// Adds a key, and answers whether it is new.
    pub(crate) fn insert(&mut self, key: RecordKey) -> Result<bool, AllocError>
        ensures added { IfOk result (λ added. added ≡ not (list_any (is_same_key (key_of key)) self.old)) }
        ensures keys { IfOk result (λ added. self.new ≡ (if added then self.old ++ key_of key ∷ [] else self.old)) }
    {
        Ok(self.set.insert(key)?)
    }
}
