//! Lists of entries, a record of CSV each.

ghost use Rattle.std.specs.Prelude.{◌≡◌, ℕ, List, Option, IfOk, map};
ghost use Rattle.wh_day.specs.Reading.{Gives};
ghost use Rattle.wh_batch.specs.Entries.{entries_from, list_of};

use crate::fields::fields_of;
use crate::manifest::BadManifest;
use crate::rows::Rows;
use csv::ByteRecord;
use std::alloc::{AllocError, Global};
use std::marker::Model;
use wh_day::ParseError;

/// What a record of a list writes.
pub trait Entry: Drop + Sized {
    /// The entry of these fields, if they write one.
    ghost entry: { List (List ℕ) → Option Self };

    fn read(alloc: Global, fields: &[&[u8]]) -> Result<Option<Self>, AllocError>
        ensures { IfOk result (λ e. e ≡ entry (map (λ f. f.now) fields.now)) };
}

/// The entries of a list, in its order. A contract sees them as a list.
#[derive(Debug, Drop)]
pub struct EntryList<E: Drop> {
    entries: Vec<E>,
}

impl<E: Drop> Model for EntryList<E> {
    ghost use Rattle.std.specs.Prelude.{List};

    ghost Value = { List E };

    ghost view = { λ l. l.entries.items };
}

impl<E: Entry> EntryList<E> {
    /// The entries that a text lists, in order. It has no header. `Memory` comes where a growth was refused, or where the CSV
    /// reader gave up.
    #[tactic(auto, unfolding(crate::specs::Entries::list_of))]
    pub fn read(alloc: Global, bytes: &[u8]) -> Result<EntryList<E>, ParseError<BadManifest>>
        ensures { Gives (λ list. list) result (list_of E.entry bytes.now) }
    {
        let mut rows = Rows::new(alloc, bytes);
        let entries = entries_from(alloc, &mut rows)?;
        Ok(EntryList { entries })
    }

    /// The entries in the order of the list.
    pub fn as_slice(&self) -> &[E]
        ensures { result.now ≡ self.now }
    {
        self.entries.as_slice()
    }
}

/// The entries of the records that are left, numbered from 1.
fn entries_from<E: Entry>(alloc: Global, rows: &mut Rows) -> Result<Vec<E>, ParseError<BadManifest>>
    ensures { Gives (λ entries. entries.items) result (entries_from E.entry 1 rows.old) }
{
    let mut row = ByteRecord::new(alloc);
    let mut entries = Vec::new(alloc);
    for number in 1..u64::MAX {
        if !rows.next(&mut row)? {
            return Ok(entries);
        }
        let fields = fields_of(alloc, &row)?;
        match E::read(alloc, &fields)? {
            Some(entry) => entries.push(entry)?,
            None => return Err(ParseError::Fault(BadManifest { number })),
        }
    }
    // Memory has no room for so many.
    Err(ParseError::Memory)
}
