//! Reading a table in the order of its keys, a part at a time.

ghost use Rattle.std.specs.Prelude.{◌≡◌, Option, IfOk};
ghost use Rattle.sqlite.specs.Listing.{understood};
ghost use Rattle.wh_policy.specs.declared.format.Format.{Format};
ghost use Rattle.wh_rows.specs.Names.{is_there};
ghost use Rattle.wh_rows.specs.Schema.{schema_in};
ghost use Rattle.wh_rows.specs.Meaning.{Means};
ghost use Rattle.wh_rows.specs.Raw.{ReadsFrontStored};
ghost use Rattle.wh_rows.specs.Parts.{PartTexts, forward, part_text, bind_part, stands_behind, is_behind, IsKeyed, StandsOnce};

use crate::keyed_table::KeyedTable;
use std::alloc::AllocError;

/// The texts that show a table part by part.
#[derive(Drop)]
pub struct PartStatements {
    /// Shows the first part.
    pub first: &'static str,
    /// Shows the part after a key.
    pub after: &'static str,
    /// The most rows of a part.
    pub most: usize,
}

/// A table that can be read in the order of its keys, a part at a time.
pub trait PagedTable: KeyedTable {
    ghost part_texts: { PartTexts };

    /// The texts that show its parts.
    fn part_statements() -> PartStatements
        ensures { (result.first.now ≡ part_texts.first) × (result.after.now ≡ part_texts.after) × (result.most ≡ part_texts.most) };

    /// The key at which the row stands. The error comes where memory ran out.
    fn key_of(row: &Self::Row) -> Result<Self::Key, AllocError>
        ensures { IfOk result (λ key. key ≡ Self.StoredTable.layout.key row.now) };

    // What the texts mean over any stored rows.
    ghost shows_parts: { (format : Format) (after : Option Self.Key) → Means (is_there Self.KeyedTable.name format)
        (ReadsFrontStored (schema_in format) (forward part_texts.most) Self.StoredTable.layout (bind_part Self.KeyedTable.bind after) (stands_behind Self.StoredTable.layout Self.KeyedTable.bind after) (is_behind Self.StoredTable.layout after) (part_text part_texts after))
        (understood (schema_in format) (part_text part_texts after)) };

    // A key is the first columns of a row, and at a key at most one row is stored.
    ghost keyed: { IsKeyed Self.StoredTable.layout Self.KeyedTable.bind Self.KeyedTable.stands_at };

    ghost once: { StandsOnce Self.KeyedTable.stands_at Self.KeyedTable.name };
}
