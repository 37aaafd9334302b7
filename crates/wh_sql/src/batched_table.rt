//! What the tables have in common into which many new rows are put at a time.

ghost use Rattle.std.specs.Prelude.{◌≡◌, ℕ, List};
ghost use Rattle.sqlite.specs.Listing.{understood};
ghost use Rattle.wh_policy.specs.declared.format.Format.{Format};
ghost use Rattle.wh_rows.specs.Names.{is_there};
ghost use Rattle.wh_rows.specs.Schema.{schema_in};
ghost use Rattle.wh_rows.specs.Inserting.{rows_at_once};
ghost use Rattle.wh_rows.specs.Meaning.{Means, InsertsEach};

use crate::paged_table::PagedTable;

/// A table to which a command can write many new rows.
pub trait BatchedTable: PagedTable {
    ghost insert_means: { List ℕ };

    /// The text that puts sixteen new rows in.
    fn insert_text() -> &'static str
        ensures { result.now ≡ insert_means };

    // What the text means where the table is there. In a format that hasn't the table it isn't understood.
    ghost inserts: { (format : Format) → Means (is_there Self.KeyedTable.name format) (InsertsEach (schema_in format) Self.StoredTable.layout rows_at_once insert_means) (understood (schema_in format) insert_means) };
}
