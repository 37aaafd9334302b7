//! What is done alike with each of the tables.

ghost use Rattle.wh_rows.specs.declared.table.Table.{Table};
ghost use Rattle.wh_sql.specs.Described.{Described, as_described};

use crate::paged_table::PagedTable;
use std::alloc::Global;

/// What is done with a table, whichever it is, over two things that it may change.
pub trait TableVisitor<A, B> {
    type Output;

    // What it does of a table: under its name and description, of the visitor, of both things before and after, and of the answer.
    ghost promises: { Table → Described → Self → A → A → B → B → Self.Output → Type 0 };

    /// Does it with a table.
    fn visit<T: PagedTable>(&self, alloc: Global, first: &mut A, second: &mut B) -> Self::Output
        ensures { promises T.KeyedTable.name (as_described T.StoredTable.layout T.StoredTable.rows) self.now first.old first.new second.old second.new result };
}
