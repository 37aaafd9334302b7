//! What the tables have in common: rows that stand at keys.

ghost use Rattle.std.specs.Prelude.{◌≡◌, ◌≢◌, Bool, true, false, IfOk, IfErr};
ghost use Rattle.sqlite.specs.Order.{Row as Columns};
ghost use Rattle.sqlite.specs.Values.{bound};
ghost use Rattle.wh_rows.specs.declared.cause.Cause.TheVariants.{Memory, Size};
ghost use Rattle.wh_rows.specs.declared.table.Table.{Table};
ghost use Rattle.wh_rows.specs.Texts.{Texts};
ghost use Rattle.wh_rows.specs.Keyed.{IsKeyed};
ghost use Rattle.wh_rows.specs.Names.{is_there};

use sqlite::types::ValueRef;
use std::alloc::Global;
use wh_policy::Format;
use wh_rows::{Cause, StoredTable, Table};

/// Whether a warehouse of the format has the table.
pub fn is_in(table: Table, format: Format) -> bool
    ensures { result ≡ is_there table format }
{
    match table {
        Table::Fact2 | Table::Void => matches!(format, Format::Two),
        _ => true,
    }
}

/// The texts of a table's statements.
#[derive(Drop)]
pub struct Statements {
    /// Puts a row, in place of one at its key.
    pub put: &'static str,
    /// Removes the row of a key.
    pub remove: &'static str,
    /// Shows all rows in the order of their keys.
    pub all: &'static str,
    /// Shows the row of a key.
    pub get: &'static str,
    /// Counts the rows.
    pub count: &'static str,
}

/// One of the tables, with the texts of its statements.
pub trait KeyedTable: StoredTable {
    // A key as the parameters of a statement.
    ghost bind: { Self.Key → Columns };

    ghost name: { Table };

    // Which of any stored rows stand at a key.
    ghost stands_at: { Self.Key → Columns → Bool };

    ghost texts: { Texts };

    /// Which table it is.
    fn table() -> Table
        ensures { result ≡ name };

    /// The texts of its statements.
    fn statements() -> Statements
        ensures { (result.put.now ≡ texts.put) × (result.remove.now ≡ texts.remove) × (result.all.now ≡ texts.all) × (result.get.now ≡ texts.get) × (result.count.now ≡ texts.count) };

    /// The row as the parameters of a statement. `Size`: a number is greater than any that can be stored. `Memory`: a growth was refused.
    fn row<'a>(alloc: Global, row: &'a Self::Row) -> Result<Vec<ValueRef<'a>>, Cause>
        ensures ok { IfOk result (λ values. bound values.items ≡ Self.layout.encode row.now) }
        ensures err { IfErr result (λ cause. cause ≢ Memory → (cause ≡ Size) × (Self.layout.is_valid row.now ≡ false)) };

    /// The key as the parameters of a statement. `Size` and `Memory`: as of a row.
    fn key<'a>(alloc: Global, key: &'a Self::Key) -> Result<Vec<ValueRef<'a>>, Cause>
        ensures ok { IfOk result (λ values. bound values.items ≡ bind key.now) }
        ensures err { IfErr result (λ cause. cause ≢ Memory → (cause ≡ Size) × ((row : Self.Row) → Self.layout.is_valid row ≡ true → Self.layout.key row ≢ key.now)) };

    // What its texts mean, and what its columns are.
    ghost means: { IsKeyed Self.layout Self.rows Self.with_rows name bind stands_at texts };
}
