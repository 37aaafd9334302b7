//! Reading the rows of a table, in the order of their keys.

ghost use Rattle.std.specs.Prelude.{◌≡◌, ◌≤◌, ℕ, List, ◌∷◌, ◌++◌, [], Some, MatchResult, IfOk, IfErr};
ghost use Rattle.std.specs.FinMap.{get, len};
ghost use Rattle.sqlite_sql.specs.Aggregate.{count as number_of};
ghost use Rattle.sqlite.specs.Held.{state};
ghost use Rattle.sqlite.specs.Order.{Row as Columns};
ghost use Rattle.sqlite.specs.Values.{bound};
ghost use Rattle.sqlite.specs.State.{HasCleanDisk, Survives, CommitsShowing};
ghost use Rattle.wh_rows.specs.Tables.{Tables as TypedTables};
ghost use Rattle.wh_rows.specs.AtRest.{IsAtRest};
ghost use Rattle.wh_rows.specs.Raw.{Stored, RestsOn};
ghost use Rattle.wh_sql.specs.Answers.{ListsRows, FindsRow, CountsRows};
ghost use Rattle.wh_sql.specs.Reads.{NeverReturns, ReadsOnly, NamesDamage, IsUndamaged, Shows, FailsToShow, AreRead};
ghost use Rattle.wh_sql.specs.declared.fault.ReadFault.TheVariants.{Memory, Store};
ghost use Rattle.wh_rows.specs.declared.cause.Cause.TheVariants.{Size};

use crate::at_rest::Tables;
use crate::fault::ReadFault;
use crate::keyed_table::KeyedTable;
use sqlite::types::ValueRef;
use sqlite::{Alter, Connection, Row};
use std::alloc::Global;
use wh_day::ParseError;
use wh_rows::{Cause, Table};

/// The rows that were read, and one more after them. `None`: one of these is out of its type.
pub(crate) fn read_on<T: KeyedTable>(
    alloc: Global,
    read: Option<Vec<T::Row>>,
    row: &Row,
) -> Result<Option<Vec<T::Row>>, ReadFault>
    ensures read { (rows : List Columns) → AreRead T.layout rows read → IfOk result (AreRead T.layout (rows ++ row.now ∷ [])) }
    ensures memory { IfErr result (λ fault. fault ≡ Memory) }
{
    let Some(mut rows) = read else {
        return Ok(None);
    };
    match T::read(alloc, row) {
        Ok(row) => {
            rows.push(row)?;
            Ok(Some(rows))
        }
        Err(ParseError::Memory) => Err(ReadFault::Memory),
        Err(ParseError::Fault(_)) => Ok(None),
    }
}

/// The rows of the table that a query shows, each read as the database hands it out, with what the connection says of them.
/// `Damaged` is answered at the end of all that is shown. `Memory`: also where there are more rows than a `u64` counts.
pub(crate) fn rows_shown<T: KeyedTable, S: Alter>(
    alloc: Global,
    conn: &mut Connection<S>,
    text: &str,
    params: &[ValueRef<'_>],
) -> Result<Vec<T::Row>, ReadFault>
    // It only reads: a write that shows rows is made before the first of them is handed out, and stands where the next is refused.
    requires { NeverReturns text.now }
    ensures shows { HasCleanDisk (state S.Store conn.new) → IfOk result (λ rows. Shows T.layout text.now (bound params.now) (state S.Store conn.old) (state S.Store conn.new) rows.items) }
    ensures refused { HasCleanDisk (state S.Store conn.new) → IfErr result (FailsToShow T.layout T.name text.now (bound params.now) (state S.Store conn.old) (state S.Store conn.new)) }
    // Nothing is out of its type where that is known of what is stored, and the table that is named as damaged is one where that is.
    ensures reads { NeverReturns text.now → (HasCleanDisk (state S.Store conn.new) → (t : TypedTables) → IsAtRest (Some t) (state S.Store conn.old) → IsUndamaged result)
        → (HasCleanDisk (state S.Store conn.new) → (stored : Stored) → RestsOn stored (state S.Store conn.old) → IfErr result (NamesDamage stored)) → ReadsOnly (state S.Store conn.old) (state S.Store conn.new) result }
    ensures survives { Survives (state S.Store conn.old) (state S.Store conn.new) (CommitsShowing text.now (bound params.now) (state S.Store conn.old)) }
{
    let mut shown = match conn.query(text, params) {
        Ok(shown) => shown,
        Err(error) => return Err(ReadFault::Store(Cause::from(error))),
    };
    let mut read = Some(Vec::new(alloc));
    'rows: for _ in 0..u64::MAX {
        if let Err(error) = shown.advance() {
            return Err(ReadFault::Store(Cause::from(error)));
        }
        match shown.get() {
            Some(row) => read = read_on::<T>(alloc, read, row)?,
            None => return read.ok_or(ReadFault::Damaged(T::table())),
        }
    }
    Err(ReadFault::Memory)
}

impl<S: Alter> Tables<S> {
    /// All rows of a table, in the order of their keys. `Damaged`: one of them is out of its type. `Store`: the format hasn't the table, or the database
    /// refused for another cause.
    pub fn all<T: KeyedTable>(&mut self, alloc: Global) -> Result<Vec<T::Row>, ReadFault>
        ensures { ListsRows S.Store self.old.conn self.new.conn T.name T.layout T.rows T.texts.all result }
    {
        rows_shown::<T, S>(alloc, &mut self.conn, T::statements().all, &[])
    }

    /// The row at a key, if one is there. `Damaged`: it is out of its type. `Store(Size)`: the key has a number that is greater than any that is stored.
    pub fn get<T: KeyedTable>(
        &mut self,
        alloc: Global,
        key: &T::Key,
    ) -> Result<Option<T::Row>, ReadFault>
        ensures { FindsRow S.Store self.old.conn self.new.conn T.name T.layout (λ t. get (T.rows t) key.now) T.stands_at T.bind T.texts.get key.now result }
    {
        let values = T::key(alloc, key)?;
        let mut rows = rows_shown::<T, S>(alloc, &mut self.conn, T::statements().get, &values)?;
        Ok(rows.pop())
    }

    /// How many rows a table has. `Store(Size)`: more than the database counts.
    pub fn count<T: KeyedTable>(&mut self, alloc: Global) -> Result<u64, ReadFault>
        ensures { CountsRows S.Store self.old.conn self.new.conn T.name (λ t. len (T.rows t)) T.texts.count result }
    {
        let shown = match self.conn.query_all(T::statements().count, &[]) {
            Ok(shown) => shown,
            Err(error) => return Err(ReadFault::Store(Cause::from(error))),
        };
        count_shown(T::table(), &shown)
    }
}

/// The number that a query shows in its only row. `Size`: the database counts no further.
fn count_shown(table: Table, shown: &[Row]) -> Result<u64, ReadFault>
    ensures { (rows : ℕ) → shown.now ≡ (number_of rows ∷ []) ∷ [] → MatchResult result (λ count. count ≡ rows) (λ refusal. (refusal ≡ Store Size) × (9223372036854775807 ≤ rows)) }
{
    let Some(row) = shown.first() else {
        return Err(ReadFault::Damaged(table));
    };
    match row.get_ref(0) {
        Ok(ValueRef::Int(i64::MAX)) => Err(ReadFault::Store(Cause::Size)),
        Ok(ValueRef::Int(count)) if 0 <= count => Ok(count as u64),
        _ => Err(ReadFault::Damaged(table)),
    }
}
