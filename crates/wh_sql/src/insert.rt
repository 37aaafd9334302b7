//! Writing sixteen rows of a table at once, inside a transaction.

ghost use Rattle.std.specs.Prelude.{◌≡◌, ◌≢◌, ◌≤◌, ◌⊎◌, ◌++◌, false, map, Err, IsTrue, IfOk, IfErr};
ghost use Rattle.std.specs.List.{list_all};
ghost use Rattle.sqlite.specs.Held.{state};
ghost use Rattle.sqlite.specs.Order.{Row as Columns};
ghost use Rattle.sqlite.specs.State.{HasCleanDisk, Survives, CommitsBy};
ghost use Rattle.sqlite.specs.Values.{bound};
ghost use Rattle.wh_rows.specs.declared.cause.Cause.TheVariants.{Memory, Disk, Size};
ghost use Rattle.wh_rows.specs.Inserting.{rows_at_once, bind_rows, is_broken_rule};
ghost use Rattle.wh_rows.specs.AtRest.{IsCauseOf};
ghost use Rattle.wh_sql.specs.Batches.{HasRun, IsNotPut};

use crate::keyed_table::KeyedTable;
use sqlite::types::ValueRef;
use sqlite::{Alter, Connection, ErrorCode};
use std::alloc::Global;
use wh_rows::Cause;

/// How many rows one statement puts in.
pub const ROWS_AT_ONCE: usize = 16;

/// Whether the error says that a statement breaks a rule of the schema, as that no two rows have one key.
fn is_broken_rule(error: &sqlite::Error) -> bool
    ensures { result ≡ is_broken_rule error.now }
{
    matches!(
        error,
        sqlite::Error::SqliteFailure(ErrorCode::ConstraintViolation(_))
    )
}

/// Puts the values of one row after those that are there.
fn append<'a>(values: &mut Vec<ValueRef<'a>>, row: Vec<ValueRef<'a>>) -> Result<(), Cause>
    ensures ok { IfOk result (λ _. bound values.new.items ≡ bound values.old.items ++ bound row.entry.items) }
    ensures err { IfErr result (λ cause. cause ≡ Memory) }
{
    let mut row = row;
    values.append(&mut row)?;
    Ok(())
}

/// Rows as the parameters of a statement, one after the other.
pub(crate) fn bind_rows<'a, T: KeyedTable>(
    alloc: Global,
    rows: &[&'a T::Row],
) -> Result<Vec<ValueRef<'a>>, Cause>
    ensures ok { IfOk result (λ values. bound values.items ≡ bind_rows T.layout (map (λ r. r.now) rows.now)) }
    ensures err { IfErr result (λ cause. cause ≢ Memory → (cause ≡ Size) × (list_all T.layout.is_valid (map (λ r. r.now) rows.now) ≡ false)) }
{
    let mut values = Vec::new(alloc);
    for row in rows {
        let columns = T::row(alloc, row)?;
        append(&mut values, columns)?;
    }
    Ok(values)
}

/// Runs a text that puts sixteen rows in, with the values of their columns. Where so many aren't meant, or a rule is broken, nothing changes, and
/// the answer is false.
pub(crate) fn insert_sixteen<S: Alter>(
    conn: &mut Connection<S>,
    text: &str,
    count: usize,
    values: Result<Vec<ValueRef<'_>>, Cause>,
) -> Result<bool, Cause>
    ensures clean { HasCleanDisk (state S.Store conn.new) → HasCleanDisk (state S.Store conn.old) }
    ensures counts { (state S.Store conn.old).faults ≤ (state S.Store conn.new).faults }
    ensures survives { (params : Columns) → IfOk values.entry (λ values. bound values.items ≡ params) → Survives (state S.Store conn.old) (state S.Store conn.new) (CommitsBy text.now params (state S.Store conn.old)) }
    ensures put { HasCleanDisk (state S.Store conn.new) → (params : Columns) → IfOk values.entry (λ values. bound values.items ≡ params)
        → IfOk result (λ put. IsTrue put → HasRun text.now params (state S.Store conn.old) (state S.Store conn.new)) }
    ensures refused { HasCleanDisk (state S.Store conn.new) → (params : Columns) → IfOk values.entry (λ values. bound values.items ≡ params)
        → IfOk result (λ put. put ≡ false → IsNotPut text.now params count (conn.new ≡ conn.old) (state S.Store conn.old) (state S.Store conn.new)) }
    ensures sixteen { IfOk result (λ put. IsTrue put → count ≡ rows_at_once) }
    ensures cause { HasCleanDisk (state S.Store conn.new) → IsTrue (state S.Store conn.old).in_transaction → (params : Columns) → IfOk values.entry (λ values. bound values.items ≡ params)
        → IfErr result (λ cause. cause ≢ Memory → (values.entry ≡ Err cause) ⊎ IsCauseOf text.now params (state S.Store conn.old) (state S.Store conn.new) cause) }
    ensures late { conn.old.in_transaction ≡ false → (result ≡ Err Disk) × (conn.new ≡ conn.old) }
{
    if conn.is_autocommit() {
        return Err(Cause::Disk);
    }
    if count != ROWS_AT_ONCE {
        return Ok(false);
    }
    let columns = values?;
    match conn.execute(text, &columns) {
        Ok(_) => Ok(true),
        Err(error) => {
            if is_broken_rule(&error) {
                Ok(false)
            } else {
                Err(Cause::from(error))
            }
        }
    }
}
