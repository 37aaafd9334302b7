//! The stored rows of a table against those of a second warehouse, whose store never fails to tell what was written.

ghost use Rattle.std.specs.Prelude.{◌≡◌, true, Some, IfOk, IfErr, OnOk};
ghost use Rattle.std.specs.FinMap.{get};
ghost use Rattle.wh_rows.specs.Names.{is_there};
ghost use Rattle.wh_rows.specs.Tables.{Tables as TypedTables};
ghost use Rattle.wh_sql.specs.Reads.{IsOfDamage};
ghost use Rattle.wh_store.specs.Faithful.{RestsFaithfully};
ghost use Rattle.wh_sql.specs.Answers.{ReadsOnlyIn, WhenStored};
ghost use Rattle.wh_store.specs.Scan.{rows_left, HandsOut};
ghost use Rattle.wh_admission.specs.Checked.{stored_in};
ghost use Rattle.wh_checking.specs.Compared.{IsNext, IsEnd, AreRowsOrNot};

use crate::alike::are_alike;
use sqlite::Alter;
use std::alloc::{AllocError, Global};
use wh_policy::Format;
use wh_sql::is_in;
use wh_store::{Cursor, PagedTable, ReadFault, Tables, next_row};

/// The next row of the second warehouse.
fn next_expected<T: PagedTable, M: Alter>(
    expected: &mut Tables<M>,
    alloc: Global,
    format: Format,
    ahead: &mut Cursor<T::Key, T::Row>,
) -> Result<Option<T::Row>, AllocError>
    ensures rests { (t : TypedTables) → RestsFaithfully M.Store (Some t) expected.old.conn → OnOk result (RestsFaithfully M.Store (Some t) expected.new.conn) }
    ensures row { (t : TypedTables) → is_there T.KeyedTable.name t.format ≡ is_there T.KeyedTable.name format → RestsFaithfully M.Store (Some t) expected.old.conn
        → IfOk result (λ found. HandsOut (rows_left T.StoredTable.layout (T.StoredTable.rows t) ahead.old) found (rows_left T.StoredTable.layout (T.StoredTable.rows t) ahead.new)) }
{
    match next_row::<T, M>(expected, alloc, format, ahead) {
        Ok(found) => Ok(found),
        Err(_) => Err(AllocError),
    }
}

/// Whether the next row of the second warehouse stands in the same columns as this one.
fn is_next<T: PagedTable, M: Alter>(
    expected: &mut Tables<M>,
    alloc: Global,
    format: Format,
    ahead: &mut Cursor<T::Key, T::Row>,
    row: &T::Row,
) -> Result<bool, AllocError>
    ensures rests { (t : TypedTables) → RestsFaithfully M.Store (Some t) expected.old.conn → OnOk result (RestsFaithfully M.Store (Some t) expected.new.conn) }
    ensures next { (t : TypedTables) → is_there T.KeyedTable.name t.format ≡ is_there T.KeyedTable.name format → RestsFaithfully M.Store (Some t) expected.old.conn
        → IfOk result (IsNext T.StoredTable.layout (rows_left T.StoredTable.layout (T.StoredTable.rows t) ahead.old) row.now (rows_left T.StoredTable.layout (T.StoredTable.rows t) ahead.new)) }
{
    match next_expected::<T, M>(expected, alloc, format, ahead)? {
        Some(there) => are_alike::<T>(alloc, &there, row),
        None => Ok(false),
    }
}

/// Whether the second warehouse has no further row.
fn is_end<T: PagedTable, M: Alter>(
    expected: &mut Tables<M>,
    alloc: Global,
    format: Format,
    ahead: &mut Cursor<T::Key, T::Row>,
) -> Result<bool, AllocError>
    ensures rests { (t : TypedTables) → RestsFaithfully M.Store (Some t) expected.old.conn → OnOk result (RestsFaithfully M.Store (Some t) expected.new.conn) }
    ensures end { (t : TypedTables) → is_there T.KeyedTable.name t.format ≡ is_there T.KeyedTable.name format → RestsFaithfully M.Store (Some t) expected.old.conn → IfOk result (IsEnd (rows_left T.StoredTable.layout (T.StoredTable.rows t) ahead.old)) }
{
    let found = next_expected::<T, M>(expected, alloc, format, ahead)?;
    Ok(found.is_none())
}

/// Whether a table that the format has stores what the same table of the second warehouse holds, and nothing else. Both are read a part at a time,
/// what is stored to its end, so that a damaged row is met wherever it stands.
pub(crate) fn has_the_same_rows<T: PagedTable, S: Alter, M: Alter>(
    tables: &mut Tables<S>,
    alloc: Global,
    format: Format,
    expected: &mut Tables<M>,
) -> Result<bool, ReadFault>
    ensures reads { ReadsOnlyIn S.Store tables.old tables.new result }
    ensures rests { (t : TypedTables) → RestsFaithfully M.Store (Some t) expected.old.conn → OnOk result (RestsFaithfully M.Store (Some t) expected.new.conn) }
    ensures same { WhenStored S.Store tables.old tables.new (λ stored. is_there T.KeyedTable.name stored.format ≡ is_there T.KeyedTable.name format → (t : TypedTables) → is_there T.KeyedTable.name t.format ≡ is_there T.KeyedTable.name format
        → RestsFaithfully M.Store (Some t) expected.old.conn → IfOk result (AreRowsOrNot T.StoredTable.layout (get (T.StoredTable.rows t)) (stored.rows T.KeyedTable.name))) }
    ensures damaged { WhenStored S.Store tables.old tables.new (λ stored. IfErr result (IsOfDamage T.StoredTable.layout T.KeyedTable.name (stored.rows T.KeyedTable.name))) }
{
    let mut cursor = Cursor::new(alloc);
    let mut ahead = Cursor::new(alloc);
    let mut same = true;
    'rows: for _ in 0..u64::MAX {
        match next_row::<T, S>(tables, alloc, format, &mut cursor)? {
            Some(row) => {
                if same {
                    same = is_next::<T, M>(expected, alloc, format, &mut ahead, &row)?;
                }
            }
            None => {
                if !same {
                    return Ok(false);
                }
                let end = is_end::<T, M>(expected, alloc, format, &mut ahead)?;
                return Ok(end);
            }
        }
    }
    Err(ReadFault::Memory)
}

/// Whether a table of a format stores what the same table of the second warehouse holds, and nothing else. A table that the format hasn't is empty,
/// whatever stands under its name. `Damaged`: the table stores a damaged row. `Memory` and `Store`: as reading has them.
pub(crate) fn holds_the_same<T: PagedTable, S: Alter, M: Alter>(
    tables: &mut Tables<S>,
    alloc: Global,
    format: Format,
    expected: &mut Tables<M>,
) -> Result<bool, ReadFault>
    ensures reads { ReadsOnlyIn S.Store tables.old tables.new result }
    ensures rests { (t : TypedTables) → RestsFaithfully M.Store (Some t) expected.old.conn → OnOk result (RestsFaithfully M.Store (Some t) expected.new.conn) }
    ensures same { WhenStored S.Store tables.old tables.new (λ stored. (is_there T.KeyedTable.name format ≡ true → is_there T.KeyedTable.name stored.format ≡ true) → (t : TypedTables) → is_there T.KeyedTable.name t.format ≡ is_there T.KeyedTable.name format
        → RestsFaithfully M.Store (Some t) expected.old.conn → IfOk result (AreRowsOrNot T.StoredTable.layout (get (T.StoredTable.rows t)) ((stored_in format stored).rows T.KeyedTable.name))) }
    ensures damaged { WhenStored S.Store tables.old tables.new (λ stored. IfErr result (IsOfDamage T.StoredTable.layout T.KeyedTable.name ((stored_in format stored).rows T.KeyedTable.name))) }
{
    if !is_in(T::table(), format) {
        return Ok(true);
    }
    has_the_same_rows::<T, S, M>(tables, alloc, format, expected)
}
