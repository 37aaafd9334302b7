//! The rows of a table, one at a time.

ghost use Rattle.std.specs.Prelude.{◌≡◌, List, [], ◌-◌, false, Ok, None, Option, option_map, slice_get, length, IsTrue, IfSome, IfOk, OnErr};
ghost use Rattle.std.specs.FinMap.{FinMap, values};
ghost use Rattle.std.specs.Vec.Iter.{into_iter_items};
ghost use Rattle.wh_rows.specs.Holds.{Layout};
ghost use Rattle.wh_rows.specs.Tables.{Tables as TypedTables};
ghost use Rattle.wh_rows.specs.Parts.{IsArranged};
ghost use Rattle.wh_rows.specs.Raw.{Stored};
ghost use Rattle.sqlite.specs.Order.{Row as Columns};
ghost use Rattle.wh_sql.specs.Page.{HasKey};
ghost use Rattle.wh_sql.specs.Answers.{SaysAsStoredIn, ReadsOnlyIn, WhenAtRest, WhenStored};
ghost use Rattle.wh_store.specs.Scan.{rows_left, IsOver, AreLeft, AreValid, FailsToShowPart, IsOfDamagedPart, ScansOn};

use sqlite::Alter;
use std::alloc::{AllocError, Global};
use std::vec::IntoIter;
use wh_policy::Format;
use wh_sql::{Page, PagedTable, ReadFault, Tables, is_in};

/// How far a scan of a table has come.
#[derive(Drop)]
pub struct Cursor<K, R> {
    /// The rows that were read and are not handed out yet.
    ahead: IntoIter<R>,
    /// The part of the table after them.
    unread: Page<K>,
    /// That part is empty, or a fault came.
    is_over: bool,
}

impl<K: Drop, R: Drop> Cursor<K, R> {
    /// Before the first row of a table.
    pub fn new(alloc: Global) -> Cursor<K, R>
        ensures none { into_iter_items result.ahead ≡ [] }
        ensures all { result.unread.after ≡ None }
        ensures more { result.is_over ≡ false }
        ensures left { (layout : Layout K R) (rows : FinMap layout.order R) → rows_left layout rows result ≡ values rows }
        ensures left_stored { (layout : Layout K R) (bind : K → Columns) (stored left : List Columns) → AreLeft layout bind stored result left → IsArranged layout.table stored left }
    {
        Cursor {
            ahead: Vec::new(alloc).into_iter(),
            unread: Page { after: None },
            is_over: false,
        }
    }
}

/// The key of the last of these rows.
fn last_key<T: PagedTable>(rows: &[T::Row]) -> Result<Option<T::Key>, AllocError>
    ensures { IfOk result (λ key. key ≡ option_map T.StoredTable.layout.key (slice_get rows.now (length rows.now - 1))) }
{
    match rows.last() {
        Some(row) => Ok(Some(T::key_of(row)?)),
        None => Ok(None),
    }
}

/// Reads the next part of the table ahead.
fn read_ahead<T: PagedTable, S: Alter>(
    tables: &mut Tables<S>,
    alloc: Global,
    cursor: &mut Cursor<T::Key, T::Row>,
) -> Result<(), ReadFault>
    ensures reads { ReadsOnlyIn S.Store tables.old tables.new result }
    ensures rows { WhenAtRest S.Store tables.old tables.new (λ t. IfOk result (λ _. cursor.old.is_over ≡ false → into_iter_items cursor.old.ahead ≡ [] → rows_left T.StoredTable.layout (T.StoredTable.rows t) cursor.new ≡ rows_left T.StoredTable.layout (T.StoredTable.rows t) cursor.old)) }
    // Of any stored rows none is missed and none comes twice.
    ensures stored { WhenStored S.Store tables.old tables.new (λ stored. IfOk result (λ _. cursor.old.is_over ≡ false → into_iter_items cursor.old.ahead ≡ [] → (left : List Columns)
        → AreLeft T.StoredTable.layout T.KeyedTable.bind (stored.rows T.KeyedTable.name) cursor.new left → AreLeft T.StoredTable.layout T.KeyedTable.bind (stored.rows T.KeyedTable.name) cursor.old left)) }
    // A row of the part that is damaged is reported.
    ensures damaged { IsOfDamagedPart S.Store T.StoredTable.layout T.KeyedTable.name T.part_texts T.KeyedTable.bind cursor.old.unread.after tables.old tables.new result }
    ensures refused { FailsToShowPart S.Store T.StoredTable.layout T.KeyedTable.name T.part_texts T.KeyedTable.bind cursor.old.unread.after tables.old tables.new result }
    ensures keyed { WhenStored S.Store tables.old tables.new (λ _. IfOk result (λ _. HasKey T.StoredTable.layout cursor.new.unread.after)) }
    // All that is read ahead is of its type.
    ensures valid { WhenStored S.Store tables.old tables.new (λ _. IfOk result (λ _. AreValid T.StoredTable.layout cursor.new)) }
    // Nothing is read ahead only where nothing is left.
    ensures short { IfOk result (λ _. into_iter_items cursor.new.ahead ≡ [] → IsTrue cursor.new.is_over) }
    ensures ended { into_iter_items cursor.old.ahead ≡ [] → OnErr result (IsOver cursor.new) }
{
    cursor.is_over = true;
    let rows = tables.ask::<T, Page<T::Key>>(alloc, &cursor.unread)?;
    let after = last_key::<T>(&rows)?;
    let is_over = rows.len() < T::part_statements().most;
    cursor.ahead = rows.into_iter();
    cursor.unread = Page { after };
    cursor.is_over = is_over;
    Ok(())
}

/// The next row of the table after those that the cursor handed out. `Damaged`: a row of the part that is read with it is out of its type. After a
/// fault none comes, and of a table that the format hasn't none is asked.
pub fn next_row<T: PagedTable, S: Alter>(
    tables: &mut Tables<S>,
    alloc: Global,
    format: Format,
    cursor: &mut Cursor<T::Key, T::Row>,
) -> Result<Option<T::Row>, ReadFault>
    ensures next { ScansOn S.Store T.KeyedTable.name T.StoredTable.layout T.StoredTable.rows T.part_texts T.KeyedTable.bind format tables.old tables.new cursor.old cursor.new result }
    // What is handed out is of its type.
    ensures valid { SaysAsStoredIn S.Store T.KeyedTable.name format tables.old tables.new (λ _. AreValid T.StoredTable.layout cursor.old → IfOk result (λ found. IfSome found (λ row. IsTrue (T.StoredTable.layout.is_valid row)) × AreValid T.StoredTable.layout cursor.new)) }
{
    if let Some(row) = cursor.ahead.next() {
        return Ok(Some(row));
    }
    if cursor.is_over {
        return Ok(None);
    }
    if !is_in(T::table(), format) {
        return Ok(None);
    }
    read_ahead::<T, S>(tables, alloc, cursor)?;
    Ok(cursor.ahead.next())
}

/// The rows of a table in the order of their keys, one at a time. The tables belong to it until it is dropped, and it leaves
/// them as they are.
#[derive(Drop)]
pub struct Scan<'t, S: Alter, T: PagedTable> {
    tables: &'t mut Tables<S>,
    /// The format that they are of.
    format: Format,
    cursor: Cursor<T::Key, T::Row>,
}

impl<'t, S: Alter, T: PagedTable> Scan<'t, S, T> {
    /// Before the first row of a table of these tables, which are of the format.
    pub fn new(tables: &'t mut Tables<S>, alloc: Global, format: Format) -> Scan<'t, S, T>
        ensures same_reference { result.tables.ghost_name ≡ tables.entry.ghost_name }
        ensures same { result.tables.now ≡ tables.old }
        ensures format { result.format ≡ format }
        ensures left { (t : TypedTables) → rows_left T.StoredTable.layout (T.StoredTable.rows t) result.cursor ≡ values (T.StoredTable.rows t) }
        ensures left_stored { (stored : Stored) (left : List Columns) → AreLeft T.StoredTable.layout T.KeyedTable.bind (stored.rows T.KeyedTable.name) result.cursor left → IsArranged T.StoredTable.layout.table (stored.rows T.KeyedTable.name) left }
    {
        Scan {
            tables,
            format,
            cursor: Cursor::new(alloc),
        }
    }

    /// The next row. `Damaged`: a row of the part that is read with it is out of its type. After a fault none comes.
    pub fn next_row(&mut self, alloc: Global) -> Result<Option<T::Row>, ReadFault>
        ensures same_reference { self.new.tables.ghost_name ≡ self.old.tables.ghost_name }
        ensures same_format { self.new.format ≡ self.old.format }
        ensures next { ScansOn S.Store T.KeyedTable.name T.StoredTable.layout T.StoredTable.rows T.part_texts T.KeyedTable.bind self.old.format self.old.tables.now self.new.tables.now self.old.cursor self.new.cursor result }
    {
        next_row::<T, S>(self.tables, alloc, self.format, &mut self.cursor)
    }
}
