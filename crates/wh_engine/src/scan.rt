//! The rows of a warehouse's table, one at a time.

ghost use Rattle.std.specs.Prelude.{◌≡◌, ◌||◌, List, false, IsTrue, IfOk, IfErr, MatchResult};
ghost use Rattle.std.specs.Borrow.{sem, RestsIfErr};
ghost use Rattle.std.specs.FinMap.{values};
ghost use Rattle.sqlite.specs.Order.{Row as Columns};
ghost use Rattle.wh_rows.specs.Parts.{IsArranged};
ghost use Rattle.wh_rows.specs.Raw.{Stored};
ghost use Rattle.wh_rows.specs.Tables.{Tables as TypedTables};
ghost use Rattle.wh_store.specs.Scan.{rows_left, AreLeft};
ghost use Rattle.wh_engine.specs.Faults.{IsWorkedOut};
ghost use Rattle.wh_engine.specs.Handed.{HandsNext, Ends};
ghost use Rattle.wh_engine.specs.Scanned.{EngineReads, EngineReadsThrough, IsServing, IsWanting, Reads, WhenAtRest, WhenReady};

use crate::engine::Engine;
use crate::fault::{Fault, stops};
use crate::session::Session;
use sqlite::Alter;
use std::alloc::Global;
use wh_policy::Format;
use wh_store::{Cursor, PagedTable, Tables, next_row};

/// The next row of a table of a format. After a fault none comes.
fn row_after<T: PagedTable, S: Alter>(
    tables: &mut Tables<S>,
    alloc: Global,
    format: Format,
    cursor: &mut Cursor<T::Key, T::Row>,
) -> Result<Option<T::Row>, Fault>
    ensures reads { Reads S.Store tables.old tables.new result }
    // The row is the next of any that the table stores, and of its type.
    ensures hands { HandsNext S.Store T.KeyedTable.name T.StoredTable.layout T.KeyedTable.bind T.StoredTable.rows format tables.old tables.new cursor.old cursor.new result }
    ensures sound { WhenAtRest S.Store tables.old tables.new (λ _. IfErr result IsWanting) }
    ensures ends { Ends tables.old tables.new cursor.old cursor.new result }
{
    let found = next_row::<T, S>(tables, alloc, format, cursor)?;
    Ok(found)
}

/// Notes that the database refused a call, or leaves what was noted before.
pub(crate) fn note(session: &mut Session, is_stopped: bool)
    ensures { session.new ≡ record (session.old) { must_reopen = session.old.must_reopen || is_stopped } }
{
    if is_stopped {
        session.must_reopen = true;
    }
}

/// The rows of a table in the order of their keys, one at a time. The engine belongs to it until it is dropped, no transaction is
/// open, and the tables stay as they are.
#[derive(Drop)]
pub struct Scan<'e, S: Alter, T: PagedTable> {
    engine: &'e mut Engine<S>,
    cursor: Cursor<T::Key, T::Row>,
}

impl<'e, S: Alter, T: PagedTable> Scan<'e, S, T> {
    /// The next row. `Damaged`: a row of the part that is read with it is out of its type. After a fault none comes; after a refusal of the
    /// store the engine has to be opened again.
    pub fn next_row(&mut self, alloc: Global) -> Result<Option<T::Row>, Fault>
        ensures same_reference { self.new.engine.ghost_name ≡ self.old.engine.ghost_name }
        ensures reads { EngineReadsThrough S.Store self.old.engine.now self.new.engine.now result }
        // The row is the next of any that the table stores, and of its type.
        ensures hands { HandsNext S.Store T.KeyedTable.name T.StoredTable.layout T.KeyedTable.bind T.StoredTable.rows self.old.engine.now.session.format self.old.engine.now.tables self.new.engine.now.tables self.old.cursor self.new.cursor result }
        ensures ends { Ends self.old.engine.now.tables self.new.engine.now.tables self.old.cursor self.new.cursor result }
        ensures writes { self.new.engine.now.writes ≡ self.old.engine.now.writes }
        ensures work { IsWorkedOut result }
    {
        self.engine.advance::<T>(alloc, &mut self.cursor)
    }
}

impl<S: Alter> Engine<S> {
    ghost use Rattle.wh_engine.specs.contracts.engine.Engine.{the_row};

    /// The next row of a table. After a fault none comes, and after a refusal of the database the engine has to be opened again.
    fn advance<T: PagedTable>(
        &mut self,
        alloc: Global,
        cursor: &mut Cursor<T::Key, T::Row>,
    ) -> Result<Option<T::Row>, Fault>
        ensures reads { EngineReadsThrough S.Store self.old self.new result }
        // The row is the next of any that the table stores, and of its type.
        ensures hands { HandsNext S.Store T.KeyedTable.name T.StoredTable.layout T.KeyedTable.bind T.StoredTable.rows self.old.session.format self.old.tables self.new.tables cursor.old cursor.new result }
        ensures ends { Ends self.old.tables self.new.tables cursor.old cursor.new result }
        ensures writes { self.new.writes ≡ self.old.writes }
        ensures work { IsWorkedOut result }
    {
        let found = row_after::<T, S>(&mut self.tables, alloc, self.session.format, cursor);
        note(&mut self.session, stops(&found));
        found
    }

    /// The next row of a table after those that the cursor handed out; of a new cursor the first. It is for a reader that goes
    /// through several tables, or hands the engine on between two rows. `Damaged`: a row of the part that is read with it is out of its type.
    /// After a refusal of the database it answers `Reopen`, and after another fault no row comes any more.
    pub fn next_row<T: PagedTable>(
        &mut self,
        alloc: Global,
        cursor: &mut Cursor<T::Key, T::Row>,
    ) -> Result<Option<T::Row>, Fault>
        ensures reads { EngineReads S.Store self.old self.new result }
        ensures serves { WhenReady S.Store self.old self.new (λ limits commands. IsServing limits commands result) }
        // The row is the next of any that the table stores, and of its type.
        ensures hands { HandsNext S.Store T.KeyedTable.name T.StoredTable.layout T.KeyedTable.bind T.StoredTable.rows self.old.session.format self.old.tables self.new.tables cursor.old cursor.new result }
        ensures unread { IsTrue self.old.session.must_reopen → cursor.new ≡ cursor.old }
        ensures ends { self.old.session.must_reopen ≡ false → Ends self.old.tables self.new.tables cursor.old cursor.new result }
    {
        if !self.session.must_reopen {
            return self.advance::<T>(alloc, cursor);
        }
        Err(Fault::Reopen)
    }

    /// The rows of a table in the order of their keys, one at a time. After a refusal of the database it answers `Reopen`.
    pub fn scan<T: PagedTable>(&mut self, alloc: Global) -> Result<Scan<'_, S, T>, Fault>
        ensures* refused { sem 𝓛 (RestsIfErr (the_row S.row S.Store) self.entry (λ scan. scan.engine.ghost_name) result (λ last. (last.tables ≡ self.old.tables) × (last.session ≡ self.old.session) × (last.writes ≡ self.old.writes))) }
        ensures same_reference { IfOk result (λ scan. scan.engine.ghost_name ≡ self.entry.ghost_name) }
        ensures same { IfOk result (λ scan. scan.engine.now ≡ self.old) }
        ensures left { IfOk result (λ scan. (t : TypedTables) → rows_left T.StoredTable.layout (T.StoredTable.rows t) scan.cursor ≡ values (T.StoredTable.rows t)) }
        ensures left_stored { IfOk result (λ scan. (stored : Stored) (left : List Columns) → AreLeft T.StoredTable.layout T.KeyedTable.bind (stored.rows T.KeyedTable.name) scan.cursor left → IsArranged T.StoredTable.layout.table (stored.rows T.KeyedTable.name) left) }
        // It is refused exactly where the engine has to be opened again.
        ensures reopen { MatchResult result (λ _. self.old.session.must_reopen ≡ false) (λ fault. (fault ≡ Fault.Reopen) × IsTrue self.old.session.must_reopen) }
    {
        if self.session.must_reopen {
            return Err(Fault::Reopen);
        }
        Ok(Scan {
            engine: self,
            cursor: Cursor::new(alloc),
        })
    }
}
