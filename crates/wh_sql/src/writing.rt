//! Edits that are kept together, or not at all.

ghost use Rattle.std.specs.Prelude.{◌≡◌, ◌⊎◌, ◌+◌, ◌<◌, ◌≤◌, [], codes, map, Option, Some, IsTrue, IsErr, IfOk, IfErr, OnOk, length, ⊤, false, Err, if◌then◌else◌};
ghost use Rattle.std.specs.FinMap.{empty, insert, len, remove};
ghost use Rattle.std.specs.List.{AllByRecursion};
ghost use Rattle.sqlite.specs.State.{HasCleanDisk, Survives};
ghost use Rattle.wh_rows.specs.declared.cause.Cause.TheVariants.{Disk, Size};
ghost use Rattle.wh_rows.specs.Texts as texts;
ghost use Rattle.wh_rows.specs.AtRest.{AreTrees, IsAtRest, IsWriting, Leaves, IsCauseOf};
ghost use Rattle.wh_rows.specs.Tables.{Tables as TypedTables};
ghost use Rattle.wh_rows.specs.Facts.{facts_in, with_facts_in};
ghost use Rattle.wh_rows.specs.Inserting.{bind_rows};
ghost use Rattle.wh_rows.specs.Rekey.{bind_rekey, are_keys, rekeyed};
ghost use Rattle.wh_rows.specs.Steps.{with_row, with_rows, after_all};
ghost use Rattle.wh_policy.specs.declared.format.Format.TheVariants.{One, Two};
ghost use Rattle.wh_rows.specs.Making.{upgrading_texts};
ghost use Rattle.wh_sql.specs.Facts.{rekeying};
ghost use Rattle.wh_sql.specs.Refused.{IsOneRefused, bare};
ghost use Rattle.wh_sql.specs.Answers.{state_of};
ghost use Rattle.wh_sql.specs.Writes.{WritesOnly, NotesRefusals, Undoes, MakesEdit, MakesEdits, InsertsRows};
ghost use Rattle.wh_sql.specs.Edits.{with_edit, IsValid, Puts, IsOfTypes, AreOfTypes, statement_of};

use crate::at_rest::Tables;
use crate::batched_table::BatchedTable;
use crate::insert::{bind_rows, insert_sixteen};
use crate::keyed_table::KeyedTable;
use crate::keys::bind_rekey;
use crate::schema::add_format2_tables;
use crate::transaction::{commit, roll_back};
use crate::write::{execute, rekeying};
use sqlite::Alter;
use std::alloc::Global;
use std::mem::replace;
use wh_history::{Edit, FactKeys};
use wh_policy::Format;
use wh_rows::{Cause, LineKey};

/// Edits of the tables. They are kept by `commit` alone: where it is dropped before that, it leaves nothing. After a call with an error it keeps
/// nothing either. The error is the cause for which the database refused, or `Size` where more keys are written than a `u64` counts.
pub struct Writing<'t, S: Alter> {
    pub(crate) tables: &'t mut Tables<S>,
    /// How many keys it has written.
    writes: u64,
    /// Whether a write of it was refused. Such a write may have been made in part, so that nothing is kept then.
    pub(crate) refused: bool,
}

impl<'t, S: Alter> Writing<'t, S> {
    pub(crate) fn new(tables: &'t mut Tables<S>) -> Writing<'t, S>
        ensures same_reference { result.tables.ghost_name ≡ tables.entry.ghost_name }
        ensures same { result.tables.now ≡ tables.old }
        ensures counted { result.writes ≡ 0 }
        ensures fresh { result.refused ≡ false }
    {
        Writing {
            tables,
            writes: 0,
            refused: false,
        }
    }

    /// How many keys it has written.
    pub fn writes(&self) -> u64
        ensures { result ≡ self.now.writes }
    {
        self.writes
    }

    /// How many keys it will have written after some more.
    fn and(&self, keys: u64) -> Result<u64, Cause>
        ensures more { IfOk result (λ writes. writes ≡ self.now.writes + keys) }
        ensures full { IfErr result (λ cause. (cause ≡ Size) × (u64.MAX < self.now.writes + keys)) }
    {
        match self.writes.checked_add(keys) {
            Some(writes) => Ok(writes),
            None => Err(Cause::Size),
        }
    }

    /// How many keys it has written after a statement of several, which wrote all of them or none.
    fn now_written(&self, inserted: bool, writes: u64) -> u64
        ensures { result ≡ (if inserted then writes else self.now.writes) }
    {
        if inserted { writes } else { self.writes }
    }

    /// Puts the row at its key, in place of the one that was there. `Size`: a number of it is greater than any that can be stored.
    pub fn put<T: KeyedTable>(&mut self, alloc: Global, row: &T::Row) -> Result<(), Cause>
        ensures { MakesEdit S.Store self.old self.new result (IsValid T.layout row.now) (λ made. T.with_rows (insert (T.rows made) (T.layout.key row.now) row.now) made) (T.texts.put, T.layout.encode row.now) (IsValid T.layout row.now) }
    {
        let refused = replace(&mut self.refused, true);
        let writes = self.and(1)?;
        let values = T::row(alloc, row)?;
        execute(&mut self.tables.conn, T::statements().put, &values)?;
        self.writes = writes;
        self.refused = refused;
        Ok(())
    }

    /// Takes out the row at the key, if one is there. It counts as a written key all the same.
    pub fn remove<T: KeyedTable>(&mut self, alloc: Global, key: &T::Key) -> Result<(), Cause>
        ensures { MakesEdit S.Store self.old self.new result ⊤ (λ made. T.with_rows (remove (T.rows made) key.now) made) (T.texts.remove, T.bind key.now) ((row : T.Row) × IsTrue (T.layout.is_valid row) × (T.layout.key row ≡ key.now)) }
    {
        let refused = replace(&mut self.refused, true);
        let writes = self.and(1)?;
        let values = T::key(alloc, key)?;
        execute(&mut self.tables.conn, T::statements().remove, &values)?;
        self.writes = writes;
        self.refused = refused;
        Ok(())
    }

    /// Gives the fact of a line other keys, if it is there; its other columns stay.
    pub fn rekey_fact(
        &mut self,
        alloc: Global,
        format: Format,
        line: &LineKey,
        keys: &FactKeys,
    ) -> Result<(), Cause>
        ensures { MakesEdit S.Store self.old self.new result (IsTrue (are_keys keys.now)) (λ made. with_facts_in format (rekeyed (line.now, keys.now) (facts_in format made)) made) (rekeying format, bind_rekey (line.now, keys.now)) (IsTrue (are_keys keys.now)) }
    {
        let refused = replace(&mut self.refused, true);
        let writes = self.and(1)?;
        let values = bind_rekey(alloc, line, keys)?;
        execute(&mut self.tables.conn, rekeying(format), &values)?;
        self.writes = writes;
        self.refused = refused;
        Ok(())
    }

    /// Takes out all facts of the first format, and answers how many there were.
    pub fn clear_facts(&mut self) -> Result<u64, Cause>
        ensures same_reference { self.new.tables.ghost_name ≡ self.old.tables.ghost_name }
        ensures writes { WritesOnly (state_of S.Store self.old.tables.now) (state_of S.Store self.new.tables.now) ⊤ }
        ensures cleared { HasCleanDisk (state_of S.Store self.new.tables.now) → (before : Option TypedTables) (made : TypedTables) → IsWriting before (Some made) (state_of S.Store self.old.tables.now)
            → IfOk result (λ count. (count ≡ len made.fact) × IsWriting before (Some (record made { fact = empty })) (state_of S.Store self.new.tables.now)) }
        ensures cause { HasCleanDisk (state_of S.Store self.new.tables.now) → (before : Option TypedTables) (made : TypedTables) → IsWriting before (Some made) (state_of S.Store self.old.tables.now) → self.old.writes + len made.fact ≤ u64.MAX
            → IfErr result (IsCauseOf texts.clear_facts [] (state_of S.Store self.old.tables.now) (state_of S.Store self.new.tables.now)) }
        ensures counted { IfOk result (λ count. self.new.writes ≡ self.old.writes + count) }
        ensures late { self.old.tables.now.conn.in_transaction ≡ false → IsErr result × (self.new.tables.now.conn ≡ self.old.tables.now.conn) }
        ensures noted { NotesRefusals self.old.refused self.new.refused result }
    {
        let refused = replace(&mut self.refused, true);
        let count = execute(&mut self.tables.conn, "DELETE FROM fact", &[])?;
        self.writes = self.and(count as u64)?;
        self.refused = refused;
        Ok(count as u64)
    }

    /// Puts rows in that aren't there yet, sixteen in one statement. Where there are not sixteen of them, or they break a rule of the schema, as where
    /// one of their keys is taken, also by another of them, nothing changes, and the answer is false.
    pub fn insert_new<T: BatchedTable>(
        &mut self,
        alloc: Global,
        rows: &[&T::Row],
    ) -> Result<bool, Cause>
        ensures { InsertsRows S.Store self.old self.new result (AllByRecursion (IsValid T.layout) (map (λ r. r.now) rows.now)) (λ made. T.with_rows (with_rows T.layout (map (λ r. r.now) rows.now) (T.rows made)) made) (length rows.now) (T.insert_means, bind_rows T.layout (map (λ r. r.now) rows.now)) }
    {
        let refused = replace(&mut self.refused, true);
        let writes = self.and(rows.len() as u64)?;
        let values = bind_rows::<T>(alloc, rows);
        let inserted = insert_sixteen(&mut self.tables.conn, T::insert_text(), rows.len(), values)?;
        self.writes = self.now_written(inserted, writes);
        self.refused = refused;
        Ok(inserted)
    }

    /// Puts rows at their keys, one after the other.
    pub fn put_all<T: KeyedTable>(&mut self, alloc: Global, rows: &[T::Row]) -> Result<(), Cause>
        ensures { MakesEdits S.Store self.old self.new result (AllByRecursion (IsValid T.layout) rows.now) (λ made. T.with_rows (after_all (with_row T.layout) rows.now (T.rows made)) made) (length rows.now) (map (λ row. (T.texts.put, T.layout.encode row)) rows.now) ⊤ }
    {
        for row in rows {
            self.put::<T>(alloc, row)?;
        }
        Ok(())
    }

    /// Makes one edit.
    pub fn edit<T: KeyedTable>(
        &mut self,
        alloc: Global,
        edit: &Edit<T::Row, T::Key>,
    ) -> Result<(), Cause>
        ensures { MakesEdit S.Store self.old self.new result (Puts (IsValid T.layout) edit.now) (λ made. T.with_rows (with_edit T.layout edit.now (T.rows made)) made) (statement_of T.layout T.texts T.bind edit.now) (IsOfTypes T.layout edit.now) }
    {
        match edit {
            Edit::Put(row) => self.put::<T>(alloc, row),
            Edit::Remove(key) => self.remove::<T>(alloc, key),
        }
    }

    /// Makes edits, one after the other.
    pub fn edit_all<T: KeyedTable>(
        &mut self,
        alloc: Global,
        edits: &[Edit<T::Row, T::Key>],
    ) -> Result<(), Cause>
        ensures { MakesEdits S.Store self.old self.new result (AllByRecursion (Puts (IsValid T.layout)) edits.now) (λ made. T.with_rows (after_all (with_edit T.layout) edits.now (T.rows made)) made) (length edits.now) (map (statement_of T.layout T.texts T.bind) edits.now) (AreOfTypes T.layout edits.now) }
    {
        for edit in edits {
            self.edit::<T>(alloc, edit)?;
        }
        Ok(())
    }

    /// Makes the tables of the second format over a warehouse of the first. All rows stay, and the new tables have none.
    pub fn add_format2_tables(&mut self) -> Result<(), Cause>
        ensures same_reference { self.new.tables.ghost_name ≡ self.old.tables.ghost_name }
        ensures clean { HasCleanDisk (state_of S.Store self.new.tables.now) → HasCleanDisk (state_of S.Store self.old.tables.now) }
        ensures counts { (state_of S.Store self.old.tables.now).faults ≤ (state_of S.Store self.new.tables.now).faults }
        ensures added { HasCleanDisk (state_of S.Store self.new.tables.now) → (before : Option TypedTables) (made : TypedTables) → made.format ≡ One → IsWriting before (Some made) (state_of S.Store self.old.tables.now)
            → OnOk result (IsWriting before (Some (record made { format = Two })) (state_of S.Store self.new.tables.now)) }
        ensures left { HasCleanDisk (state_of S.Store self.new.tables.now) → (before : Option TypedTables) (made : TypedTables) → made.format ≡ One → IsWriting before (Some made) (state_of S.Store self.old.tables.now) → Leaves before (state_of S.Store self.new.tables.now) }
        ensures cause { HasCleanDisk (state_of S.Store self.new.tables.now) → IsTrue (state_of S.Store self.old.tables.now).in_transaction
            → IfErr result (IsOneRefused S.Store IsCauseOf (bare upgrading_texts) self.old.tables.now.conn self.new.tables.now.conn) }
        // No key of a table is written.
        ensures counted { OnOk result (self.new.writes ≡ self.old.writes) }
        ensures noted { NotesRefusals self.old.refused self.new.refused result }
    {
        let refused = replace(&mut self.refused, true);
        add_format2_tables(&mut self.tables.conn)?;
        self.refused = refused;
        Ok(())
    }

    /// Keeps the edits, and answers how many keys they wrote. Where one of them was refused, it keeps none, also of those that were made, and the
    /// error is `Disk`.
    pub fn commit(self) -> Result<u64, Cause>
        ensures clean { HasCleanDisk (state_of S.Store self.exit.0.now) → HasCleanDisk (state_of S.Store self.entry.tables.now) }
        ensures cause { HasCleanDisk (state_of S.Store self.exit.0.now) → self.entry.refused ≡ false → IfErr result (IsCauseOf (codes "COMMIT") [] (state_of S.Store self.entry.tables.now) (state_of S.Store self.exit.0.now)) }
        ensures written { HasCleanDisk (state_of S.Store self.exit.0.now) → (before made : Option TypedTables) → IsWriting before made (state_of S.Store self.entry.tables.now) → OnOk result (IsAtRest made (state_of S.Store self.exit.0.now)) }
        ensures left { HasCleanDisk (state_of S.Store self.exit.0.now) → (before made : Option TypedTables) → IsWriting before made (state_of S.Store self.entry.tables.now)
            → (trees : _) → (state_of S.Store self.exit.0.now).may_leave trees → AreTrees before trees ⊎ AreTrees made trees }
        ensures nothing { IsTrue self.entry.refused → (result ≡ Err Disk) × Undoes (state_of S.Store self.entry.tables.now) (state_of S.Store self.exit.0.now) }
        ensures counted { IfOk result (λ writes. writes ≡ self.entry.writes) }
    {
        let Writing {
            tables,
            writes,
            refused,
        } = self;
        if refused {
            roll_back(&mut tables.conn);
            return Err(Cause::Disk);
        }
        commit(&mut tables.conn)?;
        Ok(writes)
    }
}

impl<S: Alter> Drop for Writing<'_, S> {
    fn drop(self)
        ensures clean { HasCleanDisk (state_of S.Store self.exit.0.now) → HasCleanDisk (state_of S.Store self.entry.tables.now) }
        ensures undone { HasCleanDisk (state_of S.Store self.exit.0.now) → (before made : Option TypedTables) → IsWriting before made (state_of S.Store self.entry.tables.now)
            → IsTrue (state_of S.Store self.exit.0.now).is_open → IsAtRest before (state_of S.Store self.exit.0.now) }
        ensures left { HasCleanDisk (state_of S.Store self.exit.0.now) → (before made : Option TypedTables) → IsWriting before made (state_of S.Store self.entry.tables.now) → Leaves before (state_of S.Store self.exit.0.now) }
        ensures survives { Survives (state_of S.Store self.entry.tables.now) (state_of S.Store self.exit.0.now) (λ _. ⊥) }
    {
        let Writing {
            tables,
            writes: _,
            refused: _,
        } = self;
        roll_back(&mut tables.conn);
    }
}
