//! Edits that are made in parts: sixteen new rows in one statement, all others one by one.

ghost use Rattle.std.specs.Prelude.{◌≡◌, map, length, Some, IfOk};
ghost use Rattle.std.specs.List.{AllByRecursion};
ghost use Rattle.wh_history.specs.declared.plan.Edit.TheVariants.{Put};
ghost use Rattle.wh_rows.specs.Steps.{after_all};
ghost use Rattle.wh_sql.specs.Writes.{MakesEdits};
ghost use Rattle.wh_sql.specs.Edits.{with_edit, IsValid, Puts, AreOfTypes, part_statements, statements_in_parts};

use crate::batched_table::BatchedTable;
use crate::insert::ROWS_AT_ONCE;
use crate::writing::Writing;
use sqlite::Alter;
use std::alloc::{AllocError, Global};
use wh_history::Edit;
use wh_rows::Cause;

/// The rows of edits that each put one, or none where one of them doesn't.
fn new_rows<'e, R: Drop, K: Drop>(
    alloc: Global,
    edits: &'e [Edit<R, K>],
) -> Result<Option<Vec<&'e R>>, AllocError>
    ensures { IfOk result (λ put. (rows : _) → put ≡ Some rows → edits.now ≡ map Put (map (λ r. r.now) rows.items)) }
{
    let mut rows = Vec::new(alloc);
    for edit in edits {
        match edit {
            Edit::Put(row) => rows.push(row)?,
            Edit::Remove(_) => return Ok(None),
        }
    }
    Ok(Some(rows))
}

impl<'t, S: Alter> Writing<'t, S> {
    /// Makes a part of some edits, in one statement where they put sixteen new rows.
    fn edit_part<T: BatchedTable>(
        &mut self,
        alloc: Global,
        edits: &[Edit<T::Row, T::Key>],
    ) -> Result<(), Cause>
        ensures { MakesEdits S.Store self.old self.new result (AllByRecursion (Puts (IsValid T.layout)) edits.now) (λ made. T.with_rows (after_all (with_edit T.layout) edits.now (T.rows made)) made) (length edits.now) (part_statements T.layout T.texts T.bind T.insert_means edits.now) (AreOfTypes T.layout edits.now) }
    {
        let Ok(Some(rows)) = new_rows(alloc, edits) else {
            return self.edit_all::<T>(alloc, edits);
        };
        if self.insert_new::<T>(alloc, &rows)? {
            return Ok(());
        }
        self.edit_all::<T>(alloc, edits)
    }

    /// Makes edits, one part of sixteen after the other: where they put new rows, in one statement.
    pub fn edit_in_parts<T: BatchedTable>(
        &mut self,
        alloc: Global,
        edits: &[Edit<T::Row, T::Key>],
    ) -> Result<(), Cause>
        ensures { MakesEdits S.Store self.old self.new result (AllByRecursion (Puts (IsValid T.layout)) edits.now) (λ made. T.with_rows (after_all (with_edit T.layout) edits.now (T.rows made)) made) (length edits.now) (statements_in_parts T.layout T.texts T.bind T.insert_means edits.now) (AreOfTypes T.layout edits.now) }
    {
        for part in edits.chunks(ROWS_AT_ONCE) {
            self.edit_part::<T>(alloc, part)?;
        }
        Ok(())
    }
}
