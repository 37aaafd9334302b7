//! Questions about one table, each with the rows that answer it.

ghost use Rattle.std.specs.Prelude.{◌≡◌, ◌≢◌, ℕ, Bool, List, Option, IfOk, IfErr};
ghost use Rattle.sqlite.specs.Order.{Row as Columns};
ghost use Rattle.sqlite.specs.Values.{bound};
ghost use Rattle.wh_rows.specs.declared.cause.Cause.TheVariants.{Memory, Size};
ghost use Rattle.sqlite.specs.Listing.{understood};
ghost use Rattle.wh_policy.specs.declared.format.Format.{Format};
ghost use Rattle.wh_rows.specs.Names.{is_there};
ghost use Rattle.wh_rows.specs.Schema.{schema_in};
ghost use Rattle.wh_rows.specs.Meaning.{Means};
ghost use Rattle.wh_rows.specs.Firsts.{Front, ReadsPart};
ghost use Rattle.wh_rows.specs.Raw.{ReadsPartStored};
ghost use Rattle.wh_sql.specs.Answers.{AsksRows};

use crate::at_rest::Tables;
use crate::fault::ReadFault;
use crate::keyed_table::KeyedTable;
use crate::read::rows_shown;
use sqlite::Alter;
use sqlite::types::ValueRef;
use std::alloc::Global;
use wh_rows::Cause;

/// A question about the rows of one table.
pub trait Question<T: KeyedTable> {
    // Which rows of the table answer it, and which part of them is asked for, in the order of their keys.
    ghost keep: { Self → T.Row → Bool };

    ghost front: { Option Front };

    // Which of any stored rows answer it.
    ghost stands: { Self → Columns → Bool };

    // What it asks for as the parameters of a statement, and whether it can be asked.
    ghost bind: { Self → Columns };

    ghost can_be_asked: { Self → Type 0 };

    ghost means: { Self → List ℕ };

    /// The text of its statement.
    fn text(&self) -> &'static str
        ensures { result.now ≡ means self.now };

    /// What is asked for, as the parameters of a statement. `Size`: a number is greater than any that is stored. `Memory`: a growth was refused.
    fn values<'a>(&'a self, alloc: Global) -> Result<Vec<ValueRef<'a>>, Cause>
        ensures ok { IfOk result (λ values. bound values.items ≡ bind self.now) }
        ensures err { IfErr result (λ cause. cause ≢ Memory → (cause ≡ Size) × ¬ can_be_asked self.now) };

    // What the text means.
    ghost reads: { (format : Format) (question : Self) → Means (is_there T.name format) (ReadsPart (schema_in format) front T.layout (bind question) (keep question) (means question)) (understood (schema_in format) (means question)) };

    ghost reads_stored: { (format : Format) (question : Self) → Means (is_there T.name format) (ReadsPartStored (schema_in format) front T.layout (bind question) (stands question) (keep question) (means question)) (understood (schema_in format) (means question)) };
}

impl<S: Alter> Tables<S> {
    /// The rows that answer a question about one table, in the order of their keys. `Damaged`: one of them is out of its type. `Store(Size)`: the
    /// question has a number that is greater than any that is stored.
    pub fn ask<T: KeyedTable, Q: Question<T>>(
        &mut self,
        alloc: Global,
        question: &Q,
    ) -> Result<Vec<T::Row>, ReadFault>
        ensures { AsksRows S.Store self.old.conn self.new.conn T.name T.layout T.rows Q.front (Q.keep question.now) (Q.stands question.now) (Q.means question.now) (Q.bind question.now) (Q.can_be_asked question.now) result }
    {
        let values = question.values(alloc)?;
        rows_shown::<T, S>(alloc, &mut self.conn, question.text(), &values)
    }
}
