//! The facts of a format: in format 1 they stand in the table `fact`, in format 2 in `fact2`.
//!
//! Over tables of the first format the database refuses statements on `fact2`, which isn't there. Over tables of the second a call for the first goes to
//! `fact`, which an upgrade leaves empty.

ghost use Rattle.std.specs.Prelude.{◌≡◌, map, length};
ghost use Rattle.std.specs.List.{AllByRecursion};
ghost use Rattle.std.specs.FinMap.{get, len, values};
ghost use Rattle.wh_rows.specs.Facts.{facts_in, with_facts_in, facts_table, fact_layout};
ghost use Rattle.wh_rows.specs.Inserting.{bind_rows};
ghost use Rattle.wh_rows.specs.Keys.{bind_line, stands_at_line};
ghost use Rattle.wh_rows.specs.Rows as row;
ghost use Rattle.wh_rows.specs.Steps.{with_rows};
ghost use Rattle.wh_sql.specs.Answers.{FindsRow, CountsRows};
ghost use Rattle.wh_sql.specs.Edits.{with_edit, statement_of, IsOfTypes, IsValid, Puts};
ghost use Rattle.wh_sql.specs.FactTexts.{fact_texts, since_asked, inserting};
ghost use Rattle.wh_sql.specs.Picked.{PicksSales};
ghost use Rattle.wh_sql.specs.Writes.{MakesEdit, InsertsRows};

use crate::at_rest::Tables;
use crate::fault::ReadFault;
use crate::picked::{SomeMembers, facts_of_members};
use crate::writing::Writing;
use sqlite::Alter;
use std::alloc::Global;
use wh_day::Day;
use wh_history::{Edit, Fact};
use wh_policy::{Dim, Format};
use wh_rows::{Cause, LineKey, Table, tables};

/// The table of the facts of a format.
pub fn facts_table(format: Format) -> Table
    ensures { result ≡ facts_table format }
{
    match format {
        Format::One => Table::Fact,
        Format::Two => Table::Fact2,
    }
}

impl<S: Alter> Tables<S> {
    /// The fact of a line, if it is there. `Damaged`: it is out of its type.
    pub fn fact(
        &mut self,
        alloc: Global,
        format: Format,
        line: &LineKey,
    ) -> Result<Option<Fact>, ReadFault>
        ensures { FindsRow S.Store self.old.conn self.new.conn (facts_table format) (fact_layout format) (λ t. get (facts_in format t) line.now) stands_at_line bind_line (fact_texts format).get line.now result }
    {
        match format {
            Format::One => self.get::<tables::Fact>(alloc, line),
            Format::Two => self.get::<tables::Fact2>(alloc, line),
        }
    }

    /// How many facts of the format there are: sales that stand, as withdrawn ones have no row. `Store(Size)`: more than the database counts.
    pub fn count_facts(&mut self, alloc: Global, format: Format) -> Result<u64, ReadFault>
        ensures { CountsRows S.Store self.old.conn self.new.conn (facts_table format) (λ t. len (facts_in format t)) (fact_texts format).count result }
    {
        match format {
            Format::One => self.count::<tables::Fact>(alloc),
            Format::Two => self.count::<tables::Fact2>(alloc),
        }
    }

    /// The facts of some members of a dimension on their days, of which none is before `from`, in whatever order they are stored. One pass over all
    /// facts finds them. `Damaged`: one of them is out of its type.
    pub fn facts_of_members<M: SomeMembers>(
        &mut self,
        alloc: Global,
        format: Format,
        dim: Dim,
        members: &M,
        from: Day,
    ) -> Result<Vec<Fact>, ReadFault>
        ensures { PicksSales S.Store self.old.conn self.new.conn (fact_layout format) (facts_table format) (λ t. values (facts_in format t)) (λ fact. fact) (M.among members.now) dim from (since_asked format) result }
    {
        match format {
            Format::One => {
                facts_of_members::<tables::Fact, M, S>(alloc, &mut self.conn, dim, members, from)
            }
            Format::Two => {
                facts_of_members::<tables::Fact2, M, S>(alloc, &mut self.conn, dim, members, from)
            }
        }
    }
}

impl<'t, S: Alter> Writing<'t, S> {
    /// Makes one edit of a fact. `Size`: a number or the discount is greater than any that can be stored.
    pub fn edit_fact(
        &mut self,
        alloc: Global,
        format: Format,
        edit: &Edit<Fact, LineKey>,
    ) -> Result<(), Cause>
        ensures { MakesEdit S.Store self.old self.new result (Puts (IsValid (fact_layout format)) edit.now) (λ made. with_facts_in format (with_edit row.fact edit.now (facts_in format made)) made) (statement_of (fact_layout format) (fact_texts format) bind_line edit.now) (IsOfTypes (fact_layout format) edit.now) }
    {
        match format {
            Format::One => self.edit::<tables::Fact>(alloc, edit),
            Format::Two => self.edit::<tables::Fact2>(alloc, edit),
        }
    }

    /// Puts facts of a format in that aren't there yet, sixteen in one statement. Where there are not sixteen of them, or one of their lines is taken,
    /// also by another of them, nothing changes, and the answer is false.
    pub fn insert_new_facts(
        &mut self,
        alloc: Global,
        format: Format,
        facts: &[&Fact],
    ) -> Result<bool, Cause>
        ensures { InsertsRows S.Store self.old self.new result (AllByRecursion (IsValid (fact_layout format)) (map (λ f. f.now) facts.now)) (λ made. with_facts_in format (with_rows row.fact (map (λ f. f.now) facts.now) (facts_in format made)) made) (length facts.now) (inserting format, bind_rows (fact_layout format) (map (λ f. f.now) facts.now)) }
    {
        match format {
            Format::One => self.insert_new::<tables::Fact>(alloc, facts),
            Format::Two => self.insert_new::<tables::Fact2>(alloc, facts),
        }
    }
}
