//! The tables of a new warehouse.

ghost use Rattle.std.specs.Prelude.{◌≡◌, ◌≢◌, ◌+◌, ◌≤◌, pos, false, None, Some, IfOk, IfErr, OnOk, IsTrue, ⊤};
ghost use Rattle.sqlite.specs.State.{HasCleanDisk};
ghost use Rattle.wh_rows.specs.AtRest.{IsWriting, Leaves};
ghost use Rattle.wh_rows.specs.declared.cause.Cause.TheVariants.{Memory};
ghost use Rattle.wh_rows.specs.Rows.{encode_meta};
ghost use Rattle.wh_rows.specs.Texts as texts;
ghost use Rattle.wh_rows.specs.Types.{is_number};
ghost use Rattle.wh_sql.specs.Answers.{state_of};
ghost use Rattle.wh_sql.specs.Making.{made_with, with_number, making};
ghost use Rattle.wh_sql.specs.Writes.{NotesRefusals, TellsRefused, MakesEdit};

use crate::schema::create_tables;
use crate::writing::Writing;
use sqlite::Alter;
use std::alloc::Global;
use std::mem::replace;
use wh_day::Value;
use wh_rows::tables::Meta;
use wh_rows::{Cause, Limits, MetaRow};

/// A row of meta.
fn row(alloc: Global, name: &str, count: u64) -> Result<MetaRow, Cause>
    ensures ok { IfOk result (λ row. row ≡ record { name = name.now; value = pos count }) }
    ensures err { IfErr result (λ cause. cause ≢ Memory → is_number count ≡ false) }
{
    let name = Value::new(alloc, name)?;
    match i64::try_from(count) {
        Ok(value) => Ok(MetaRow { name, value }),
        Err(_) => Err(Cause::Size),
    }
}

impl<'t, S: Alter> Writing<'t, S> {
    /// Makes the ten tables of format 1, and the rows of meta for that format and these limits.
    pub fn init(&mut self, alloc: Global, limits: Limits) -> Result<(), Cause>
        ensures same_reference { self.new.tables.ghost_name ≡ self.old.tables.ghost_name }
        ensures clean { HasCleanDisk (state_of S.Store self.new.tables.now) → HasCleanDisk (state_of S.Store self.old.tables.now) }
        ensures counts { (state_of S.Store self.old.tables.now).faults ≤ (state_of S.Store self.new.tables.now).faults }
        ensures made { HasCleanDisk (state_of S.Store self.new.tables.now) → IsWriting None None (state_of S.Store self.old.tables.now) → OnOk result (IsWriting None (Some (made_with limits)) (state_of S.Store self.new.tables.now)) }
        ensures left { HasCleanDisk (state_of S.Store self.new.tables.now) → IsWriting None None (state_of S.Store self.old.tables.now) → Leaves None (state_of S.Store self.new.tables.now) }
        ensures cause { HasCleanDisk (state_of S.Store self.new.tables.now) → IsWriting None None (state_of S.Store self.old.tables.now) → self.old.writes + 4 ≤ u64.MAX
            → TellsRefused S.Store (making limits) self.old.tables.now self.new.tables.now result }
        ensures counted { OnOk result (self.new.writes ≡ self.old.writes + 4) }
        ensures noted { NotesRefusals self.old.refused self.new.refused result }
    {
        let refused = replace(&mut self.refused, true);
        create_tables(&mut self.tables.conn)?;
        self.refused = refused;
        self.put_number(alloc, "changes_max", limits.changes())?;
        self.put_number(alloc, "commands_max", limits.commands())?;
        self.put_number(alloc, "facts_max", limits.facts())?;
        self.put_number(alloc, "format", 1)
    }

    /// Puts a number into meta under its name.
    fn put_number(&mut self, alloc: Global, name: &str, count: u64) -> Result<(), Cause>
        ensures { MakesEdit S.Store self.old self.new result ⊤ (λ made. with_number name.now (pos count) made) (texts.meta.put, encode_meta (record { name = name.now; value = pos count })) (IsTrue (is_number count)) }
    {
        let refused = replace(&mut self.refused, true);
        let row = row(alloc, name, count)?;
        self.refused = refused;
        self.put::<Meta>(alloc, &row)
    }
}
