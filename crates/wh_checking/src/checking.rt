//! Whether what is stored is what its commands define: a second warehouse is sent them, and its tables are compared with those that are stored.

ghost use Rattle.std.specs.Prelude.{◌≡◌, List, false, Some, IfOk, IfErr};
ghost use Rattle.wh_history.specs.Accepted.{Accepted, format_of};
ghost use Rattle.wh_history.specs.Tables.{Limits as LimitCounts};
ghost use Rattle.wh_rows.specs.Tables.{Tables as TypedTables};
ghost use Rattle.wh_store.specs.Faithful.{RestsFaithfully};
ghost use Rattle.wh_sql.specs.Answers.{IsServed, NamesDamage};
ghost use Rattle.wh_admission.specs.Checked.{Covers, SaysCommands, stored_in};
ghost use Rattle.wh_checking.specs.Judged.{IsJudged};
ghost use Rattle.wh_checking.specs.Checked.{IsChecked, IsCheckedOf};
ghost use Rattle.wh_checking.specs.Replica.{HoldsAll};
ghost use Rattle.wh_checking.specs.Judging.{IsDefinedIn, IsOfDamageIn};
ghost use Rattle.wh_engine.specs.Scanned.{EngineReads, Reads, ReadsOnlyIn, SparesIn, WhenReady, WhenStored};

use crate::compare::holds_the_same;
use crate::meta::limits_said;
use crate::replica::replicated_tables;
use crate::verdict::Verdict;
use sqlite::Alter;
use std::alloc::Global;
use wh_engine::{Engine, Fault};
use wh_policy::Format;
use wh_rows::Table;
use wh_sql::{TableVisitor, for_table};
use wh_store::{PagedTable, ReadFault, Tables};

/// How many tables are judged by themselves before the others: meta and the commands.
const JUDGED_FIRST: usize = 2;

/// Compares a table of a format with its twin in the second warehouse.
#[derive(Drop)]
struct HoldsTheSame {
    format: Format,
}

impl<S: Alter, M: Alter> TableVisitor<Tables<S>, Tables<M>> for HoldsTheSame {
    ghost use Rattle.wh_checking.specs.Compared.{IsCompared};

    type Output = Result<bool, ReadFault>;

    ghost promises = { λ table of it old new before after result. IsCompared S.Store M.Store it.format table of old new before after result };

    fn visit<T: PagedTable>(
        &self,
        alloc: Global,
        tables: &mut Tables<S>,
        replica: &mut Tables<M>,
    ) -> Result<bool, ReadFault> {
        holds_the_same::<T, S, M>(tables, alloc, self.format, replica)
    }
}

/// Whether a table stores what the commands define whose tables the second warehouse holds, both of this format.
fn is_defined_in<S: Alter, M: Alter>(
    tables: &mut Tables<S>,
    alloc: Global,
    format: Format,
    replica: &mut Tables<M>,
    table: Table,
) -> Result<bool, ReadFault>
    ensures reads { ReadsOnlyIn S.Store tables.old tables.new result }
    ensures rests { (t : TypedTables) → RestsFaithfully M.Store (Some t) replica.old.conn → IfOk result (λ _. RestsFaithfully M.Store (Some t) replica.new.conn) }
    ensures defined { WhenStored S.Store tables.old tables.new (λ stored. Covers stored.format format → (limits : LimitCounts) (commands : List Accepted) → format ≡ format_of commands → HoldsAll M.Store limits commands replica.old → IfOk result (IsDefinedIn limits commands (stored_in format stored) table)) }
    ensures damaged { WhenStored S.Store tables.old tables.new (λ stored. IfErr result (IsOfDamageIn (stored_in format stored) table)) }
{
    for_table::<Tables<S>, Tables<M>, HoldsTheSame>(
        table,
        &HoldsTheSame { format },
        alloc,
        tables,
        replica,
    )
}

/// The first table after the commands that isn't what they define.
fn judge_tables<S: Alter, M: Alter>(
    tables: &mut Tables<S>,
    alloc: Global,
    format: Format,
    replica: &mut Tables<M>,
) -> Result<Verdict, ReadFault>
    ensures reads { ReadsOnlyIn S.Store tables.old tables.new result }
    ensures judged { WhenStored S.Store tables.old tables.new (λ stored. Covers stored.format format → (limits : LimitCounts) (commands : List Accepted) → HoldsAll M.Store limits commands replica.old → SaysCommands (stored_in format stored) limits commands → IsJudged (stored_in format stored) result) }
{
    'tables: for table in &Table::ALL[JUDGED_FIRST..] {
        if !is_defined_in(tables, alloc, format, replica, *table)? {
            return Ok(Verdict::Wrong(*table));
        }
    }
    Ok(Verdict::Clean)
}

/// What is found of the tables, which are of this format.
fn judge<S: Alter>(
    tables: &mut Tables<S>,
    alloc: Global,
    format: Format,
) -> Result<Verdict, ReadFault>
    ensures reads { SparesIn S.Store tables.old tables.new (IsServed result) }
    ensures judged { WhenStored S.Store tables.old tables.new (λ stored. Covers stored.format format → IsJudged (stored_in format stored) result) }
    ensures named { WhenStored S.Store tables.old tables.new (λ stored. IfErr result (NamesDamage stored)) }
{
    let Some(limits) = limits_said(tables, alloc, format)? else {
        return Ok(Verdict::Wrong(Table::Meta));
    };
    let Some(mut replica) = replicated_tables(tables, alloc, format, limits)? else {
        return Ok(Verdict::Wrong(Table::Command));
    };
    judge_tables(tables, alloc, format, &mut replica)
}

/// What is found of the tables, as by [`judge`], with its faults as those of the engine.
fn check_tables<S: Alter>(
    tables: &mut Tables<S>,
    alloc: Global,
    format: Format,
) -> Result<Verdict, Fault>
    ensures reads { Reads S.Store tables.old tables.new result }
    ensures checked { WhenStored S.Store tables.old tables.new (λ stored. Covers stored.format format → IsChecked (stored_in format stored) result) }
{
    let verdict = judge(tables, alloc, format)?;
    Ok(verdict)
}

/// A warehouse that is checked.
pub trait Check {
    /// Whether the tables are what their commands define: clean, or the first table that is wrong. `Damaged` names that table where it
    /// stores a row out of its type. Anybody may have written the rows. A second warehouse is made anew in memory for it, and dropped:
    /// `Memory` may come of that too. After a refusal of the database it answers `Reopen`.
    fn check(&mut self, alloc: Global) -> Result<Verdict, Fault>;
}

impl<S: Alter> Check for Engine<S> {
    fn check(&mut self, alloc: Global) -> Result<Verdict, Fault>
        ensures reads { EngineReads S.Store self.old self.new result }
        ensures checked { self.old.session.must_reopen ≡ false → WhenStored S.Store self.old.tables self.new.tables (λ stored. Covers stored.format self.old.session.format → IsChecked (stored_in self.old.session.format stored) result) }
        ensures sound { WhenReady S.Store self.old self.new (λ limits commands. IsCheckedOf limits commands result) }
    {
        if self.must_reopen() {
            return Err(Fault::Reopen);
        }
        let format = self.format();
        let verdict = check_tables(&mut self.tables, alloc, format);
        self.note(&verdict);
        verdict
    }
}
