//! What a command would write.

ghost use Rattle.std.specs.Prelude.{IfOk};
ghost use Rattle.wh_engine.specs.Answered.{IsForeseen, IsForetold, IsPlannedAgain};
ghost use Rattle.wh_sql.specs.Answers.{is_second_taken, state_of};
ghost use Rattle.wh_engine.specs.Faults.{TellsTaken};
ghost use Rattle.wh_engine.specs.Scanned.{EngineReads, Reads, WhenReady, WhenReadyOn, WhenStored};

use crate::decision::{Decision, decide};
use crate::engine::Engine;
use crate::fault::{Fault, stops};
use crate::session::Session;
use sqlite::Alter;
use std::alloc::Global;
use wh_admission::Command;
use wh_plan::Edits;
use wh_store::Tables;

/// The edits of what is decided about a command.
fn foretell<S: Alter>(
    tables: &mut Tables<S>,
    alloc: Global,
    session: &Session,
    command: &Command,
) -> Result<Edits, Fault>
    ensures reads { Reads S.Store tables.old tables.new result }
    ensures foretold { WhenReadyOn S.Store tables.old tables.new session.now session.now (λ limits commands. IsForeseen limits commands command.now result) }
    ensures again { WhenStored S.Store tables.old tables.new (λ stored. IfOk result (IsPlannedAgain stored command.now)) }
{
    match decide(tables, alloc, session, command) {
        Ok(Decision::Repeat(_)) => Ok(Edits::none(alloc)),
        Ok(Decision::Accept(_, edits, _)) => Ok(edits),
        Err(fault) => Err(fault),
    }
}

impl<S: Alter> Engine<S> {
    /// What a command would write, were it sent now: its edits of all tables, and none where it is the same as an accepted one.
    /// It is refused as `apply` would refuse it, by `Refused`, `Damaged`, `Memory` or `Store`. Nothing is written. After a refusal of the database it answers
    /// `Reopen`.
    pub fn plan(&mut self, alloc: Global, command: &Command) -> Result<Edits, Fault>
        ensures reads { EngineReads S.Store self.old self.new result }
        ensures foretold { WhenReady S.Store self.old self.new (λ limits commands. IsForetold limits commands command.now result) }
        // That a name of the second format is taken is told only where it is.
        ensures taken { TellsTaken (is_second_taken (state_of S.Store self.new.tables).now.schema) result }
        // Nothing is planned only where an undamaged row is stored with the command's id, kind and bytes.
        ensures again { WhenStored S.Store self.old.tables self.new.tables (λ stored. IfOk result (IsPlannedAgain stored command.now)) }
    {
        if self.session.must_reopen {
            return Err(Fault::Reopen);
        }
        let edits = foretell(&mut self.tables, alloc, &self.session, command);
        self.session.must_reopen = stops(&edits);
        edits
    }
}
