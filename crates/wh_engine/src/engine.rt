//! A warehouse that is open for commands.

ghost use Rattle.std.specs.Prelude.{◌≡◌, true, false, Err};
ghost use Rattle.wh_engine.specs.Answered.{IsAgain, IsAnswered, IsPerformed, IsWritten, IsGoverned, IsFormatted, IsNotAccepted, IsNoted, KeepsNothing};
ghost use Rattle.sqlite.specs.State.{HasCleanDisk};
ghost use Rattle.wh_batch.specs.declared.kind.CommandKind.TheVariants.{Upgrade};
ghost use Rattle.wh_sql.specs.Answers.{is_second_taken, state_of};
ghost use Rattle.wh_engine.specs.Faults.{BlamesDamage, IsWorkedOut, TellsTaken, stops};
ghost use Rattle.wh_engine.specs.Scanned.{Keeps, Shuts, WhenReady, WhenReadyOn, WhenStored};

use crate::decision::{Decision, decide};
use crate::fault::{Fault, stops};
use crate::session::Session;
use crate::write::commit_edits;
use sqlite::{Alter, Connection};
use std::alloc::Global;
use wh_admission::{Command, Reply};
use wh_policy::{Format, Policy};
use wh_store::Tables;

/// A warehouse that is open for commands, over one connection.
#[derive(Drop)]
pub struct Engine<S: Alter> {
    /// Its tables, for a crate that reads them: what it answers is to be noted (`note`). Everybody else calls the engine.
    pub tables: Tables<S>,
    pub(crate) session: Session,
    /// How many keys the last command wrote.
    pub(crate) writes: u64,
}

/// Does what is decided about a command.
fn perform<S: Alter>(
    tables: &mut Tables<S>,
    alloc: Global,
    session: &mut Session,
    command: &Command,
    writes: &mut u64,
) -> Result<Reply, Fault>
    ensures keeps { Keeps S.Store tables.old tables.new (KeepsNothing result) }
    ensures performed { WhenReadyOn S.Store tables.old tables.new session.old session.new (λ limits commands. IsPerformed limits commands command.now result) }
    ensures blames { WhenStored S.Store tables.old tables.new (λ stored. BlamesDamage stored result) }
    ensures again { WhenStored S.Store tables.old tables.new (λ stored. IsAgain stored command.now result) }
    ensures work { IsWorkedOut result }
    ensures taken { TellsTaken (is_second_taken (state_of S.Store tables.new).now.schema) result }
    ensures untaken { HasCleanDisk (state_of S.Store tables.new) → command.now.kind ≡ Upgrade → is_second_taken (state_of S.Store tables.old).now.schema ≡ true → IsNotAccepted result }
    ensures written { WhenReadyOn S.Store tables.old tables.new session.old session.new (λ limits commands _ _. IsWritten limits commands command.now result writes.new) }
    ensures silent { IsNotAccepted result → writes.new ≡ 0 }
    ensures limits { session.new.limits ≡ session.old.limits }
    ensures policy { IsGoverned session.old.policy session.new.policy command.now result }
    ensures format { IsFormatted session.old.format session.new.format command.now result }
{
    *writes = 0;
    match decide(tables, alloc, session, command) {
        Ok(Decision::Repeat(receipt)) => Ok(Reply::Already(receipt)),
        Ok(Decision::Accept(receipt, edits, newer)) => match commit_edits(tables, alloc, &edits) {
            Ok(count) => {
                *writes = count;
                session.govern(command.kind, newer);
                Ok(Reply::Accepted(receipt))
            }
            Err(cause) => Err(Fault::Store(cause)),
        },
        Err(fault) => Err(fault),
    }
}

impl<S: Alter> Engine<S> {
    /// The format of the warehouse.
    pub fn format(&self) -> Format
        ensures { result ≡ self.now.session.format }
    {
        self.session.format
    }

    /// The policy in force.
    pub fn policy(&self) -> &Policy
        ensures { result.now ≡ self.now.session.policy }
    {
        &self.session.policy
    }

    /// How many keys the last command wrote: 0 before any, and after any answer but that it was accepted.
    pub fn writes(&self) -> u64
        ensures { result ≡ self.now.writes }
    {
        self.writes
    }

    /// Whether the database refused a call: then the warehouse has to be opened again, and each call on the tables answers `Reopen`.
    pub fn must_reopen(&self) -> bool
        ensures { result ≡ self.now.session.must_reopen }
    {
        self.session.must_reopen
    }

    /// Notes of what a reading of the tables answered whether the database refused a call.
    pub fn note<A>(&mut self, answer: &Result<A, Fault>)
        ensures { self.new ≡ record (self.old) { session = record (self.old.session) { must_reopen = stops answer.now } } }
    {
        self.session.must_reopen = stops(answer);
    }

    /// Hands the connection back.
    pub fn close(self) -> Connection<S>
        ensures { result ≡ self.tables.conn }
    {
        self.tables.close()
    }

    /// Answers a command. An accepted one is kept, once, in one transaction whose commit is the last call of the database. `Refused`: it isn't
    /// accepted. `Damaged`, `Memory`: nothing was written. `Store`: the database refused a call. After that every call answers `Reopen`.
    pub fn apply(&mut self, alloc: Global, command: &Command) -> Result<Reply, Fault>
        // Any database stays as it was where nothing was accepted, whatever its schema is and whoever wrote its rows.
        ensures keeps { Keeps S.Store self.old.tables self.new.tables (KeepsNothing result) }
        ensures answered { WhenReady S.Store self.old self.new (λ limits commands. IsAnswered limits commands command.now result) }
        // The table that is named as damaged stores a damaged row.
        ensures blames { WhenStored S.Store self.old.tables self.new.tables (λ stored. BlamesDamage stored result) }
        // That a command came again is answered only where an undamaged row is stored with its id, kind and bytes; the receipt is that row's.
        ensures again { WhenStored S.Store self.old.tables self.new.tables (λ stored. IsAgain stored command.now result) }
        // That a name of the second format is taken is told only where it is.
        ensures taken { TellsTaken (is_second_taken (state_of S.Store self.new.tables).now.schema) result }
        // Where one is, in whatever database, no upgrade is accepted.
        ensures untaken { HasCleanDisk (state_of S.Store self.new.tables) → command.now.kind ≡ Upgrade → is_second_taken (state_of S.Store self.old.tables).now.schema ≡ true → IsNotAccepted result }
        ensures shuts { Shuts self.old self.new (result ≡ Err Fault.Reopen) }
        // The limits stay, and so do the policy and the format, but for those of an accepted migration and upgrade.
        ensures noted { self.old.session.must_reopen ≡ false → IsNoted self.old.session self.new.session command.now result }
        // As many keys are written as its exact edits are, and none by an answer that accepts nothing.
        ensures written { WhenReady S.Store self.old self.new (λ limits commands _ _. IsWritten limits commands command.now result self.new.writes) }
        ensures silent { IsNotAccepted result → self.new.writes ≡ 0 }
    {
        if self.session.must_reopen {
            self.writes = 0;
            return Err(Fault::Reopen);
        }
        let answer = perform(
            &mut self.tables,
            alloc,
            &mut self.session,
            command,
            &mut self.writes,
        );
        self.session.must_reopen = stops(&answer);
        answer
    }
}
