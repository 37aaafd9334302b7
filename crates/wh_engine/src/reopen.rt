//! From one run to the next.

ghost use Rattle.std.specs.Prelude.{◌≡◌, ◌++◌, false, IfOk, IfErr, ⊤};
ghost use Rattle.sqlite.specs.Files.{file_state, over_files};
ghost use Rattle.sqlite.specs.State.{HasCleanDisk};
ghost use Rattle.wh_engine.specs.Answered.{LeavesOneOf};
ghost use Rattle.wh_engine.specs.Redelivered.{IsRedelivered, IsDeliveredAgain};
ghost use Rattle.wh_engine.specs.Reopened.{WhereReady, OfAnyTwo, IsReadyForEither, IsNotReady, IsNotReadyOn, IsNotDeliveredAgain};
ghost use Rattle.wh_admission.specs.Admission.{accepted_after};
ghost use Rattle.wh_engine.specs.Delivered.{AreAsMany, IsNoRefusal};
ghost use Rattle.wh_rows.specs.Raw.{Stored, LeavesStored};

use crate::delivery::Replies;
use crate::engine::Engine;
use crate::fault::Fault;
use sqlite::{Connection, Error, FileStore, Leftover, Options};
use sqlite_disk::{Crash, Disk};
use std::alloc::Global;
use wh_admission::{Command, Reply};
use wh_store::{OpenFault, restart as restart_connection};

/// Why a warehouse wasn't opened again, and what is left of it.
#[derive(Drop)]
pub enum NotReopened<D: Disk> {
    /// The database refused its files.
    Files(Error, Leftover<D>),
    /// The files were opened, and the warehouse wasn't.
    Warehouse(OpenFault, Connection<FileStore<D>>),
}

/// The machine stops and comes back, and the warehouse is opened again. It then has one of the states that the crash could leave; so has what is
/// handed back where it can't be opened.
pub fn restart<D: Crash + Drop>(
    alloc: Global,
    engine: Engine<FileStore<D>>,
    options: Options,
) -> Result<Engine<FileStore<D>>, NotReopened<D>>
    ensures clean { IfOk result (λ again. HasCleanDisk (file_state again.tables.conn) → HasCleanDisk (file_state engine.tables.conn)) }
    ensures ready { OfAnyTwo (λ limits before after. LeavesOneOf limits before after (file_state engine.tables.conn)
        → IfOk result (IsReadyForEither over_files limits before after)) }
    ensures refused { OfAnyTwo (λ limits before after. (HasCleanDisk (file_state engine.tables.conn) → LeavesOneOf limits before after (file_state engine.tables.conn))
        → IfErr result (IsNotReady limits before after (HasCleanDisk (file_state engine.tables.conn)))) }
    // The same of any stored rows.
    ensures refused_stored { (stored : Stored) → LeavesStored stored (file_state engine.tables.conn) → IfErr result (IsNotReadyOn stored) }
    ensures fresh { IfOk result (λ again. (again.session.must_reopen ≡ false) × (again.writes ≡ 0)) }
{
    let conn = match restart_connection(alloc, engine.close(), options) {
        Ok(conn) => conn,
        Err((error, left)) => return Err(NotReopened::Files(error, left)),
    };
    match Engine::open(alloc, conn) {
        Ok(again) => Ok(again),
        Err((fault, conn)) => Err(NotReopened::Warehouse(fault, conn)),
    }
}

/// Sends a command, stops the machine whatever was answered, opens the warehouse again and sends the command once more. It has acted once,
/// and gets the receipt that it would get without the crash. Where the warehouse can't be opened, what is handed back has the tables before it
/// or after it.
pub fn redeliver<D: Crash + Drop>(
    alloc: Global,
    mut engine: Engine<FileStore<D>>,
    command: &Command,
    options: Options,
) -> Result<(Result<Reply, Fault>, Engine<FileStore<D>>), NotReopened<D>>
    ensures redelivered { WhereReady over_files engine (λ limits commands. IfOk result (λ it. HasCleanDisk (file_state it.1.tables.conn) → ∥ IsRedelivered limits commands command.now it.0 it.1.session (file_state it.1.tables.conn) ∥₁)) }
    ensures refused { WhereReady over_files engine (λ limits commands. IfErr result (IsNotReady limits commands (accepted_after limits commands command.now) ⊤)) }
{
    let _ = engine.apply(alloc, command);
    let mut again = match restart(alloc, engine, options) {
        Ok(again) => again,
        Err(why) => return Err(why),
    };
    let answer = again.apply(alloc, command);
    Ok((answer, again))
}

/// Delivers commands, stops the machine whatever was answered, opens the warehouse again and delivers those that weren't acknowledged. It
/// hands out the answers before the stop, those after it, and the warehouse. Where nothing stops it then, it ends as a
/// delivery without a stop: with its tables, and its receipt for each command. Where the warehouse can't be opened, it hands out the
/// answers before the stop with what is left.
pub fn deliver_again<D: Crash + Drop>(
    alloc: Global,
    mut engine: Engine<FileStore<D>>,
    commands: &[Command],
    options: Options,
) -> Result<(Replies, Replies, Engine<FileStore<D>>), (Replies, NotReopened<D>)>
    ensures delivered { WhereReady over_files engine (λ limits accepted. IfOk result (λ it. HasCleanDisk (file_state it.2.tables.conn)
        → ∥ IsDeliveredAgain limits accepted commands.now (it.0.answers.items ++ it.1.answers.items) it.1.stop it.2.session (file_state it.2.tables.conn) ∥₁)) }
    ensures refused { WhereReady over_files engine (λ limits accepted. IfErr result (λ e. IsNotDeliveredAgain limits accepted commands.now e.0.answers.items e.1)) }
    ensures many { IfErr result (λ e. AreAsMany commands.now e.0.answers.items e.0.stop) }
    ensures faults { IfErr result (λ e. IsNoRefusal e.0.stop) }
{
    let first = engine.deliver(alloc, commands);
    let mut again = match restart(alloc, engine, options) {
        Ok(again) => again,
        Err(why) => return Err((first, why)),
    };
    let rest = &commands[first.answers.len()..];
    let second = again.deliver(alloc, rest);
    Ok((first, second, again))
}
