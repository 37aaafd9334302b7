//! What a command would be answered under a new id, and what it would write.

ghost use Rattle.std.specs.Prelude.{◌≡◌, ◌++◌, true, None, codes, decimal, length, IfOk};
ghost use Rattle.wh_engine.specs.Decided.{IsNew};
ghost use Rattle.wh_engine.specs.Faults.{TellsTaken};
ghost use Rattle.wh_engine.specs.Previewed.{HasNoCommandOf, IsForeseenAnew, IsPreviewed};
ghost use Rattle.wh_engine.specs.Scanned.{EngineReads, Reads, ReadsOnlyIn, WhenOfCommands, WhenReady, WhenStored};
ghost use Rattle.wh_engine.specs.Serving.{Works};
ghost use Rattle.wh_plan.specs.Reading.{HaveDistinctIds, command_with};
ghost use Rattle.wh_rows.specs.Types.{is_key};
ghost use Rattle.wh_sql.specs.Answers.{is_second_taken, state_of};

use crate::decision::{Decision, decide_new};
use crate::engine::Engine;
use crate::fault::{Fault, stops};
use crate::session::Session;
use sqlite::Alter;
use sqlite_value::value::Bytes;
use std::alloc::{AllocError, Global};
use wh_admission::{Command, Receipt};
use wh_batch::CommandKind;
use wh_day::{Value, is_key};
use wh_plan::Edits;
use wh_plan::reading::command_with;
use wh_rows::{Cause, ID_LIMIT};
use wh_store::{ReadFault, Tables};

/// What a command would be answered, and what it would write.
#[derive(Debug, Drop)]
pub struct Preview {
    /// What it would be answered.
    pub receipt: Receipt,
    /// What it would write.
    pub edits: Edits,
}

/// The id of this number among those that a preview tries.
fn trial_id(alloc: Global, number: u64) -> Result<Value, AllocError>
    ensures { IfOk result (λ id. id ≡ codes "preview-" ++ decimal number) }
{
    let text = format!(in alloc; "preview-{number}")?;
    Value::new(alloc, text.as_str())
}

/// Whether an id has the right form, and no stored command has it.
fn is_free<S: Alter>(tables: &mut Tables<S>, alloc: Global, id: &Value) -> Result<bool, ReadFault>
    ensures reads { ReadsOnlyIn S.Store tables.old tables.new result }
    ensures good { IfOk result (λ free. free ≡ true → is_key 40 id.now ≡ true) }
    ensures new { WhenOfCommands S.Store tables.old tables.new (λ _ commands. HaveDistinctIds commands → IfOk result (λ free. free ≡ true → command_with commands id.now ≡ None)) }
    ensures free { WhenStored S.Store tables.old tables.new (λ stored. IfOk result (λ free. free ≡ true → HasNoCommandOf stored id.now)) }
{
    if !is_key(ID_LIMIT, id.as_str().as_bytes()) {
        return Ok(false);
    }
    let row = command_with(tables, alloc, id)?;
    Ok(row.is_none())
}

/// An id of the right form that no stored command has.
fn free_id<S: Alter>(tables: &mut Tables<S>, alloc: Global) -> Result<Value, ReadFault>
    ensures reads { ReadsOnlyIn S.Store tables.old tables.new result }
    ensures good { IfOk result (λ id. is_key 40 id ≡ true) }
    ensures new { WhenOfCommands S.Store tables.old tables.new (λ _ commands. HaveDistinctIds commands → IfOk result (λ id. command_with commands id ≡ None)) }
    ensures free { WhenStored S.Store tables.old tables.new (λ stored. IfOk result (HasNoCommandOf stored)) }
{
    'numbers: for number in 0..u64::MAX {
        let id = trial_id(alloc, number)?;
        if is_free(tables, alloc, &id)? {
            return Ok(id);
        }
    }
    Err(ReadFault::Store(Cause::Size))
}

/// What is foreseen of a command whose id is new.
fn preview_of<S: Alter>(
    tables: &mut Tables<S>,
    alloc: Global,
    session: &Session,
    command: &Command,
) -> Result<Preview, Fault>
    ensures reads { Reads S.Store tables.old tables.new result }
    ensures previewed { Works S.Store tables.old tables.new session.now (λ commands. is_key 40 command.now.id ≡ true → IsNew commands command.now → IsForeseenAnew session.now.limits commands command.now.kind command.now.bytes result) }
    ensures own { IfOk result (λ preview. length preview.edits.commands ≡ 1) }
{
    match decide_new(tables, alloc, session, command) {
        Ok(Decision::Accept(receipt, edits, _)) => Ok(Preview { receipt, edits }),
        Ok(Decision::Repeat(_)) => unreachable!(),
        Err(fault) => Err(fault),
    }
}

/// What is foreseen of a command of this kind and with these bytes, under an id that is free.
fn preview_anew<S: Alter>(
    tables: &mut Tables<S>,
    alloc: Global,
    session: &Session,
    kind: CommandKind,
    bytes: &[u8],
) -> Result<Preview, Fault>
    ensures reads { Reads S.Store tables.old tables.new result }
    ensures previewed { Works S.Store tables.old tables.new session.now (λ commands. IsForeseenAnew session.now.limits commands kind bytes.now result) }
    ensures own { IfOk result (λ preview. length preview.edits.commands ≡ 1) }
{
    let id = free_id(tables, alloc)?;
    let bytes = Bytes::from_slice(alloc, bytes)?;
    let command = Command { id, kind, bytes };
    preview_of(tables, alloc, session, &command)
}

impl<S: Alter> Engine<S> {
    /// What a command of this kind and with these bytes would be answered now under a good id that no accepted command has, and what it would
    /// write. It is refused as `apply` would refuse it. Nothing is written. After a refusal of the database it answers `Reopen`.
    pub fn preview(
        &mut self,
        alloc: Global,
        kind: CommandKind,
        bytes: &[u8],
    ) -> Result<Preview, Fault>
        ensures reads { EngineReads S.Store self.old self.new result }
        ensures previewed { WhenReady S.Store self.old self.new (λ limits commands. IsPreviewed limits commands kind bytes.now result) }
        // That a name of the second format is taken is told only where it is.
        ensures taken { TellsTaken (is_second_taken (state_of S.Store self.new.tables).now.schema) result }
        // Whatever is stored, a command that would be accepted would write its own row.
        ensures own { IfOk result (λ preview. length preview.edits.commands ≡ 1) }
    {
        if self.session.must_reopen {
            return Err(Fault::Reopen);
        }
        let preview = preview_anew(&mut self.tables, alloc, &self.session, kind, bytes);
        self.session.must_reopen = stops(&preview);
        preview
    }
}
