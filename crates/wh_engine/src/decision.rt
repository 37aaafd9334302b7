//! What is to be done about a command: the reads, and nothing written.

ghost use Rattle.std.specs.Prelude.{◌≡◌, true, length, IfOk};
ghost use Rattle.sqlite.specs.State.{HasCleanDisk};
ghost use Rattle.wh_admission.specs.Said.{says};
ghost use Rattle.wh_engine.specs.Decided.{IsDecided, IsDecidedNew, IsRepeat, PlansNext, Brings, RepeatsKept, WritesItsRow, placeholders_in};
ghost use Rattle.wh_batch.specs.declared.kind.CommandKind.TheVariants.{Upgrade};
ghost use Rattle.wh_engine.specs.Scanned.{Reads, ReadsOnlyIn, WhenStored};
ghost use Rattle.wh_engine.specs.Serving.{Works};
ghost use Rattle.wh_sql.specs.Answers.{is_second_taken, state_of};

use crate::admission::number_for;
use crate::fault::Fault;
use crate::session::Session;
use sqlite::Alter;
use std::alloc::Global;
use wh_admission::{Command, Content, Receipt, Refusal};
use wh_batch::CommandKind;
use wh_day::is_key;
use wh_migration::{plan_migration, plan_upgrade};
use wh_plan::reading::command_with;
use wh_plan::{Edits, Terms, plan_batch, plan_sales, plan_voids};
use wh_policy::Policy;
use wh_rows::{CommandRow, ID_LIMIT};
use wh_store::{ReadFault, Tables};

/// What is to be done about a command.
#[derive(Debug, Drop)]
pub(crate) enum Decision {
    /// It came again: nothing is written.
    Repeat(Receipt),
    /// It is accepted: these edits are to be written, and this policy, if there is one, is in force from then on.
    Accept(Receipt, Edits, Option<Policy>),
}

/// What a command writes that says this and has this row.
fn plan<S: Alter>(
    tables: &mut Tables<S>,
    alloc: Global,
    session: &Session,
    row: CommandRow,
    content: &Content,
) -> Result<Edits, ReadFault>
    ensures reads { ReadsOnlyIn S.Store tables.old tables.new result }
    ensures edits { Works S.Store tables.old tables.new session.now (PlansNext session.now.limits row (says content.now) result) }
    ensures own { IfOk result (λ edits. length edits.commands ≡ 1) }
{
    let terms = Terms {
        format: session.format,
        policy: &session.policy,
    };
    match content {
        Content::Governs(newer) => plan_migration(tables, alloc, &terms, newer, row),
        Content::Describes(dim, records) => {
            plan_batch(tables, alloc, &terms, *dim, row, records.as_slice())
        }
        Content::Sells(sales) => plan_sales(tables, alloc, &terms, row, sales.as_slice()),
        Content::Upgrades => plan_upgrade(tables, alloc, row),
        Content::Withdraws(lines) => Ok(plan_voids(alloc, row, lines.as_slice())?),
    }
}

/// How many placeholder rows these edits of a command write.
fn placeholders_in(content: &Content, edits: &Edits) -> u64
    ensures { result ≡ placeholders_in (says content.now) edits.now }
{
    match content {
        Content::Sells(_) => edits.members.len() as u64,
        _ => 0,
    }
}

/// What is to be done about a command whose id is new.
pub(crate) fn decide_new<S: Alter>(
    tables: &mut Tables<S>,
    alloc: Global,
    session: &Session,
    command: &Command,
) -> Result<Decision, Fault>
    ensures reads { Reads S.Store tables.old tables.new result }
    ensures decided { Works S.Store tables.old tables.new session.now (IsDecidedNew session.now command.now result) }
    ensures brings { IfOk result (Brings session.now.policy command.now) }
    ensures own { IfOk result WritesItsRow }
    ensures untaken { HasCleanDisk (state_of S.Store tables.new) → command.now.kind ≡ Upgrade → is_second_taken (state_of S.Store tables.old).now.schema ≡ true → IfOk result IsRepeat }
{
    let bytes = command.bytes.as_slice();
    let content = Content::read(alloc, command.kind, session.format, &session.policy, bytes)?;
    let number = number_for(tables, alloc, session, &content)?;
    if command.kind == CommandKind::Upgrade && tables.is_second_taken() {
        return Err(Fault::Refused(Refusal::NameTaken));
    }
    let row = command.row(alloc, number, content.records())?;
    let edits = plan(tables, alloc, session, row, &content)?;
    let receipt = Receipt {
        number,
        records: content.records(),
        placeholders: placeholders_in(&content, &edits),
    };
    Ok(Decision::Accept(receipt, edits, content.into_policy()))
}

/// What is to be done about a command.
pub(crate) fn decide<S: Alter>(
    tables: &mut Tables<S>,
    alloc: Global,
    session: &Session,
    command: &Command,
) -> Result<Decision, Fault>
    ensures reads { Reads S.Store tables.old tables.new result }
    ensures decided { Works S.Store tables.old tables.new session.now (IsDecided session.now command.now result) }
    ensures brings { IfOk result (Brings session.now.policy command.now) }
    ensures again { WhenStored S.Store tables.old tables.new (λ stored. IfOk result (RepeatsKept stored command.now)) }
    // Where somebody else's object has a name of the second format, no upgrade is accepted, whatever else is stored.
    ensures untaken { HasCleanDisk (state_of S.Store tables.new) → command.now.kind ≡ Upgrade → is_second_taken (state_of S.Store tables.old).now.schema ≡ true → IfOk result IsRepeat }
{
    if !is_key(ID_LIMIT, command.id.as_str().as_bytes()) {
        return Err(Fault::Refused(Refusal::BadId));
    }
    match command_with(tables, alloc, &command.id)? {
        Some(row) => Ok(Decision::Repeat(command.receipt_again(&row)?)),
        None => decide_new(tables, alloc, session, command),
    }
}
