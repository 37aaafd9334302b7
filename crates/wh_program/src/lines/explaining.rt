//! The answers that explain an input, or what a kind takes.

ghost use Rattle.std.specs.Prelude.{◌≡◌, IfOk, [], string_bytes};
ghost use Rattle.wh_batch.specs.Layouts.{columns_of};
ghost use Rattle.wh_policy.specs.Policy.{read_policy};
ghost use Rattle.wh_program.specs.Answer.{done, refused, policy_line};
ghost use Rattle.wh_program.specs.Explained.{Begins, acceptable_line, making_receipt, preview_answer, header_line, first_of_batch, first_of_kind, first_of_policy};
ghost use Rattle.wh_program.specs.Reply.{refused_line};

use crate::lines::answer::{Answer, Status};
use crate::lines::{fault_answer, policy_line, push_refused};
use std::alloc::{AllocError, Global};
use wh_batch::{BatchKind, Column, CommandKind, columns_of};
use wh_day::ParseError;
use wh_engine::{Fault, Preview, Receipt, Refusal};
use wh_explain::{
    SentCommand, add_bad_policy, add_columns, add_kind, add_refusal, add_rules, add_warnings,
    push_names,
};
use wh_policy::{Format, Policy, PolicyFault};

/// The line of an input that would be accepted.
fn acceptable_line(alloc: Global, receipt: &Receipt) -> Result<String, AllocError>
    ensures { IfOk result (λ line. string_bytes line ≡ acceptable_line receipt.now) }
{
    let records = receipt.records;
    let placeholders = receipt.placeholders;
    format!(in alloc; "would be accepted: {records} records, {placeholders} placeholders\n")
}

/// The answer to an input that would be accepted.
fn acceptable(alloc: Global, preview: &Preview, sent: &SentCommand) -> Result<Answer, AllocError>
    ensures { IfOk result (Begins (done (acceptable_line preview.now.receipt))) }
{
    let mut text = acceptable_line(alloc, &preview.receipt)?.into_bytes();
    add_warnings(&mut text, alloc, sent, &preview.edits.members)?;
    Ok(Answer::new(Status::Done, text))
}

/// The answer to an input that would be refused.
fn unacceptable(alloc: Global, why: &Refusal, sent: &SentCommand) -> Result<Answer, AllocError>
    ensures { IfOk result (Begins (refused (refused_line why.now))) }
{
    let mut text = Vec::new(alloc);
    push_refused(&mut text, why)?;
    add_refusal(&mut text, alloc, why, sent)?;
    Ok(Answer::new(Status::Refused, text))
}

/// The answer to an input of which this is foreseen.
pub fn explained(
    alloc: Global,
    preview: Result<Preview, Fault>,
    sent: &SentCommand,
) -> Result<Answer, AllocError>
    ensures { IfOk result (Begins (preview_answer preview)) }
{
    match preview {
        Ok(preview) => acceptable(alloc, &preview, sent),
        Err(Fault::Refused(why)) => unacceptable(alloc, &why, sent),
        Err(fault) => fault_answer(alloc, fault),
    }
}

/// The answer to a policy under which `init` would make a warehouse.
fn policy_acceptable(alloc: Global) -> Result<Answer, AllocError>
    ensures { IfOk result (Begins (done (acceptable_line making_receipt))) }
{
    let receipt = Receipt {
        number: 1,
        records: 0,
        placeholders: 0,
    };
    let line = acceptable_line(alloc, &receipt)?;
    Ok(Answer::new(Status::Done, line.into_bytes()))
}

/// The answer to the bytes of a policy that `init` would refuse for this fault.
fn policy_unacceptable(
    alloc: Global,
    fault: PolicyFault,
    bytes: &[u8],
) -> Result<Answer, AllocError>
    ensures { IfOk result (Begins (refused (policy_line fault))) }
{
    let mut lines = policy_line(alloc, fault)?;
    add_bad_policy(&mut lines, alloc, fault, bytes)?;
    Ok(Answer::new(Status::Refused, lines))
}

/// The answer to the bytes of a policy, as `init` would judge them.
pub fn policy_explained(alloc: Global, bytes: &[u8]) -> Result<Answer, AllocError>
    ensures { IfOk result (Begins (first_of_policy (read_policy bytes.now))) }
{
    match Policy::read(alloc, bytes) {
        Ok(_) => policy_acceptable(alloc),
        Err(ParseError::Fault(fault)) => policy_unacceptable(alloc, fault, bytes),
        Err(ParseError::Memory) => Err(AllocError),
    }
}

/// What any policy is.
pub fn policy_described(alloc: Global) -> Result<Answer, AllocError>
    ensures { IfOk result (Begins (done [])) }
{
    let mut text = Vec::new(alloc);
    add_rules(&mut text, alloc)?;
    Ok(Answer::new(Status::Done, text))
}

/// The header of a batch with these columns.
fn header_line(alloc: Global, columns: &[Column]) -> Result<Vec<u8>, AllocError>
    ensures { IfOk result (λ text. text.items ≡ header_line columns.now) }
{
    let mut text = Vec::new(alloc);
    push_names(&mut text, columns)?;
    text.push(b'\n')?;
    Ok(text)
}

/// What a batch of this kind takes: its header, and what each column may hold.
fn columns_described(
    alloc: Global,
    kind: BatchKind,
    policy: &Policy,
    format: Format,
) -> Result<Answer, AllocError>
    ensures { IfOk result (Begins (done (header_line (columns_of kind policy.now format)))) }
{
    let columns = columns_of(alloc, kind, policy, format)?;
    let mut text = header_line(alloc, &columns)?;
    add_columns(&mut text, alloc, &columns, policy.years)?;
    Ok(Answer::new(Status::Done, text))
}

/// What a command takes that has no columns.
fn kind_described(
    alloc: Global,
    kind: CommandKind,
    policy: &Policy,
    format: Format,
) -> Result<Answer, AllocError>
    ensures { IfOk result (Begins (done [])) }
{
    let mut text = Vec::new(alloc);
    add_kind(&mut text, alloc, kind, policy, format)?;
    Ok(Answer::new(Status::Done, text))
}

/// What a batch of this kind takes, if the format has such batches.
fn batch_described(
    alloc: Global,
    kind: BatchKind,
    policy: &Policy,
    format: Format,
) -> Result<Answer, AllocError>
    ensures { IfOk result (Begins (done (first_of_batch kind policy.now format))) }
{
    match (kind, format) {
        (BatchKind::Voids, Format::One) => {
            kind_described(alloc, CommandKind::Batch(kind), policy, format)
        }
        (BatchKind::Voids, Format::Two) => columns_described(alloc, kind, policy, format),
        (BatchKind::Dimension(_), _) => columns_described(alloc, kind, policy, format),
        (BatchKind::Sales, _) => columns_described(alloc, kind, policy, format),
    }
}

/// What a command of this kind takes.
pub fn description_answer(
    alloc: Global,
    kind: CommandKind,
    policy: &Policy,
    format: Format,
) -> Result<Answer, AllocError>
    ensures { IfOk result (Begins (done (first_of_kind kind policy.now format))) }
{
    match kind {
        CommandKind::Batch(batch) => batch_described(alloc, batch, policy, format),
        CommandKind::Migration | CommandKind::Upgrade => {
            kind_described(alloc, kind, policy, format)
        }
    }
}
