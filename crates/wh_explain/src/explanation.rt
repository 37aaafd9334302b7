//! What is added below an answer. A clause says no more of a text than that it goes on.

ghost use Rattle.std.specs.Prelude.{◌≡◌, OnOk};
ghost use Rattle.wh_explain.specs.Added.{Continues};

use crate::kind::push_kind;
use crate::left_out::LeftOut;
use crate::line::TracedLines;
use crate::members::push_first_mentions;
use crate::policy::{push_bad_policy, push_rules};
use crate::records::push_records;
use crate::refused::push_refusal;
use crate::row::push_column;
use crate::shown::push;
use crate::wanted::{push_limits, push_wanted};
use std::alloc::{AllocError, Global};
use wh_admission::Refusal;
use wh_batch::{Column, CommandKind};
use wh_history::Edit;
use wh_policy::{Format, Policy, PolicyFault, Years};
use wh_rows::{MemberKey, MemberRow};

/// What was sent, and what it is judged by.
#[derive(Drop)]
pub struct SentCommand<'a> {
    /// What the command is.
    pub kind: CommandKind,
    /// The policy in force.
    pub policy: &'a Policy,
    /// The format of the warehouse.
    pub format: Format,
    /// The batch, or the policy file.
    pub bytes: &'a [u8],
    /// The lines of a batch that is refused for one of them, with the kept commands that were noted.
    pub lines: Option<TracedLines>,
    /// The records of an acceptable batch that leave values out, with the kept records that were noted.
    pub left_out: Option<LeftOut>,
}

fn columns_text(alloc: Global, columns: &[Column], years: Years) -> Result<Vec<u8>, AllocError> {
    let mut text = Vec::new(alloc);
    for place in 0..columns.len() {
        push_column(&mut text, columns, place)?;
        push_wanted(&mut text, columns[place].holds(), years)?;
        push!(&mut text; "\n")?;
    }
    push_limits(&mut text, columns)?;
    Ok(text)
}

/// A line for each column: what its fields may hold; and how big a batch may be. The error comes where memory ran out.
pub fn add_columns(
    text: &mut Vec<u8>,
    alloc: Global,
    columns: &[Column],
    years: Years,
) -> Result<(), AllocError>
    ensures { OnOk result (Continues text.old.items text.new.items) }
{
    let lines = columns_text(alloc, columns, years)?;
    text.extend_from_slice(&lines)
}

fn kind_text(
    alloc: Global,
    kind: CommandKind,
    policy: &Policy,
    format: Format,
) -> Result<Vec<u8>, AllocError> {
    let mut text = Vec::new(alloc);
    push_kind(&mut text, kind, policy, format)?;
    Ok(text)
}

/// The lines on what a command takes that is no batch, or a batch that the format doesn't have.
pub fn add_kind(
    text: &mut Vec<u8>,
    alloc: Global,
    kind: CommandKind,
    policy: &Policy,
    format: Format,
) -> Result<(), AllocError>
    ensures { OnOk result (Continues text.old.items text.new.items) }
{
    let lines = kind_text(alloc, kind, policy, format)?;
    text.extend_from_slice(&lines)
}

fn rules_text(alloc: Global) -> Result<Vec<u8>, AllocError> {
    let mut text = Vec::new(alloc);
    push_rules(&mut text)?;
    Ok(text)
}

/// The lines on what any policy is. The error comes where memory ran out.
pub fn add_rules(text: &mut Vec<u8>, alloc: Global) -> Result<(), AllocError>
    ensures { OnOk result (Continues text.old.items text.new.items) }
{
    let lines = rules_text(alloc)?;
    text.extend_from_slice(&lines)
}

fn bad_policy_text(alloc: Global, fault: PolicyFault, bytes: &[u8]) -> Result<Vec<u8>, AllocError> {
    let mut text = Vec::new(alloc);
    push_bad_policy(&mut text, alloc, fault, bytes)?;
    Ok(text)
}

/// The lines on the fault of a policy: where it stands, and the rule that it breaks. The error comes where memory ran out.
pub fn add_bad_policy(
    text: &mut Vec<u8>,
    alloc: Global,
    fault: PolicyFault,
    bytes: &[u8],
) -> Result<(), AllocError>
    ensures { OnOk result (Continues text.old.items text.new.items) }
{
    let lines = bad_policy_text(alloc, fault, bytes)?;
    text.extend_from_slice(&lines)
}

fn warnings_text(
    alloc: Global,
    sent: &SentCommand,
    members: &[Edit<MemberRow, MemberKey>],
) -> Result<Vec<u8>, AllocError> {
    let mut text = Vec::new(alloc);
    push_first_mentions(&mut text, members)?;
    push_records(&mut text, alloc, sent)?;
    Ok(text)
}

/// The lines on what may be a slip in a batch that would be accepted, by the members whose rows its edits put. The error comes where
/// memory ran out.
pub fn add_warnings(
    text: &mut Vec<u8>,
    alloc: Global,
    sent: &SentCommand,
    members: &[Edit<MemberRow, MemberKey>],
) -> Result<(), AllocError>
    ensures { OnOk result (Continues text.old.items text.new.items) }
{
    let lines = warnings_text(alloc, sent, members)?;
    text.extend_from_slice(&lines)
}

fn refusal_text(alloc: Global, why: &Refusal, sent: &SentCommand) -> Result<Vec<u8>, AllocError> {
    let mut text = Vec::new(alloc);
    push_refusal(&mut text, alloc, why, sent)?;
    Ok(text)
}

/// The lines on a refusal: where and why, as far as there is more to say than its own line does.
pub fn add_refusal(
    text: &mut Vec<u8>,
    alloc: Global,
    why: &Refusal,
    sent: &SentCommand,
) -> Result<(), AllocError>
    ensures { OnOk result (Continues text.old.items text.new.items) }
{
    let lines = refusal_text(alloc, why, sent)?;
    text.extend_from_slice(&lines)
}
