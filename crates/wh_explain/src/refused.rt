//! The lines on a refusal.

use crate::batch::{Batch, push_faults};
use crate::explanation::SentCommand;
use crate::line_texts::push_refused_lines;
use crate::policy::{push_bad_policy, push_unfit};
use crate::shown::push;
use std::alloc::{AllocError, Global};
use wh_admission::{Limit, Refusal};
use wh_batch::{BatchKind, CommandKind, columns_of, faults};
use wh_day::ParseError;
use wh_policy::Policy;

/// The most records whose faults are listed.
const MOST_FAULTY: usize = 20;

/// The faults of a batch.
fn push_batch(
    text: &mut Vec<u8>,
    alloc: Global,
    kind: BatchKind,
    sent: &SentCommand,
) -> Result<(), AllocError> {
    let found = faults(
        alloc,
        kind,
        sent.policy,
        sent.format,
        sent.bytes,
        MOST_FAULTY,
    )?;
    let columns = columns_of(alloc, kind, sent.policy, sent.format)?;
    let batch = Batch {
        kind,
        policy: sent.policy,
        format: sent.format,
        columns: &columns,
        bytes: sent.bytes,
    };
    push_faults(text, alloc, &batch, &found)
}

/// What a policy that doesn't fit lacks.
fn push_unfit_policy(
    text: &mut Vec<u8>,
    alloc: Global,
    sent: &SentCommand,
) -> Result<(), AllocError> {
    match Policy::read(alloc, sent.bytes) {
        Ok(newer) => push_unfit(text, sent.policy, &newer),
        Err(ParseError::Fault(fault)) => push_bad_policy(text, alloc, fault, sent.bytes),
        Err(ParseError::Memory) => Err(AllocError),
    }
}

/// The lines of tickets for which a batch is refused.
fn push_lines(text: &mut Vec<u8>, alloc: Global, sent: &SentCommand) -> Result<(), AllocError> {
    match &sent.lines {
        Some(lines) => push_refused_lines(text, alloc, lines, sent.bytes),
        None => Ok(()),
    }
}

fn push_full(text: &mut Vec<u8>, limit: Limit) -> Result<(), AllocError> {
    let name = match limit {
        Limit::Commands => "commands_max",
        Limit::Changes => "changes_max",
        Limit::Facts => "facts_max",
    };
    push!(text; "the limit stands in meta, as ", name, "\n")
}

/// The lines on a refusal, where there is more to say than its own line does.
pub(crate) fn push_refusal(
    text: &mut Vec<u8>,
    alloc: Global,
    why: &Refusal,
    sent: &SentCommand,
) -> Result<(), AllocError> {
    match (why, sent.kind) {
        (Refusal::Batch(_), CommandKind::Batch(kind)) => push_batch(text, alloc, kind, sent),
        (Refusal::LineThere(_), _) => push_lines(text, alloc, sent),
        (Refusal::NoLine(_), _) => push_lines(text, alloc, sent),
        (Refusal::Policy(fault), _) => push_bad_policy(text, alloc, *fault, sent.bytes),
        (Refusal::Unfit, _) => push_unfit_policy(text, alloc, sent),
        (Refusal::Upgraded, _) => push!(text; "the warehouse has format 2 already\n"),
        (Refusal::NameTaken, _) =>
            push!(text; "a table, an index or a view of another program has the name fact2 or void\n"),
        (Refusal::Full(limit), _) => push_full(text, *limit),
        _ => Ok(()),
    }
}
