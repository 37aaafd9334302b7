//! What is asked of an engine, and its answers as lines.

use crate::engine::batches::{load, worked};
use crate::engine::deliveries::deliver;
use crate::engine::plans::plan;
use crate::engine::readings::push_read;
use crate::trouble::Trouble;
use sqlite::Alter;
use sqlite_value::value::Bytes;
use std::alloc::{AllocError, Global};
use std::fmt::Write;
use wh_batch::BatchKind;
use wh_checking::{Check, Verdict};
use wh_day::Value;
use wh_engine::{
    Command, CommandKind, Counts, Engine, Fault, InitFault, OpenFault, Receipt, Refusal, Reply,
};
use wh_policy::{Dim, Policy};
use wh_scenarios::engine::policies::policy;
use wh_scenarios::{parted, push_line, push_number};

/// A step: its verb, the words after it, and the lines that it is handed.
#[derive(Clone, Copy)]
pub struct Work<'a> {
    pub verb: &'a str,
    pub rest: &'a str,
    pub handed: &'a str,
}

impl<'a> Work<'a> {
    pub fn of(words: &'a str, handed: &'a str) -> Work<'a> {
        let (verb, rest) = parted(words, ' ');
        Work { verb, rest, handed }
    }
}

fn kind_of(word: &str) -> Result<CommandKind, Trouble> {
    match word {
        "migrate" => Ok(CommandKind::Migration),
        "upgrade" => Ok(CommandKind::Upgrade),
        "product" => Ok(CommandKind::Batch(BatchKind::Dimension(Dim::Product))),
        "store" => Ok(CommandKind::Batch(BatchKind::Dimension(Dim::Store))),
        "customer" => Ok(CommandKind::Batch(BatchKind::Dimension(Dim::Customer))),
        "sales" => Ok(CommandKind::Batch(BatchKind::Sales)),
        "void" => Ok(CommandKind::Batch(BatchKind::Voids)),
        _ => Err(Trouble),
    }
}

fn make_command(
    alloc: Global,
    kind: CommandKind,
    id: &str,
    bytes: &str,
) -> Result<Command, AllocError> {
    Ok(Command {
        id: Value::new(alloc, id)?,
        kind,
        bytes: Bytes::from_slice(alloc, bytes.as_bytes())?,
    })
}

/// A command with the bytes of a batch, or with a policy or the name of one.
pub fn command(alloc: Global, kind: &str, id: &str, handed: &str) -> Result<Command, Trouble> {
    let kind = kind_of(kind)?;
    let named = policy(parted(handed, '\n').0);
    let is_named = matches!(kind, CommandKind::Migration) && !named.is_empty();
    let bytes = if is_named { named } else { handed };
    Ok(make_command(alloc, kind, id, bytes)?)
}

/// The same: `KIND ID`.
pub fn command_of(alloc: Global, words: &str, handed: &str) -> Result<Command, Trouble> {
    let (kind, id) = parted(words, ' ');
    command(alloc, kind, id, handed)
}

/// The command of a `send` or a `batch`.
pub fn command_of_work(alloc: Global, work: Work<'_>) -> Result<Command, Trouble> {
    if work.verb == "batch" {
        worked(alloc, work.rest)
    } else {
        command_of(alloc, work.rest, work.handed)
    }
}

/// Sends a command, and writes the answer.
pub fn push_applied<S: Alter>(
    alloc: Global,
    engine: &mut Engine<S>,
    command: &Command,
    out: &mut String,
) -> Result<(), Trouble> {
    let answer = engine.apply(alloc, command);
    Ok(push_answer(out, answer)?)
}

/// A step of an engine.
pub fn ask<S: Alter>(
    alloc: Global,
    engine: &mut Engine<S>,
    work: Work<'_>,
    out: &mut String,
) -> Result<(), Trouble> {
    match work.verb {
        "send" | "batch" => send(alloc, engine, work, out),
        "deliver" => deliver(alloc, engine, work, out),
        "load" => load(alloc, engine, work.rest, out),
        "plan" => plan(alloc, engine, work.rest, work.handed, out),
        "writes" => Ok(push_count(out, "written", engine.writes())?),
        "counts" => counts(alloc, engine, out),
        "check" => check(alloc, engine, out),
        "records" | "query" => push_read(alloc, engine, work, out),
        "policy" => push_policy(out, engine.policy()),
        _ => Err(Trouble),
    }
}

/// Sends the command of a `send` or a `batch`.
fn send<S: Alter>(
    alloc: Global,
    engine: &mut Engine<S>,
    work: Work<'_>,
    out: &mut String,
) -> Result<(), Trouble> {
    let command = command_of_work(alloc, work)?;
    push_applied(alloc, engine, &command, out)
}

/// The answer to a command.
pub fn push_answer(out: &mut String, answer: Result<Reply, Fault>) -> Result<(), AllocError> {
    match answer {
        Ok(Reply::Accepted(receipt)) => push_receipt(out, "accepted ", receipt),
        Ok(Reply::Already(receipt)) => push_receipt(out, "already ", receipt),
        Err(Fault::Refused(why)) => push_refusal(out, why),
        Err(fault) => write!(out, "{fault:?}\n"),
    }
}

fn push_receipt(out: &mut String, word: &str, receipt: Receipt) -> Result<(), AllocError> {
    out.push_str(word)?;
    push_number(out, receipt.number)?;
    out.push_str(": ")?;
    push_number(out, receipt.records)?;
    out.push_str(" records, ")?;
    push_number(out, receipt.placeholders)?;
    out.push_str(" placeholders\n")
}

/// A fault of a batch stands with the number of its record.
fn push_refusal(out: &mut String, why: Refusal) -> Result<(), AllocError> {
    match why {
        Refusal::Batch(fault) => {
            let kind = fault.kind;
            write!(out, "refused: {kind:?} at ")?;
            push_number(out, fault.number as u64)?;
            out.push_str("\n")
        }
        _ => write!(out, "refused: {why:?}\n"),
    }
}

/// Why no warehouse was made.
pub fn push_fault(out: &mut String, fault: InitFault) -> Result<(), AllocError> {
    write!(out, "{fault:?}\n")
}

/// Why a database wasn't opened.
pub fn push_opening(out: &mut String, fault: OpenFault) -> Result<(), AllocError> {
    write!(out, "{fault:?}\n")
}

fn push_count(out: &mut String, word: &str, count: u64) -> Result<(), AllocError> {
    out.push_str(word)?;
    out.push_str(" ")?;
    push_number(out, count)?;
    out.push_str("\n")
}

fn push_counts(out: &mut String, counts: &Counts) -> Result<(), AllocError> {
    push_count(out, "format", counts.format)?;
    push_count(out, "commands", counts.commands)?;
    push_count(out, "changes", counts.changes)?;
    push_count(out, "facts", counts.facts)?;
    push_count(out, "products", counts.products)?;
    push_count(out, "stores", counts.stores)?;
    push_count(out, "customers", counts.customers)
}

/// How much the warehouse holds.
pub fn counts<S: Alter>(
    alloc: Global,
    engine: &mut Engine<S>,
    out: &mut String,
) -> Result<(), Trouble> {
    match engine.counts(alloc) {
        Ok(counts) => Ok(push_counts(out, &counts)?),
        Err(fault) => Ok(write!(out, "{fault:?}\n")?),
    }
}

/// What a check finds.
fn check<S: Alter>(alloc: Global, engine: &mut Engine<S>, out: &mut String) -> Result<(), Trouble> {
    match engine.check(alloc) {
        Ok(Verdict::Clean) => Ok(push_line(out, "clean")?),
        Ok(Verdict::Wrong(table)) => Ok(write!(out, "wrong: {table:?}\n")?),
        Err(fault) => Ok(write!(out, "{fault:?}\n")?),
    }
}

/// The last year, and how many attributes a product has.
fn push_policy(out: &mut String, policy: &Policy) -> Result<(), Trouble> {
    push_count(out, "last year", policy.years.last as u64)?;
    let attributes = policy.attributes(Dim::Product).len();
    Ok(push_count(out, "attributes of a product", attributes as u64)?)
}
