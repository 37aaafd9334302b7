//! Several commands at once, and their answers as lines.

use crate::engine::asking::{Work, command_of, push_answer};
use crate::engine::batches::worked;
use crate::trouble::Trouble;
use sqlite::Alter;
use std::alloc::{AllocError, Global};
use std::fmt::Write;
use wh_engine::{Command, Engine, Fault, Replies};
use wh_scenarios::{parted, push_line};

/// A command: a line `KIND ID`, and then the lines that `send` is handed.
fn command_in(alloc: Global, part: &str) -> Result<Command, Trouble> {
    let (words, lines) = parted(part.trim(), '\n');
    let mut handed = String::new(alloc);
    push_line(&mut handed, lines)?;
    command_of(alloc, words, handed.as_str())
}

/// Those of the worked commands that have these ids, with a space between two.
fn named_commands(alloc: Global, ids: &str) -> Result<Vec<Command>, Trouble> {
    let mut commands = Vec::new(alloc);
    for id in ids.split(' ') {
        commands.push(worked(alloc, id)?)?;
    }
    Ok(commands)
}

/// The commands that are named, or those that are handed where none is named.
pub fn commands_of(alloc: Global, ids: &str, handed: &str) -> Result<Vec<Command>, Trouble> {
    if ids.is_empty() {
        handed_commands(alloc, handed)
    } else {
        named_commands(alloc, ids)
    }
}

/// Commands, with an empty line between two.
fn handed_commands(alloc: Global, handed: &str) -> Result<Vec<Command>, Trouble> {
    let mut commands = Vec::new(alloc);
    for part in handed.split("\n\n") {
        if !part.trim().is_empty() {
            commands.push(command_in(alloc, part)?)?;
        }
    }
    Ok(commands)
}

/// Delivers commands, and writes the answers, and what stopped it.
pub fn deliver<S: Alter>(
    alloc: Global,
    engine: &mut Engine<S>,
    work: Work<'_>,
    out: &mut String,
) -> Result<(), Trouble> {
    let commands = commands_of(alloc, work.rest, work.handed)?;
    let replies = engine.deliver(alloc, &commands);
    Ok(push_replies(out, &replies)?)
}

/// A line an answer, and one for what stopped the delivery.
pub fn push_replies(out: &mut String, replies: &Replies) -> Result<(), AllocError> {
    for answer in &replies.answers {
        match *answer {
            Ok(reply) => push_answer(out, Ok(reply))?,
            Err(why) => push_answer(out, Err(Fault::Refused(why)))?,
        }
    }
    match replies.stop {
        Some(fault) => write!(out, "stopped: {fault:?}\n"),
        None => Ok(()),
    }
}
