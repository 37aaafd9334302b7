//! Members that are carried to another warehouse.

use crate::engine::asking::push_applied;
use crate::engine::readings::push_bytes;
use crate::trouble::Trouble;
use sqlite::Alter;
use sqlite_value::value::Bytes;
use std::alloc::Global;
use wh_batch::BatchKind;
use wh_day::Value;
use wh_engine::{Command, CommandKind, Engine, Part};
use wh_policy::Dim;
use wh_scenarios::push_number;

/// More parts than any warehouse of a scenario has.
const PARTS_MAX: usize = 100;

/// Sends another warehouse the parts of all dimensions in turn, and writes each with its answer.
pub fn carry<S: Alter, N: Alter>(
    alloc: Global,
    engine: &mut Engine<S>,
    next: &mut Engine<N>,
    out: &mut String,
) -> Result<(), Trouble> {
    carry_dimension(alloc, engine, next, Dim::Product, out)?;
    carry_dimension(alloc, engine, next, Dim::Store, out)?;
    carry_dimension(alloc, engine, next, Dim::Customer, out)
}

fn carry_dimension<S: Alter, N: Alter>(
    alloc: Global,
    engine: &mut Engine<S>,
    next: &mut Engine<N>,
    dim: Dim,
    out: &mut String,
) -> Result<(), Trouble> {
    let mut from: usize = 0;
    for _ in 0..PARTS_MAX {
        let part = part_from(alloc, engine, dim, from)?;
        if part.records == 0 {
            return Ok(());
        }
        send_part(alloc, next, dim, from, &part, out)?;
        from = from.saturating_add(part.records);
    }
    Err(Trouble)
}

fn part_from<S: Alter>(
    alloc: Global,
    engine: &mut Engine<S>,
    dim: Dim,
    from: usize,
) -> Result<Part, Trouble> {
    match engine.carried_batch(alloc, dim, from) {
        Ok(part) => Ok(part),
        Err(_) => Err(Trouble),
    }
}

fn send_part<N: Alter>(
    alloc: Global,
    next: &mut Engine<N>,
    dim: Dim,
    from: usize,
    part: &Part,
    out: &mut String,
) -> Result<(), Trouble> {
    push_bytes(out, &part.text)?;
    let command = part_command(alloc, dim, from, part)?;
    push_applied(alloc, next, &command, out)
}

/// The command that sends a part, under an id of its own.
fn part_command(alloc: Global, dim: Dim, from: usize, part: &Part) -> Result<Command, Trouble> {
    let mut id = String::from_str(alloc, dim.word())?;
    push_number(&mut id, from as u64)?;
    Ok(Command {
        id: Value::new(alloc, id.as_str())?,
        kind: CommandKind::Batch(BatchKind::Dimension(dim)),
        bytes: Bytes::from_slice(alloc, &part.text)?,
    })
}
