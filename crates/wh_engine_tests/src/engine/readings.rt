//! Steps that read a warehouse and write nothing: `records` and `query`.

use crate::engine::asking::Work;
use crate::trouble::Trouble;
use sqlite::Alter;
use std::alloc::Global;
use wh_batch::Mode;
use wh_day::Day;
use wh_engine::{Engine, Fault, Part};
use wh_policy::Dim;
use wh_query::{Column, Condition, Query, query};
use wh_report::ReportFault;
use wh_scenarios::{parted, place};

/// What such a step finds, as bytes.
pub type Found = Result<Result<Vec<u8>, Fault>, Trouble>;

/// A step of these.
pub fn read<S: Alter>(alloc: Global, engine: &mut Engine<S>, work: Work<'_>) -> Found {
    match work.verb {
        "records" => records(alloc, engine, work.rest),
        "query" => queried(alloc, engine, work.rest),
        _ => Err(Trouble),
    }
}

/// The same, as lines.
pub fn push_read<S: Alter>(
    alloc: Global,
    engine: &mut Engine<S>,
    work: Work<'_>,
    out: &mut String,
) -> Result<(), Trouble> {
    match read(alloc, engine, work)? {
        Ok(bytes) => push_bytes(out, &bytes),
        Err(_) => Err(Trouble),
    }
}

/// Adds bytes that are a text.
pub fn push_bytes(out: &mut String, bytes: &[u8]) -> Result<(), Trouble> {
    match std::str::from_utf8(bytes) {
        Ok(text) => Ok(out.push_str(text)?),
        Err(_) => Err(Trouble),
    }
}

/// `DIMENSION FROM`: the batch of what is carried of a dimension, from a record on.
fn records<S: Alter>(alloc: Global, engine: &mut Engine<S>, words: &str) -> Found {
    let (dim, from) = parted(words, ' ');
    let Some(dim) = Dim::from_word(dim) else {
        return Err(Trouble);
    };
    let from = place(from)?;
    Ok(text_of(engine.carried_batch(alloc, dim, from)))
}

fn text_of(part: Result<Part, Fault>) -> Result<Vec<u8>, Fault> {
    match part {
        Ok(part) => Ok(part.text),
        Err(fault) => Err(fault),
    }
}

/// `COLUMN.. FROM TO`, or `COLUMN.. where COLUMN=LABEL.. FROM TO`, with a `where` before each label: what was sold. A column is `ATTRIBUTE:MODE`, and a column without
/// a mode is one as it was.
fn queried<S: Alter>(alloc: Global, engine: &mut Engine<S>, words: &str) -> Found {
    let asked = asked(alloc, words)?;
    if !asked.reads(engine.policy()) {
        return Err(Trouble);
    }
    match query(alloc, engine, &asked) {
        Ok(text) => Ok(Ok(text)),
        Err(ReportFault::Warehouse(fault)) => Ok(Err(fault)),
        Err(_) => Err(Trouble),
    }
}

fn asked(alloc: Global, words: &str) -> Result<Query, Trouble> {
    let (words, to) = parted_last(words);
    let (words, from) = parted_last(words);
    let mut asked = Query::new(alloc, day(from)?, day(to)?);
    let mut parts = words.split(" where ");
    if let Some(columns) = parts.next() {
        add_columns(alloc, &mut asked, columns)?;
    }
    for condition in parts {
        add_condition(alloc, &mut asked, condition)?;
    }
    Ok(asked)
}

/// What is before the last word, and it.
fn parted_last(words: &str) -> (&str, &str) {
    words.rsplit_once(' ').unwrap_or(("", words))
}

fn day(word: &str) -> Result<Day, Trouble> {
    Day::read(word.as_bytes()).ok_or(Trouble)
}

fn add_columns(alloc: Global, asked: &mut Query, words: &str) -> Result<(), Trouble> {
    for word in words.split(' ') {
        asked.add_column(column(alloc, word)?)?;
    }
    Ok(())
}

fn add_condition(alloc: Global, asked: &mut Query, words: &str) -> Result<(), Trouble> {
    let (word, label) = parted(words, '=');
    let condition = Condition::new(alloc, column(alloc, word)?, label)?;
    Ok(asked.add_condition(condition)?)
}

fn column(alloc: Global, word: &str) -> Result<Column, Trouble> {
    let (attribute, mode) = parted(word, ':');
    let mode = if mode.is_empty() { "was" } else { mode };
    match Mode::from_word(mode) {
        Some(mode) => Ok(Column::new(alloc, attribute, mode)?),
        None => Err(Trouble),
    }
}
