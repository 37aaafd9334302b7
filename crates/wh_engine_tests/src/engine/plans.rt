//! What a command would write: a line an edit, with its table and its key.

use crate::engine::asking::command_of;
use crate::trouble::Trouble;
use sqlite::Alter;
use std::alloc::{AllocError, Global};
use std::fmt::Write;
use wh_day::{DateRow, Day, Value};
use wh_engine::Engine;
use wh_history::{DimRow, Edit};
use wh_plan::{Edits, FactEdit};
use wh_rows::{
    ChangeKey, ChangeRow, CommandRow, LineKey, MemberKey, MemberRow, MetaRow, ProfileRow, VoidRow,
};
use wh_scenarios::push_number;

/// A ticket and the number of one of its lines.
fn push_line(out: &mut String, ticket: &Value, line: u32) -> Result<(), AllocError> {
    out.push_str(ticket.as_str())?;
    out.push_str(" ")?;
    push_number(out, u64::from(line))
}

/// A row that has a key, or a key.
trait Keyed {
    fn push_key(&self, out: &mut String) -> Result<(), AllocError>;
}

impl Keyed for u64 {
    fn push_key(&self, out: &mut String) -> Result<(), AllocError> {
        push_number(out, *self)
    }
}

impl Keyed for Day {
    fn push_key(&self, out: &mut String) -> Result<(), AllocError> {
        push_number(out, u64::from(self.key()))
    }
}

impl Keyed for MemberKey {
    fn push_key(&self, out: &mut String) -> Result<(), AllocError> {
        out.push_str(self.dim.word())?;
        out.push_str(" ")?;
        push_number(out, self.durable)
    }
}

impl Keyed for ChangeKey {
    fn push_key(&self, out: &mut String) -> Result<(), AllocError> {
        push_number(out, self.command)?;
        out.push_str(" ")?;
        push_number(out, self.place)
    }
}

impl Keyed for CommandRow {
    fn push_key(&self, out: &mut String) -> Result<(), AllocError> {
        push_number(out, self.number)
    }
}

impl Keyed for MemberRow {
    fn push_key(&self, out: &mut String) -> Result<(), AllocError> {
        let key = MemberKey {
            dim: self.dim,
            durable: self.durable,
        };
        key.push_key(out)
    }
}

impl Keyed for Value {
    fn push_key(&self, out: &mut String) -> Result<(), AllocError> {
        out.push_str(self.as_str())
    }
}

impl Keyed for MetaRow {
    fn push_key(&self, out: &mut String) -> Result<(), AllocError> {
        self.name.push_key(out)
    }
}

impl Keyed for ChangeRow {
    fn push_key(&self, out: &mut String) -> Result<(), AllocError> {
        let key = ChangeKey {
            command: self.command,
            place: self.place,
        };
        key.push_key(out)
    }
}

impl Keyed for LineKey {
    fn push_key(&self, out: &mut String) -> Result<(), AllocError> {
        push_line(out, &self.ticket, self.line)
    }
}

impl Keyed for VoidRow {
    fn push_key(&self, out: &mut String) -> Result<(), AllocError> {
        push_line(out, &self.ticket, self.line)
    }
}

impl Keyed for DimRow {
    fn push_key(&self, out: &mut String) -> Result<(), AllocError> {
        push_number(out, self.surrogate)
    }
}

impl Keyed for ProfileRow {
    fn push_key(&self, out: &mut String) -> Result<(), AllocError> {
        push_number(out, self.number)
    }
}

impl Keyed for DateRow {
    fn push_key(&self, out: &mut String) -> Result<(), AllocError> {
        push_number(out, u64::from(self.date_key.key()))
    }
}

fn push_keyed<K: Keyed>(
    out: &mut String,
    word: &str,
    table: &str,
    of: &K,
) -> Result<(), AllocError> {
    out.push_str(word)?;
    out.push_str(table)?;
    of.push_key(out)?;
    out.push_str("\n")
}

fn push_table<R: Keyed, K: Keyed>(
    out: &mut String,
    table: &str,
    edits: &[Edit<R, K>],
) -> Result<(), AllocError> {
    for edit in edits {
        match edit {
            Edit::Put(row) => push_keyed(out, "put ", table, row)?,
            Edit::Remove(key) => push_keyed(out, "remove ", table, key)?,
        }
    }
    Ok(())
}

fn push_fact(out: &mut String, table: &str, edit: &FactEdit) -> Result<(), AllocError> {
    let (word, ticket, line) = match edit {
        FactEdit::Row(Edit::Put(fact)) => ("put", &fact.ticket, fact.line),
        FactEdit::Row(Edit::Remove(key)) => ("remove", &key.ticket, key.line),
        FactEdit::Rekey(key, _) => ("rekey", &key.ticket, key.line),
    };
    let ticket = ticket.as_str();
    write!(out, "{word} {table} {ticket} {line}\n")
}

fn push_facts(out: &mut String, table: &str, edits: &[FactEdit]) -> Result<(), AllocError> {
    for edit in edits {
        push_fact(out, table, edit)?;
    }
    Ok(())
}

fn push_edits(out: &mut String, edits: &Edits) -> Result<(), AllocError> {
    push_table(out, "meta ", &edits.meta)?;
    push_table(out, "command ", &edits.commands)?;
    push_table(out, "member ", &edits.members)?;
    push_table(out, "change ", &edits.changes)?;
    push_table(out, "product ", &edits.products)?;
    push_table(out, "store ", &edits.stores)?;
    push_table(out, "customer ", &edits.customers)?;
    push_table(out, "profile ", &edits.profiles)?;
    push_table(out, "calendar ", &edits.calendar)?;
    push_facts(out, "fact", &edits.facts)?;
    push_facts(out, "fact2", &edits.facts2)?;
    push_table(out, "void ", &edits.voids)
}

/// `KIND ID`: what a command of these bytes would write.
pub fn plan<S: Alter>(
    alloc: Global,
    engine: &mut Engine<S>,
    words: &str,
    bytes: &str,
    out: &mut String,
) -> Result<(), Trouble> {
    let command = command_of(alloc, words, bytes)?;
    match engine.plan(alloc, &command) {
        Ok(edits) => Ok(push_edits(out, &edits)?),
        Err(fault) => Ok(write!(out, "{fault:?}\n")?),
    }
}
