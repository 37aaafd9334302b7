//! What the tables of a warehouse take with no engine over them: the reads and writes that a command is made of.
//!
//! - `count NAME`, `table NAME`: how many rows a table has, and its rows; `find ID`: the row of a command.
//! - `member NATURAL`: the durable key of a product, what it began with, and how many records are kept of it; `kept KEY`: how many records
//!   and rows have a durable key; `given KIND`: how many members a dimension has, and what the last began with.
//! - `plan NUMBER ID`: the edits of a batch of products, whose records it is handed; `write NUMBER ID`: makes them and keeps them.
//!
//! The others touch no table. They are handed the records of a product `P1` with the anchors of their days, `DAY,ANCHOR,TEXTS`:
//! - `new-members GIVEN`: the members that are after the first so many; `new-changes NUMBER RECORD`: the row of a record in a batch;
//!   `rendered`: the rows of the product.

use crate::engine::columns::{Columns, push_header, push_row, push_rows};
use crate::engine::tables::show_table;
use crate::trouble::Trouble;
use sqlite::{Connection, MemStore};
use sqlite_value::value::Bytes;
use std::alloc::{AllocError, Global};
use wh_day::{Day, NaturalKey, Value, Values};
use wh_engine::{write_edits, write_init};
use wh_history::{Change, Changes, DimensionShape, Edit, Member, Profiles};
use wh_plan::new_rows::{new_change_rows, new_member_rows};
use wh_plan::reading::{command_with, last_member, stored_changes, stored_member, stored_rows};
use wh_plan::{Edits, FactEdit, Terms, plan_batch};
use wh_policy::{Dim, DimensionRecord, Format, Policy};
use wh_rows::tables::{Calendar, Product, Profile};
use wh_rows::{Cause, CommandRow, Limits, Table};
use wh_scenarios::{number, parted, push_line, push_number};
use wh_store::{Tables, for_init};

type InMemory = Tables<MemStore>;

fn make(alloc: Global, tables: &mut InMemory, policy: &Policy) -> Result<u64, Cause> {
    let mut writing = tables.begin()?;
    let bytes = b"first_year = 2023";
    write_init(&mut writing, alloc, Limits::greatest(), policy, bytes)?;
    writing.commit()
}

/// The tables of a warehouse under the policy of a trial.
pub fn trial(alloc: Global) -> Result<InMemory, Trouble> {
    let conn = Connection::open_in_memory(alloc)?;
    match for_init(conn) {
        Ok(mut tables) => {
            make(alloc, &mut tables, &Policy::trial(alloc)?)?;
            Ok(tables)
        }
        Err(_) => Err(Trouble),
    }
}

/// A step over the tables.
pub fn step(
    alloc: Global,
    tables: &mut InMemory,
    words: &str,
    handed: &str,
    out: &mut String,
) -> Result<(), Trouble> {
    let (verb, rest) = parted(words, ' ');
    match verb {
        "plan" => push_edits(out, &plan(alloc, tables, rest, handed)?)?,
        "write" => {
            let edits = plan(alloc, tables, rest, handed)?;
            write(alloc, tables, &edits)?;
        }
        "new-members" => push_members(alloc, rest, handed, out)?,
        "new-changes" => push_changes(alloc, rest, handed, out)?,
        "rendered" => push_rendered(alloc, handed, out)?,
        _ => return read(alloc, tables, verb, rest, out),
    }
    Ok(())
}

fn read(
    alloc: Global,
    tables: &mut InMemory,
    verb: &str,
    rest: &str,
    out: &mut String,
) -> Result<(), Trouble> {
    match verb {
        "table" => show_table(alloc, tables, rest, out),
        "count" => push_count(alloc, tables, rest, out),
        "find" => find(alloc, tables, rest, out),
        "member" => push_member(alloc, tables, rest, out),
        "kept" => push_kept(alloc, tables, rest, out),
        "given" => push_given(alloc, tables, rest, out),
        _ => Err(Trouble),
    }
}

/// Numbers below what each is.
fn push_named(out: &mut String, names: &str, numbers: &[u64]) -> Result<(), AllocError> {
    push_line(out, names)?;
    push_numbers(out, numbers)
}

/// Numbers, and a line's end.
fn push_numbers(out: &mut String, numbers: &[u64]) -> Result<(), AllocError> {
    for (place, number) in numbers.iter().enumerate() {
        out.push_str(if place == 0 { "" } else { "," })?;
        push_number(out, *number)?;
    }
    out.push_str("\n")
}

fn push_count(
    alloc: Global,
    tables: &mut InMemory,
    name: &str,
    out: &mut String,
) -> Result<(), Trouble> {
    let count = match name {
        "calendar" => tables.count::<Calendar>(alloc)?,
        "profile" => tables.count::<Profile>(alloc)?,
        "product" => tables.count::<Product>(alloc)?,
        _ => return Err(Trouble),
    };
    Ok(push_numbers(out, &[count])?)
}

/// The row of a command, by its id.
fn find(alloc: Global, tables: &mut InMemory, id: &str, out: &mut String) -> Result<(), Trouble> {
    let id = Value::new(alloc, id)?;
    match command_with(tables, alloc, &id)? {
        Some(row) => Ok(push_row(out, Table::Command, &row)?),
        None => Err(Trouble),
    }
}

fn push_member(
    alloc: Global,
    tables: &mut InMemory,
    natural: &str,
    out: &mut String,
) -> Result<(), Trouble> {
    let natural = Value::new(alloc, natural)?;
    let member = stored_member(tables, alloc, Dim::Product, &natural)?;
    let changes = member.changes.as_slice().len() as u64;
    let numbers = [member.durable, member.opening, changes];
    Ok(push_named(out, "durable,opening,records", &numbers)?)
}

fn push_kept(
    alloc: Global,
    tables: &mut InMemory,
    key: &str,
    out: &mut String,
) -> Result<(), Trouble> {
    let key = number(key)?;
    let changes = stored_changes(tables, alloc, Dim::Product, key)?;
    let rows = stored_rows(tables, alloc, Dim::Product, key)?;
    let changes = changes.as_slice().len() as u64;
    let numbers = [changes, rows.len() as u64];
    Ok(push_named(out, "records,rows", &numbers)?)
}

fn push_given(
    alloc: Global,
    tables: &mut InMemory,
    name: &str,
    out: &mut String,
) -> Result<(), Trouble> {
    let dim = match name {
        "product" => Dim::Product,
        "store" => Dim::Store,
        _ => return Err(Trouble),
    };
    let last = last_member(tables, alloc, dim)?;
    let numbers = [last.durable, last.opening];
    Ok(push_named(out, "durable,opening", &numbers)?)
}

fn day_of(word: &str) -> Result<Day, Trouble> {
    Day::read(word.as_bytes()).ok_or(Trouble)
}

/// Texts that are parted by commas.
fn texts_of(alloc: Global, words: &str) -> Result<Values, AllocError> {
    let mut texts = Values::new(alloc);
    for text in words.split(',') {
        texts.push(Value::new(alloc, text)?)?;
    }
    Ok(texts)
}

/// A record: `NATURAL,DAY,TEXTS`.
fn record_of(alloc: Global, line: &str) -> Result<DimensionRecord, Trouble> {
    let (natural, rest) = parted(line, ',');
    let (day, texts) = parted(rest, ',');
    Ok(DimensionRecord {
        natural: NaturalKey::read(32, natural.as_bytes()).ok_or(Trouble)?,
        day: day_of(day)?,
        values: texts_of(alloc, texts)?,
    })
}

fn records_of(alloc: Global, handed: &str) -> Result<Vec<DimensionRecord>, Trouble> {
    let mut records = Vec::new(alloc);
    for line in handed.lines() {
        records.push(record_of(alloc, line)?)?;
    }
    Ok(records)
}

/// A change: `DAY,ANCHOR,TEXTS`.
fn change_of(alloc: Global, line: &str) -> Result<Change, Trouble> {
    let (day, rest) = parted(line, ',');
    let (anchor, texts) = parted(rest, ',');
    Ok(Change {
        day: day_of(day)?,
        anchor: number(anchor)?,
        values: texts_of(alloc, texts)?,
    })
}

fn changes_of(alloc: Global, handed: &str) -> Result<Changes, Trouble> {
    let mut changes = Changes::new(alloc);
    for line in handed.lines() {
        changes.push(change_of(alloc, line)?)?;
    }
    Ok(changes)
}

/// The product `P1` after these records.
fn touched(alloc: Global, handed: &str) -> Result<Vec<Member>, Trouble> {
    let mut members = Vec::new(alloc);
    members.push(Member {
        durable: 1,
        natural: Value::new(alloc, "P1")?,
        opening: 1,
        changes: changes_of(alloc, handed)?,
    })?;
    Ok(members)
}

fn push_members(alloc: Global, given: &str, handed: &str, out: &mut String) -> Result<(), Trouble> {
    let members = touched(alloc, handed)?;
    let rows = new_member_rows(alloc, Dim::Product, number(given)?, &members)?;
    Ok(push_rows(out, Table::Member, &rows)?)
}

fn push_changes(alloc: Global, words: &str, handed: &str, out: &mut String) -> Result<(), Trouble> {
    let (command, record) = parted(words, ' ');
    let records = records_of(alloc, record)?;
    let members = touched(alloc, handed)?;
    let rows = new_change_rows(alloc, Dim::Product, number(command)?, &members, &records)?;
    Ok(push_rows(out, Table::Change, &rows)?)
}

fn push_rendered(alloc: Global, handed: &str, out: &mut String) -> Result<(), Trouble> {
    let types = Policy::trial(alloc)?.types(alloc, Dim::Product)?;
    let profiles = Profiles::new(alloc);
    let dimension = DimensionShape {
        dim: Dim::Product,
        types: &types,
        profiles: &profiles,
    };
    let mut rows = Vec::new(alloc);
    for member in touched(alloc, handed)?.iter() {
        rows.append(&mut dimension.rows_of(alloc, member)?)?;
    }
    Ok(push_rows(out, Table::Product, &rows)?)
}

/// The row of a batch of products: `NUMBER ID`.
fn batch_row(alloc: Global, words: &str, records: usize) -> Result<CommandRow, Trouble> {
    let (place, id) = parted(words, ' ');
    Ok(CommandRow {
        number: number(place)?,
        id: Value::new(alloc, id)?,
        kind: Value::new(alloc, "product")?,
        bytes: Bytes::from_slice(alloc, b"a batch")?,
        records: records as u64,
        placeholders: 0,
    })
}

fn plan(alloc: Global, tables: &mut InMemory, words: &str, handed: &str) -> Result<Edits, Trouble> {
    let records = records_of(alloc, handed)?;
    let policy = Policy::trial(alloc)?;
    let command = batch_row(alloc, words, records.len())?;
    let terms = Terms {
        format: Format::One,
        policy: &policy,
    };
    let edits = plan_batch(tables, alloc, &terms, Dim::Product, command, &records)?;
    Ok(edits)
}

fn write(alloc: Global, tables: &mut InMemory, edits: &Edits) -> Result<u64, Cause> {
    let mut writing = tables.begin()?;
    write_edits(&mut writing, alloc, edits)?;
    writing.commit()
}

/// The edits of a command, in the order in which they are made.
fn push_edits(out: &mut String, edits: &Edits) -> Result<(), AllocError> {
    push_row_edits(out, Table::Command, &edits.commands)?;
    push_puts(out, Table::Member, &edits.members)?;
    push_puts(out, Table::Change, &edits.changes)?;
    push_row_edits(out, Table::Product, &edits.products)?;
    push_row_edits(out, Table::Store, &edits.stores)?;
    push_row_edits(out, Table::Customer, &edits.customers)?;
    push_row_edits(out, Table::Profile, &edits.profiles)?;
    push_puts(out, Table::Calendar, &edits.calendar)?;
    push_facts(out, &edits.facts)
}

fn push_name(out: &mut String, table: Table) -> Result<(), AllocError> {
    out.push_str(table.name())?;
    out.push_str(" ")
}

/// The names of a table's columns where it has edits, each edit and they after the table's name.
fn push_heading<E>(out: &mut String, table: Table, edits: &[E]) -> Result<(), AllocError> {
    if edits.is_empty() {
        return Ok(());
    }
    push_name(out, table)?;
    push_header(out, table)
}

fn push_facts(out: &mut String, edits: &[FactEdit]) -> Result<(), AllocError> {
    push_heading(out, Table::Fact, edits)?;
    for edit in edits {
        push_name(out, Table::Fact)?;
        push_fact_edit(out, edit)?;
        out.push_str("\n")?;
    }
    Ok(())
}

fn push_fact_edit(out: &mut String, edit: &FactEdit) -> Result<(), AllocError> {
    match edit {
        FactEdit::Row(Edit::Put(row)) => row.push(out),
        FactEdit::Row(Edit::Remove(line)) => {
            out.push_str("without ")?;
            out.push_str(line.ticket.as_str())
        }
        FactEdit::Rekey(line, keys) => {
            out.push_str("rekeyed ")?;
            out.push_str(line.ticket.as_str())?;
            out.push_str(" ")?;
            push_number(out, keys.product_key)
        }
    }
}

fn push_row_edits<R: Columns>(
    out: &mut String,
    table: Table,
    edits: &[Edit<R, u64>],
) -> Result<(), AllocError> {
    push_heading(out, table, edits)?;
    for edit in edits {
        push_name(out, table)?;
        match edit {
            Edit::Put(row) => row.push(out)?,
            Edit::Remove(key) => {
                out.push_str("without ")?;
                push_number(out, *key)?;
            }
        }
        out.push_str("\n")?;
    }
    Ok(())
}

/// The rows that are put of a table whose rows are never taken out.
fn push_puts<R: Columns, K>(
    out: &mut String,
    table: Table,
    edits: &[Edit<R, K>],
) -> Result<(), AllocError> {
    push_heading(out, table, edits)?;
    for edit in edits {
        push_name(out, table)?;
        match edit {
            Edit::Put(row) => row.push(out)?,
            Edit::Remove(_) => out.push_str("taken out")?,
        }
        out.push_str("\n")?;
    }
    Ok(())
}
