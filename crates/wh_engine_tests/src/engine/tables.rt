//! What a database holds, with no engine over it. The functions are generic in the store, so that few proofs carry the state of one.

use crate::engine::columns::{push_row, push_table, push_tables};
use crate::trouble::Trouble;
use sqlite::{Alter, Connection};
use std::alloc::Global;
use std::fmt::Write;
use wh_rows::{Table, tables};
use wh_scenarios::{number, parted};
use wh_store::{Format, Tables, open};

/// What came of a task, in lines.
pub type Answer = Result<String, Trouble>;

/// `sql TEXT` or `number TEXT`.
pub fn run<S: Alter + Drop>(
    mut conn: Connection<S>,
    verb: &str,
    text: &str,
    out: &mut String,
) -> Result<Connection<S>, Trouble> {
    match verb {
        "sql" => conn.execute_batch(text)?,
        "number" => push_queried(&mut conn, text, out)?,
        _ => return Err(Trouble),
    }
    Ok(conn)
}

fn push_queried<S: Alter>(
    conn: &mut Connection<S>,
    text: &str,
    out: &mut String,
) -> Result<(), Trouble> {
    let number: i64 = conn.query_row(text, &[])?.get(0)?;
    Ok(write!(out, "{number}\n")?)
}

/// `NAME`: the rows of a table.
pub fn show_table<S: Alter>(
    alloc: Global,
    tables: &mut Tables<S>,
    name: &str,
    out: &mut String,
) -> Result<(), Trouble> {
    match Table::from_name(name) {
        Some(table) => push_table(alloc, tables, table, out),
        None => Err(Trouble),
    }
}

/// `NUMBER`: the row of a command.
fn show_command<S: Alter>(
    alloc: Global,
    tables: &mut Tables<S>,
    word: &str,
    out: &mut String,
) -> Result<(), Trouble> {
    match tables.get::<tables::Command>(alloc, &number(word)?)? {
        Some(row) => Ok(push_row(out, Table::Command, &row)?),
        None => Err(Trouble),
    }
}

/// What the tables of a format answer to words; `all` are all that it has.
fn look<S: Alter>(
    alloc: Global,
    tables: &mut Tables<S>,
    format: Format,
    words: &str,
    out: &mut String,
) -> Result<(), Trouble> {
    let (verb, rest) = parted(words, ' ');
    match verb {
        "table" => show_table(alloc, tables, rest, out),
        "command" => show_command(alloc, tables, rest, out),
        "all" => push_tables(alloc, tables, format, out),
        _ => Err(Trouble),
    }
}

fn looked<S: Alter>(alloc: Global, tables: &mut Tables<S>, format: Format, words: &str) -> Answer {
    let mut out = String::new(alloc);
    look(alloc, tables, format, words, &mut out)?;
    Ok(out)
}

/// What the tables of a warehouse answer to words.
pub fn look_over<S: Alter + Drop>(
    alloc: Global,
    conn: Connection<S>,
    words: &str,
) -> (Connection<S>, Answer) {
    match open(alloc, conn, Format::Two) {
        Ok((mut tables, format)) => {
            let answer = looked(alloc, &mut tables, format, words);
            (tables.close(), answer)
        }
        Err((_, conn)) => (conn, Err(Trouble)),
    }
}

/// All tables of a warehouse.
pub fn all_over<S: Alter + Drop>(alloc: Global, conn: Connection<S>) -> (Connection<S>, Answer) {
    look_over(alloc, conn, "all")
}
