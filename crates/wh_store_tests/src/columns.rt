//! Warehouses that were changed by hand: values out of their types and at their edges, and columns that are missing.
//!
//! `columns TABLE (VALUES)` has handed a line for each column, with its kind. The values of a kind stand in `KINDS`: `good` ones
//! are read; `bad` ones are out of the type, though a column of the warehouse takes them; `other` ones are of another kind, which
//! only a column without a type takes. Each value is written into its column of a table with that one row, and the table is read.
//! The answer is a line for each value that came out otherwise, and then how many there were.
//!
//! `missed TABLE COLUMN COLUMN ..` makes the table by hand without each column in turn, and with all of them, and opens the
//! warehouse. The answers are how often there was no warehouse, and what it is with all of them.

use crate::opening::{changed, found, opened, run};
use crate::rows::{on_table, push_number_line};
use crate::trouble::Trouble;
use crate::words::{Step, push_answer, step_of};
use sqlite::{Alter, Connection};
use std::alloc::{AllocError, Global};
use wh_rows::Table;
use wh_scenarios::parted;
use wh_store::{OpenFault, Tables};

/// The values of each kind.
const KINDS: &str = "
number good 0; 1; 9999999
number bad -1; 10000000; 9223372036854775807; 'one'; ''; 1.5; x'31'
number other '1'; 1.0; NULL; x'31'
number_key good 0; 1; 9999999
number_key bad -1; 10000000; 9223372036854775807
number_key other '1'; 1.0; NULL; x'31'
day good 19000101; 20000229; 20240229; 99991231
day bad 0; 19000100; 18991231; 19000001; 20230229; 20240230; 21000229; 20240431; 20240132; 20241301; 20240010; 99991232; 99991301; 100000101; -20240101; '2024-01-01'; 20240101.5; x'32'
day other '20240101'; 20240101.0; NULL; x'31'
day_key good 19000101; 20000229; 20240229; 99991231
day_key bad 0; 19000100; 18991231; 20230229; 20241301; 99991232; -20240101
day_key other '20240101'; 20240101.0; NULL; x'31'
natural good 'a'; '-_.'; 'abcdefghijklmnopqrstuvwxyz-_.012'; 'AZ09'
natural bad ''; 'abcdefghijklmnopqrstuvwxyz-_.0123'; 'P 1'; 'P,1'; 'P/1'; 'Pé'; '(none)'; '(no card)'; CAST(x'5000' AS TEXT); CAST(x'ff' AS TEXT); x'5031'
natural other 5; 1.5; NULL; x'41'
id good 'a'; 'abcdefghijklmnopqrstuvwxyz-_.ABCDEFGHIJK'; 'AZ09'
id bad ''; 'abcdefghijklmnopqrstuvwxyz-_.ABCDEFGHIJKL'; 'a b'; 'é'; '(none)'; CAST(x'ff' AS TEXT); x'61'
id other 5; 1.5; NULL; x'41'
ticket good 'a'; 'abcdefghijklmnop-_.9'; 'AZ09'
ticket bad ''; 'abcdefghijklmnop-_.99'; 'T 1'; 'é'; '(none)'; CAST(x'ff' AS TEXT); x'54'
ticket other 5; 1.5; NULL; x'41'
kind good 'init'; 'migrate'; 'product'; 'store'; 'customer'; 'sales'
kind bad ''; 'sale'; 'Sales'; 'sales '; 'voids'; CAST(x'ff' AS TEXT); x'73616c6573'
kind other 5; 1.5; NULL; x'41'
bytes good x''; x'00'; x'ff0a'
bytes bad 'text'; ''; 5; 1.5
bytes other NULL; 1; 'text'
dim good 1; 2; 3
dim bad 0; 4; -1; 'product'; 1.5; x'01'
dim other '1'; 1.0; NULL; x'31'
flag good 0; 1
flag bad 2; -1; 'yes'; 0.5; x'01'
flag other '1'; 1.0; NULL; x'31'
slot good ''; 'a'; ' '; 'a (b)'; 'abcdefghijklmnopqrstuvwxyz ABCDEFGHIJKLMNOPQRSTUVWXYZ 123456'; 'éééééééééééééééééééééééééééééé'; '(none)'; '(unknown)'; '(no card)'
slot bad 'abcdefghijklmnopqrstuvwxyz ABCDEFGHIJKLMNOPQRSTUVWXYZ 1234567'; 'ééééééééééééééééééééééééééééééé'; '('; '(other)'; '(none) '; '(None)'; CAST(x'610062' AS TEXT); CAST(x'0a' AS TEXT); CAST(x'1f' AS TEXT); CAST(x'7f' AS TEXT); CAST(x'ff' AS TEXT); CAST(x'61c3' AS TEXT); x'41'; x''
slot other 5; 1.5; NULL; x'41'
any_text good ''; '(anything), ééé'; CAST(x'0a7f' AS TEXT)
any_text bad x'41'; x''; CAST(x'ff' AS TEXT)
any_text other 5; 1.5; NULL; x'41'
any_number good 0; -9223372036854775808; 9223372036854775807
any_number bad 'one'; ''; 1.5; x'31'
any_number other '1'; 1.0; NULL; x'31'
line good 1; 9999
line bad 0; 10000; -1; 'one'; 1.5; x'31'
line other '1'; 1.0; NULL; x'31'
quantity good -9999; 0; 9999
quantity bad 10000; -10000; 'one'; 0.5; x'31'
quantity other '1'; 1.0; NULL; x'31'
amount good -999999999; 0; 999999999
amount bad 1000000000; -1000000000; 9223372036854775807; -9223372036854775808; 'one'; 0.5; x'31'
amount other '1'; 1.0; NULL; x'31'
no_card good '(no card)'
not_no_card bad '(no card)'
";

/// The values of a kind: `good`, `bad` or `other`.
fn values_of(kind: &str, class: &str) -> &'static str {
    for line in KINDS.lines() {
        let (name, rest) = parted(line, ' ');
        let (group, values) = parted(rest, ' ');
        if name == kind && group == class {
            return values;
        }
    }
    ""
}

/// A column of a table, and the row that the table has.
#[derive(Clone, Copy)]
struct Column<'a> {
    table: Table,
    row: &'a str,
    name: &'a str,
}

/// A database on which values are tried, and how many were.
#[derive(Drop)]
struct Trial<S: Alter> {
    conn: Connection<S>,
    tried: u64,
}

/// `TABLE (VALUES)`, with the columns that it is handed.
pub fn columns(alloc: Global, step: Step<'_>, out: &mut String) -> Result<(), Trouble> {
    let (name, _) = parted(step.rest, ' ');
    let untyped = untyped(alloc, name, step.body)?;
    let own = Trial {
        conn: changed(alloc, "")?,
        tried: 0,
    };
    let other = Trial {
        conn: changed(alloc, untyped.as_str())?,
        tried: 0,
    };
    let tried = each_column(alloc, own, other, step, out)?;
    push_number_line(out, tried)
}

/// Makes the table anew, with columns of no type.
fn untyped(alloc: Global, name: &str, body: &str) -> Result<String, AllocError> {
    let mut list = String::new(alloc);
    for line in body.lines() {
        let (column, _) = parted(line.trim_start(), ' ');
        list.push_str(if list.is_empty() { "" } else { ", " })?;
        list.push_str(column)?;
    }
    format!(in alloc; "DROP TABLE {name}; CREATE TABLE {name} ({list})")
}

/// Tries the values of each column, and tells how many there were.
fn each_column<S: Alter + Drop>(
    alloc: Global,
    own: Trial<S>,
    other: Trial<S>,
    step: Step<'_>,
    out: &mut String,
) -> Result<u64, Trouble> {
    let (name, row) = parted(step.rest, ' ');
    let Some(table) = Table::from_name(name) else {
        return Err(Trouble::Unknown);
    };
    let (mut own, mut other) = (own, other);
    for line in step.body.lines() {
        let (name, kind) = parted(line.trim_start(), ' ');
        let column = Column { table, row, name };
        own = each_value(alloc, own, column, (values_of(kind, "good"), true), out)?;
        own = each_value(alloc, own, column, (values_of(kind, "bad"), false), out)?;
        other = each_value(alloc, other, column, (values_of(kind, "other"), false), out)?;
    }
    Ok(own.tried.saturating_add(other.tried))
}

/// Tries values that are all good, or all not, and prints each that is read otherwise.
fn each_value<S: Alter + Drop>(
    alloc: Global,
    trial: Trial<S>,
    column: Column<'_>,
    (values, are_good): (&str, bool),
    out: &mut String,
) -> Result<Trial<S>, Trouble> {
    let Trial {
        mut conn,
        mut tried,
    } = trial;
    for value in values.split_terminator("; ") {
        let text = text_of(alloc, column, value)?;
        let (again, is_good) = is_read(alloc, conn, column.table, text.as_str())?;
        if is_good != are_good {
            push_answer(out, text.as_str())?;
        }
        conn = again;
        tried = tried.saturating_add(1);
    }
    Ok(Trial { conn, tried })
}

/// Leaves the row alone in the table.
fn row_alone(alloc: Global, column: Column<'_>) -> Result<String, AllocError> {
    let (table, row) = (column.table.name(), column.row);
    format!(in alloc; "DELETE FROM {table}; INSERT INTO {table} VALUES {row}")
}

/// Leaves it there with a value in the column.
fn text_of(alloc: Global, column: Column<'_>, value: &str) -> Result<String, AllocError> {
    let first = row_alone(alloc, column)?;
    let (table, name) = (column.table.name(), column.name);
    format!(in alloc; "{first}; UPDATE {table} SET {name} = {value}")
}

/// Whether the only row of a table is read after this text.
fn is_read<S: Alter + Drop>(
    alloc: Global,
    conn: Connection<S>,
    table: Table,
    text: &str,
) -> Result<(Connection<S>, bool), Trouble> {
    let mut tables = opened(alloc, run(conn, text)?)?;
    let is_good = is_whole(alloc, &mut tables, table)?;
    Ok((tables.close(), is_good))
}

/// Whether the only row of a table is read, and not found to be damaged.
fn is_whole<S: Alter>(
    alloc: Global,
    tables: &mut Tables<S>,
    table: Table,
) -> Result<bool, Trouble> {
    let mut answer = String::new(alloc);
    match on_table(alloc, tables, table, step_of("length"), &mut answer) {
        Ok(()) if answer.as_str() == "1\n" => Ok(true),
        Err(Trouble::Damaged(found)) if found == table => Ok(false),
        Ok(()) => Err(Trouble::Unknown),
        Err(trouble) => Err(trouble),
    }
}

/// Columns but one, or all where none has that number.
fn columns_but(alloc: Global, columns: &str, left_out: usize) -> Result<String, AllocError> {
    let mut out = String::new(alloc);
    for (at, name) in columns.split(' ').enumerate() {
        if at != left_out {
            out.push_str(if out.is_empty() { "" } else { ", " })?;
            out.push_str(name)?;
        }
    }
    Ok(out)
}

/// Makes a table anew by hand, without one of its columns.
fn anew(alloc: Global, name: &str, columns: &str, left_out: usize) -> Result<String, AllocError> {
    let others = columns_but(alloc, columns, left_out)?;
    let format = if name == "meta" && left_out > 1 {
        "INSERT INTO meta VALUES ('format', 1)"
    } else {
        ""
    };
    format!(in alloc; "DROP TABLE {name}; CREATE TABLE {name} ({others}); {format}")
}

/// Whether a warehouse is found after this text.
fn is_found<S: Alter + Drop>(
    alloc: Global,
    conn: Connection<S>,
    text: &str,
) -> Result<(Connection<S>, bool), Trouble> {
    match found(alloc, run(conn, text)?) {
        Ok(held) => Ok((held.tables.close(), true)),
        Err((OpenFault::NotAWarehouse, conn)) => Ok((conn, false)),
        Err((fault, _)) => Err(Trouble::Unopened(fault)),
    }
}

/// `TABLE COLUMN COLUMN ..`.
pub fn missed(alloc: Global, step: Step<'_>, out: &mut String) -> Result<(), Trouble> {
    let conn = changed(alloc, "")?;
    let (refused, is_whole) = each_missed(alloc, conn, step.rest)?;
    push_number_line(out, refused)?;
    Ok(push_answer(out, if is_whole { "whole" } else { "no warehouse" })?)
}

/// How often a warehouse was not found, and whether it is with all columns.
fn each_missed<S: Alter + Drop>(
    alloc: Global,
    conn: Connection<S>,
    words: &str,
) -> Result<(u64, bool), Trouble> {
    let (name, columns) = parted(words, ' ');
    let count = columns.split(' ').count();
    let mut conn = conn;
    let mut refused = 0u64;
    for left_out in 0..count {
        let text = anew(alloc, name, columns, left_out)?;
        let (again, is_whole) = is_found(alloc, conn, text.as_str())?;
        if !is_whole {
            refused = refused.saturating_add(1);
        }
        conn = again;
    }
    let text = anew(alloc, name, columns, count)?;
    let (_, is_whole) = is_found(alloc, conn, text.as_str())?;
    Ok((refused, is_whole))
}
