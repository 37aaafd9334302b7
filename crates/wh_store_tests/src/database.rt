//! Steps on a database in memory, which may be no warehouse: by SQL, and by the calls of its tables.

use crate::questions::answer;
use crate::rows::{columns_of, push_number_line};
use crate::trouble::Trouble;
use crate::words::{Step, push_answer, push_number};
use crate::writing::edit_alone;
use sqlite::{Alter, Connection};
use std::alloc::Global;
use wh_day::Value;
use wh_rows::tables::Meta;
use wh_sql::{has_tables, is_any_taken};
use wh_store::{Limits, Tables, Writing};

/// A step on the connection.
pub fn on_connection<S: Alter>(
    alloc: Global,
    conn: &mut Connection<S>,
    step: Step<'_>,
    out: &mut String,
) -> Result<(), Trouble> {
    match step.verb {
        "sql" => Ok(conn.execute_batch(step.rest)?),
        "bound" => run_bound(alloc, conn, step, out),
        "number" => number(conn, step.rest, out),
        "status" => status(conn, out),
        _ => Err(Trouble::Unknown),
    }
}

/// A step on the tables over the connection, whatever they hold. What is written is written in a transaction of the step's own.
pub fn on_any_tables<S: Alter>(
    alloc: Global,
    tables: &mut Tables<S>,
    step: Step<'_>,
    out: &mut String,
) -> Result<(), Trouble> {
    match step.verb {
        "create" => create(alloc, tables),
        "put" | "row" | "remove" | "past" | "rekey" | "clear" => {
            edit_alone(alloc, tables, step, out)
        }
        _ => answer(alloc, tables, step, out),
    }
}

/// Makes the ten tables, with no row in them.
fn create<S: Alter>(alloc: Global, tables: &mut Tables<S>) -> Result<(), Trouble> {
    let mut writing = tables.begin()?;
    writing.init(alloc, Limits::greatest())?;
    clear_meta(alloc, &mut writing)?;
    writing.commit()?;
    Ok(())
}

/// Takes out the rows of meta that a new warehouse has.
fn clear_meta<S: Alter>(alloc: Global, writing: &mut Writing<'_, S>) -> Result<(), Trouble> {
    for name in ["changes_max", "commands_max", "facts_max", "format"] {
        writing.remove::<Meta>(alloc, &Value::new(alloc, name)?)?;
    }
    Ok(())
}

/// The number that a query answers.
fn number<S: Alter>(conn: &mut Connection<S>, text: &str, out: &mut String) -> Result<(), Trouble> {
    let number: i64 = conn.query_row(text, &[])?.get(0)?;
    push_number(out, number)?;
    out.push_str("\n")?;
    Ok(())
}

/// Runs a text with the values that it is handed as its parameters, and tells how many rows it changed.
fn run_bound<S: Alter>(
    alloc: Global,
    conn: &mut Connection<S>,
    step: Step<'_>,
    out: &mut String,
) -> Result<(), Trouble> {
    let row = columns_of(alloc, step.body)?;
    let mut params = Vec::new(alloc);
    for at in 0..row.column_count() {
        params.push(row.get_ref(at)?)?;
    }
    let changed = conn.execute(step.rest, &params)?;
    push_number_line(out, changed as u64)
}

/// Whether one of the ten names is taken, whether the ten tables are there, and whether a transaction is under way.
fn status<S: Alter>(conn: &Connection<S>, out: &mut String) -> Result<(), Trouble> {
    let taken = is_any_taken(conn);
    let whole = has_tables(conn);
    let text = match (taken, whole) {
        (false, false) => "free",
        (true, false) => "taken",
        (true, true) => "taken by the ten tables",
        (false, true) => "free with the ten tables",
    };
    push_answer(out, text)?;
    let mode = if conn.is_autocommit() {
        "at rest"
    } else {
        "in a transaction"
    };
    Ok(push_answer(out, mode)?)
}
