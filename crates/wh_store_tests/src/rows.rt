//! Rows as a scenario writes them, `product 1, 1, 'M1', ..` for the values of SQL, and as its answers write them, below the names of their
//! columns.

use crate::shown::Shown;
use crate::trouble::Trouble;
use crate::words::{Step, line_number, number, push_answer, push_count};
use sqlite::{Alter, Connection, Row};
use std::alloc::{AllocError, Global};
use wh_day::{ParseError, Value};
use wh_history::FactKeys;
use wh_policy::Format;
use wh_rows::tables::{
    Calendar, Change, Command, Customer, Fact, Fact2, Member, Meta, Product, Profile, Store, Void,
};
use wh_rows::{Cause, LineKey, Table};
use wh_scenarios::parted;
use wh_store::{Tables, Writing};

/// The columns of these values.
pub fn columns_of(alloc: Global, values: &str) -> Result<Row, Trouble> {
    let text = format!(in alloc; "SELECT {values}")?;
    let mut conn = Connection::open_in_memory(alloc)?;
    Ok(conn.query_row(text.as_str(), &[])?)
}

/// The row of these values.
pub fn row_of<T: Shown>(alloc: Global, values: &str) -> Result<T::Row, Trouble> {
    match T::read(alloc, &columns_of(alloc, values)?) {
        Ok(row) => Ok(row),
        Err(ParseError::Memory) => Err(Trouble::Refused(Cause::Memory)),
        Err(ParseError::Fault(_)) => Err(Trouble::Damaged(T::table())),
    }
}

/// The values of the only row of a member whose durable key is its surrogate key, from that key and the text of its first slot.
pub fn member_values(alloc: Global, words: &str) -> Result<String, AllocError> {
    let (key, text) = parted(words, ' ');
    format!(in alloc;
        "{key}, {key}, 'M{key}', 19000101, 99991231, 1, '{text}', '', '', '', '', '', '', '', '', '', '', '', 0"
    )
}

/// The names of a table's columns, as the library lists them.
fn push_header(out: &mut String, table: Table) -> Result<(), AllocError> {
    out.push_str(table.name())?;
    let mut sign = " ";
    for name in table.columns() {
        out.push_str(sign)?;
        out.push_str(name)?;
        sign = ", ";
    }
    out.push_str("\n")
}

fn push_values<T: Shown>(out: &mut String, row: &T::Row) -> Result<(), Trouble> {
    out.push_str(T::table().name())?;
    out.push_str(" ")?;
    T::push(out, row)?;
    out.push_str("\n")?;
    Ok(())
}

/// A row below its columns' names.
fn push_row<T: Shown>(out: &mut String, row: &T::Row) -> Result<(), Trouble> {
    push_header(out, T::table())?;
    push_values::<T>(out, row)
}

/// Rows below their columns' names, and nothing where there is none.
pub fn push_rows<T: Shown>(out: &mut String, rows: &[T::Row]) -> Result<(), Trouble> {
    if rows.is_empty() {
        return Ok(());
    }
    push_header(out, T::table())?;
    for row in rows {
        push_values::<T>(out, row)?;
    }
    Ok(())
}

pub fn push_number_line(out: &mut String, count: u64) -> Result<(), Trouble> {
    push_count(out, count)?;
    out.push_str("\n")?;
    Ok(())
}

fn all<T: Shown, S: Alter>(
    alloc: Global,
    tables: &mut Tables<S>,
    out: &mut String,
) -> Result<(), Trouble> {
    let rows = tables.all::<T>(alloc)?;
    push_rows::<T>(out, &rows)
}

fn nth<T: Shown, S: Alter>(
    alloc: Global,
    tables: &mut Tables<S>,
    place: &str,
    out: &mut String,
) -> Result<(), Trouble> {
    let at = number(place)?;
    let rows = tables.all::<T>(alloc)?;
    match rows.get(at as usize) {
        Some(row) => push_row::<T>(out, row),
        None => Ok(()),
    }
}

fn at<T: Shown, S: Alter>(
    alloc: Global,
    tables: &mut Tables<S>,
    words: &str,
    out: &mut String,
) -> Result<(), Trouble> {
    let key = T::key_of(alloc, words)?;
    match tables.get::<T>(alloc, &key)? {
        Some(row) => push_row::<T>(out, &row),
        None => Ok(()),
    }
}

fn length<T: Shown, S: Alter>(
    alloc: Global,
    tables: &mut Tables<S>,
    out: &mut String,
) -> Result<(), Trouble> {
    let rows = tables.all::<T>(alloc)?;
    push_number_line(out, rows.len() as u64)
}

fn read<T: Shown>(alloc: Global, values: &str, out: &mut String) -> Result<(), Trouble> {
    let row = row_of::<T>(alloc, values)?;
    push_row::<T>(out, &row)
}

fn on_rows<T: Shown, S: Alter>(
    alloc: Global,
    tables: &mut Tables<S>,
    step: Step<'_>,
    out: &mut String,
) -> Result<(), Trouble> {
    match step.verb {
        "all" => all::<T, S>(alloc, tables, out),
        "get" => at::<T, S>(alloc, tables, step.rest, out),
        "count" => push_number_line(out, tables.count::<T>(alloc)?),
        "length" => length::<T, S>(alloc, tables, out),
        "nth" => nth::<T, S>(alloc, tables, step.rest, out),
        "read" => read::<T>(alloc, step.rest, out),
        "table" => Ok(push_answer(out, T::table().name())?),
        _ => Err(Trouble::Unknown),
    }
}

/// A step that reads rows of a table.
pub fn on_table<S: Alter>(
    alloc: Global,
    tables: &mut Tables<S>,
    table: Table,
    step: Step<'_>,
    out: &mut String,
) -> Result<(), Trouble> {
    match table {
        Table::Meta => on_rows::<Meta, S>(alloc, tables, step, out),
        Table::Command => on_rows::<Command, S>(alloc, tables, step, out),
        Table::Member => on_rows::<Member, S>(alloc, tables, step, out),
        Table::Change => on_rows::<Change, S>(alloc, tables, step, out),
        Table::Product => on_rows::<Product, S>(alloc, tables, step, out),
        Table::Store => on_rows::<Store, S>(alloc, tables, step, out),
        Table::Customer => on_rows::<Customer, S>(alloc, tables, step, out),
        Table::Profile => on_rows::<Profile, S>(alloc, tables, step, out),
        Table::Calendar => on_rows::<Calendar, S>(alloc, tables, step, out),
        Table::Fact => on_rows::<Fact, S>(alloc, tables, step, out),
        Table::Fact2 => on_rows::<Fact2, S>(alloc, tables, step, out),
        Table::Void => on_rows::<Void, S>(alloc, tables, step, out),
    }
}

/// The table that is named first, and what is after it.
pub fn table_of(step: Step<'_>) -> Result<(Table, Step<'_>), Trouble> {
    let (name, rest) = parted(step.rest, ' ');
    match Table::from_name(name) {
        Some(table) => Ok((table, Step { rest, ..step })),
        None => Err(Trouble::Unknown),
    }
}

fn put<T: Shown, S: Alter>(
    alloc: Global,
    writing: &mut Writing<'_, S>,
    values: &str,
) -> Result<(), Trouble> {
    let row = row_of::<T>(alloc, values)?;
    Ok(writing.put::<T>(alloc, &row)?)
}

fn put_member<T: Shown, S: Alter>(
    alloc: Global,
    writing: &mut Writing<'_, S>,
    words: &str,
) -> Result<(), Trouble> {
    let values = member_values(alloc, words)?;
    put::<T, S>(alloc, writing, values.as_str())
}

fn remove<T: Shown, S: Alter>(
    alloc: Global,
    writing: &mut Writing<'_, S>,
    words: &str,
) -> Result<(), Trouble> {
    let key = T::key_of(alloc, words)?;
    Ok(writing.remove::<T>(alloc, &key)?)
}

fn edit_rows<T: Shown, S: Alter>(
    alloc: Global,
    writing: &mut Writing<'_, S>,
    step: Step<'_>,
) -> Result<(), Trouble> {
    match step.verb {
        "put" => put::<T, S>(alloc, writing, step.rest),
        "row" => put_member::<T, S>(alloc, writing, step.rest),
        "remove" => remove::<T, S>(alloc, writing, step.rest),
        _ => Err(Trouble::Unknown),
    }
}

/// A step that writes a row of a table.
pub fn edit_table<S: Alter>(
    alloc: Global,
    writing: &mut Writing<'_, S>,
    step: Step<'_>,
) -> Result<(), Trouble> {
    let (table, step) = table_of(step)?;
    match table {
        Table::Meta => edit_rows::<Meta, S>(alloc, writing, step),
        Table::Command => edit_rows::<Command, S>(alloc, writing, step),
        Table::Member => edit_rows::<Member, S>(alloc, writing, step),
        Table::Change => edit_rows::<Change, S>(alloc, writing, step),
        Table::Product => edit_rows::<Product, S>(alloc, writing, step),
        Table::Store => edit_rows::<Store, S>(alloc, writing, step),
        Table::Customer => edit_rows::<Customer, S>(alloc, writing, step),
        Table::Profile => edit_rows::<Profile, S>(alloc, writing, step),
        Table::Calendar => edit_rows::<Calendar, S>(alloc, writing, step),
        Table::Fact => edit_rows::<Fact, S>(alloc, writing, step),
        Table::Fact2 => edit_rows::<Fact2, S>(alloc, writing, step),
        Table::Void => edit_rows::<Void, S>(alloc, writing, step),
    }
}

/// `TICKET LINE STORE PRODUCT CUSTOMER PROFILE`: gives a fact of a format these keys.
pub fn rekey<S: Alter>(
    alloc: Global,
    writing: &mut Writing<'_, S>,
    format: Format,
    words: &str,
) -> Result<(), Trouble> {
    let (ticket, words) = parted(words, ' ');
    let (line, words) = parted(words, ' ');
    let line = LineKey {
        ticket: Value::new(alloc, ticket)?,
        line: line_number(line)?,
    };
    let keys = fact_keys(words)?;
    Ok(writing.rekey_fact(alloc, format, &line, &keys)?)
}

/// Takes out all facts of the first format, and tells how many there were.
pub fn clear<S: Alter>(writing: &mut Writing<'_, S>, out: &mut String) -> Result<(), Trouble> {
    push_number_line(out, writing.clear_facts()?)
}

fn fact_keys(words: &str) -> Result<FactKeys, Trouble> {
    let (store, words) = parted(words, ' ');
    let (product, words) = parted(words, ' ');
    let (customer, profile) = parted(words, ' ');
    Ok(FactKeys {
        store_key: number(store)?,
        product_key: number(product)?,
        customer_key: number(customer)?,
        profile: number(profile)?,
    })
}
