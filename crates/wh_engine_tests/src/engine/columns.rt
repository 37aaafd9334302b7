//! The rows of the tables as text: the names of the columns, and one line for each row, with commas between the columns.

use crate::trouble::Trouble;
use sqlite::Alter;
use std::alloc::{AllocError, Global};
use std::fmt::Write;
use wh_day::{DateRow, Values};
use wh_history::{DimRow, Fact};
use wh_policy::{Dim, Format};
use wh_rows::tables::{Calendar, Change, Command, Customer, Member, Meta, Product, Profile, Store};
use wh_rows::{ChangeRow, CommandRow, MemberRow, MetaRow, ProfileRow, Table, VoidRow, tables};
use wh_scenarios::{push_line, push_number};
use wh_store::{KeyedTable, Tables};

fn push_integer(out: &mut String, number: i64) -> Result<(), AllocError> {
    write!(out, ",{number}")
}

/// A column after others.
fn push_text(out: &mut String, text: &str) -> Result<(), AllocError> {
    out.push_str(",")?;
    out.push_str(text)
}

fn push_texts(out: &mut String, texts: &Values) -> Result<(), AllocError> {
    for text in texts.as_slice() {
        push_text(out, text.as_str())?;
    }
    Ok(())
}

fn push_numbers(out: &mut String, numbers: &[u64]) -> Result<(), AllocError> {
    for number in numbers {
        out.push_str(",")?;
        push_number(out, *number)?;
    }
    Ok(())
}

fn push_integers(out: &mut String, numbers: &[i64]) -> Result<(), AllocError> {
    for number in numbers {
        push_integer(out, *number)?;
    }
    Ok(())
}

/// A row whose columns are written in the order of the table's.
pub trait Columns {
    fn push(&self, out: &mut String) -> Result<(), AllocError>;
}

impl Columns for MetaRow {
    fn push(&self, out: &mut String) -> Result<(), AllocError> {
        out.push_str(self.name.as_str())?;
        push_integer(out, self.value)
    }
}

/// The bytes of a command, or how many they are where they aren't UTF-8.
fn push_bytes(out: &mut String, bytes: &[u8]) -> Result<(), AllocError> {
    match std::str::from_utf8(bytes) {
        Ok(text) => push_text(out, text),
        Err(_) => {
            push_numbers(out, &[bytes.len() as u64])?;
            out.push_str(" bytes")
        }
    }
}

impl Columns for CommandRow {
    fn push(&self, out: &mut String) -> Result<(), AllocError> {
        push_number(out, self.number)?;
        push_text(out, self.id.as_str())?;
        push_text(out, self.kind.as_str())?;
        push_bytes(out, self.bytes.as_slice())?;
        push_numbers(out, &[self.records, self.placeholders])
    }
}

fn number_of(dim: Dim) -> u64 {
    match dim {
        Dim::Product => 1,
        Dim::Store => 2,
        Dim::Customer => 3,
    }
}

impl Columns for MemberRow {
    fn push(&self, out: &mut String) -> Result<(), AllocError> {
        push_number(out, number_of(self.dim))?;
        push_numbers(out, &[self.durable])?;
        push_text(out, self.natural.as_str())?;
        push_numbers(out, &[self.opening])
    }
}

impl Columns for ChangeRow {
    fn push(&self, out: &mut String) -> Result<(), AllocError> {
        push_number(out, self.command)?;
        push_numbers(
            out,
            &[
                self.place,
                number_of(self.dim),
                self.durable,
                self.day.key() as u64,
                self.anchor,
            ],
        )?;
        push_texts(out, &self.values)
    }
}

impl Columns for DimRow {
    fn push(&self, out: &mut String) -> Result<(), AllocError> {
        push_number(out, self.surrogate)?;
        push_numbers(out, &[self.durable])?;
        push_text(out, self.natural.as_str())?;
        let days = [self.from_day.key() as u64, self.to_day.key() as u64];
        push_numbers(out, &days)?;
        push_numbers(out, &[self.is_current as u64])?;
        push_texts(out, &self.a)?;
        push_texts(out, &self.b)?;
        push_numbers(out, &[self.profile_now])
    }
}

impl Columns for ProfileRow {
    fn push(&self, out: &mut String) -> Result<(), AllocError> {
        push_number(out, self.number)?;
        push_texts(out, &self.values)
    }
}

impl Columns for DateRow {
    fn push(&self, out: &mut String) -> Result<(), AllocError> {
        push_number(out, self.date_key.key() as u64)?;
        push_text(out, self.iso.as_str())?;
        push_integers(out, &[self.year, self.quarter, self.month, self.day])?;
        push_integers(out, &[self.day_of_year, self.weekday])?;
        push_text(out, self.weekday_name.as_str())?;
        push_numbers(out, &[self.weekend as u64])?;
        push_text(out, self.holiday.as_str())
    }
}

impl Columns for Fact {
    fn push(&self, out: &mut String) -> Result<(), AllocError> {
        let keys = &self.keys;
        out.push_str(self.ticket.as_str())?;
        push_numbers(out, &[self.line as u64, self.day.key() as u64])?;
        push_numbers(out, &[keys.store_key, keys.product_key, keys.customer_key])?;
        push_numbers(out, &[self.store_durable, self.product_durable])?;
        push_numbers(out, &[self.customer_durable, keys.profile])?;
        push_integers(out, &[self.quantity, self.amount, self.cost])
    }
}

impl Columns for VoidRow {
    fn push(&self, out: &mut String) -> Result<(), AllocError> {
        out.push_str(self.ticket.as_str())?;
        push_numbers(out, &[self.line as u64, self.command])
    }
}

/// The names of a table's columns, as the library lists them.
pub fn push_header(out: &mut String, table: Table) -> Result<(), AllocError> {
    let mut sign = "";
    for name in table.columns() {
        out.push_str(sign)?;
        out.push_str(name)?;
        sign = ",";
    }
    out.push_str("\n")
}

/// A row below its columns' names.
pub fn push_row<R: Columns>(out: &mut String, table: Table, row: &R) -> Result<(), AllocError> {
    push_header(out, table)?;
    row.push(out)?;
    out.push_str("\n")
}

/// Rows below their columns' names, and nothing where there is none.
pub fn push_rows<R: Columns>(out: &mut String, table: Table, rows: &[R]) -> Result<(), AllocError> {
    if rows.is_empty() {
        return Ok(());
    }
    push_header(out, table)?;
    for row in rows {
        row.push(out)?;
        out.push_str("\n")?;
    }
    Ok(())
}

fn push_all<T: KeyedTable, S: Alter>(
    alloc: Global,
    tables: &mut Tables<S>,
    out: &mut String,
) -> Result<(), Trouble>
where
    T::Row: Columns,
{
    let rows = tables.all::<T>(alloc)?;
    Ok(push_rows(out, T::table(), &rows)?)
}

/// A fact of the second format, with its discount.
fn push_discounted(out: &mut String, fact: &Fact) -> Result<(), AllocError> {
    fact.push(out)?;
    push_numbers(out, &[fact.discount])?;
    out.push_str("\n")
}

fn push_facts2<S: Alter>(
    alloc: Global,
    tables: &mut Tables<S>,
    out: &mut String,
) -> Result<(), Trouble> {
    let facts = tables.all::<tables::Fact2>(alloc)?;
    if !facts.is_empty() {
        push_header(out, Table::Fact2)?;
    }
    for fact in &facts {
        push_discounted(out, fact)?;
    }
    Ok(())
}

/// The rows of a table, in order of key.
pub fn push_table<S: Alter>(
    alloc: Global,
    tables: &mut Tables<S>,
    table: Table,
    out: &mut String,
) -> Result<(), Trouble> {
    match table {
        Table::Meta => push_all::<Meta, S>(alloc, tables, out),
        Table::Command => push_all::<Command, S>(alloc, tables, out),
        Table::Member => push_all::<Member, S>(alloc, tables, out),
        Table::Change => push_all::<Change, S>(alloc, tables, out),
        Table::Product => push_all::<Product, S>(alloc, tables, out),
        _ => push_more(alloc, tables, table, out),
    }
}

fn push_more<S: Alter>(
    alloc: Global,
    tables: &mut Tables<S>,
    table: Table,
    out: &mut String,
) -> Result<(), Trouble> {
    match table {
        Table::Store => push_all::<Store, S>(alloc, tables, out),
        Table::Customer => push_all::<Customer, S>(alloc, tables, out),
        Table::Profile => push_all::<Profile, S>(alloc, tables, out),
        Table::Calendar => push_all::<Calendar, S>(alloc, tables, out),
        Table::Fact2 => push_facts2(alloc, tables, out),
        Table::Void => push_all::<tables::Void, S>(alloc, tables, out),
        _ => push_all::<tables::Fact, S>(alloc, tables, out),
    }
}

/// The tables that a format has.
fn tables_of(format: Format) -> &'static [Table] {
    match format {
        Format::One => &Table::ALL[..10],
        Format::Two => &Table::ALL,
    }
}

/// All tables of a format, each after its name.
pub fn push_tables<S: Alter>(
    alloc: Global,
    tables: &mut Tables<S>,
    format: Format,
    out: &mut String,
) -> Result<(), Trouble> {
    for table in tables_of(format) {
        push_line(out, table.name())?;
        push_table(alloc, tables, *table, out)?;
    }
    Ok(())
}
