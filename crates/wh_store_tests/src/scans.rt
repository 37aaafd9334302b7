//! Steps that hand out the rows of a table one at a time.

use crate::held::Warehouse;
use crate::rows::{push_number_line, push_rows, table_of};
use crate::shown::Shown;
use crate::trouble::Trouble;
use crate::words::{Step, number, push_answer};
use sqlite::Alter;
use std::alloc::Global;
use wh_rows::Table;
use wh_rows::tables::{
    Calendar, Change, Command, Customer, Fact, Fact2, Member, Meta, Product, Profile, Store, Void,
};
use wh_store::{PagedTable, Scan};

/// Hands out up to so many rows.
fn hand_out<T: Shown + PagedTable, S: Alter>(
    alloc: Global,
    scan: &mut Scan<'_, S, T>,
    most: u64,
    handed: &mut Vec<T::Row>,
) -> Result<(), Trouble> {
    for _ in 0..most {
        match scan.next_row(alloc)? {
            Some(row) => handed.push(row)?,
            None => return Ok(()),
        }
    }
    Ok(())
}

fn push_last<T: Shown>(out: &mut String, rows: &[T::Row]) -> Result<(), Trouble> {
    let before = rows.len().saturating_sub(1);
    push_rows::<T>(out, &rows[before..])
}

/// Tells of a scan that answered a fault if it answers otherwise than `None` from then on.
fn tell_more<T: Shown + PagedTable, S: Alter>(
    alloc: Global,
    scan: &mut Scan<'_, S, T>,
    out: &mut String,
) -> Result<(), Trouble> {
    match scan.next_row(alloc) {
        Ok(None) => Ok(()),
        _ => Ok(push_answer(out, "more")?),
    }
}

/// `MOST`: up to so many rows, of which it tells the number and the last one.
fn scan<T: Shown + PagedTable, S: Alter>(
    alloc: Global,
    held: &mut Warehouse<S>,
    words: &str,
    out: &mut String,
) -> Result<(), Trouble> {
    let most = number(words)?;
    let mut handed = Vec::new(alloc);
    let mut scan = Scan::new(&mut held.tables, alloc, held.format);
    let answer = hand_out::<T, S>(alloc, &mut scan, most, &mut handed);
    push_number_line(out, handed.len() as u64)?;
    push_last::<T>(out, &handed)?;
    if answer.is_err() {
        tell_more::<T, S>(alloc, &mut scan, out)?;
    }
    answer
}

/// `TABLE MOST`, of the tables whose keys are numbers.
fn scan_numbered<S: Alter>(
    alloc: Global,
    held: &mut Warehouse<S>,
    table: Table,
    words: &str,
    out: &mut String,
) -> Result<(), Trouble> {
    match table {
        Table::Command => scan::<Command, S>(alloc, held, words, out),
        Table::Product => scan::<Product, S>(alloc, held, words, out),
        Table::Store => scan::<Store, S>(alloc, held, words, out),
        Table::Customer => scan::<Customer, S>(alloc, held, words, out),
        Table::Profile => scan::<Profile, S>(alloc, held, words, out),
        _ => scan::<Calendar, S>(alloc, held, words, out),
    }
}

/// `TABLE MOST`: hands out up to so many rows of a table, tells their number and the last of them, and then lets the scan go.
pub fn scan_table<S: Alter>(
    alloc: Global,
    held: &mut Warehouse<S>,
    step: Step<'_>,
    out: &mut String,
) -> Result<(), Trouble> {
    let (table, step) = table_of(step)?;
    match table {
        Table::Meta => scan::<Meta, S>(alloc, held, step.rest, out),
        Table::Member => scan::<Member, S>(alloc, held, step.rest, out),
        Table::Change => scan::<Change, S>(alloc, held, step.rest, out),
        Table::Fact => scan::<Fact, S>(alloc, held, step.rest, out),
        Table::Fact2 => scan::<Fact2, S>(alloc, held, step.rest, out),
        Table::Void => scan::<Void, S>(alloc, held, step.rest, out),
        table => scan_numbered(alloc, held, table, step.rest, out),
    }
}
