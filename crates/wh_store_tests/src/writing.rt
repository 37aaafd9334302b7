//! Edits of a warehouse in one transaction, an edit a line.

use crate::calendar::put_days;
use crate::facts::edit as edit_fact;
use crate::opening::limits_of;
use crate::parts::{edit_products, put_records};
use crate::rows::{clear, edit_table, member_values, rekey, row_of};
use crate::second::insert;
use crate::trouble::Trouble;
use crate::words::{Step, number, push_count, push_trouble, step_of};
use sqlite::Alter;
use std::alloc::Global;
use wh_history::{DimRow, Edit};
use wh_rows::tables::Product;
use wh_scenarios::parted;
use wh_store::{Format, Tables, Writing};

/// Makes the edits, keeps them where the last one is `commit`, and tells how many keys were written.
pub fn write<S: Alter>(
    alloc: Global,
    tables: &mut Tables<S>,
    edits: &str,
    out: &mut String,
) -> Result<(), Trouble> {
    let mut writing = tables.begin()?;
    edit_all(alloc, &mut writing, edits, out)?;
    push_writes(out, writing.writes())?;
    end(writing, edits)
}

/// Makes one edit in a transaction of its own, and keeps it.
pub fn edit_alone<S: Alter>(
    alloc: Global,
    tables: &mut Tables<S>,
    step: Step<'_>,
    out: &mut String,
) -> Result<(), Trouble> {
    let mut writing = tables.begin()?;
    make_edit(alloc, &mut writing, step, out)?;
    writing.commit()?;
    Ok(())
}

fn push_writes(out: &mut String, writes: u64) -> Result<(), Trouble> {
    push_count(out, writes)?;
    out.push_str(" written\n")?;
    Ok(())
}

fn end<S: Alter>(writing: Writing<'_, S>, edits: &str) -> Result<(), Trouble> {
    if edits.trim_end().ends_with("commit") {
        writing.commit()?;
    }
    Ok(())
}

fn edit_all<S: Alter>(
    alloc: Global,
    writing: &mut Writing<'_, S>,
    edits: &str,
    out: &mut String,
) -> Result<(), Trouble> {
    for line in edits.lines() {
        edit_once(alloc, writing, line.trim_start(), out)?;
    }
    Ok(())
}

fn edit_once<S: Alter>(
    alloc: Global,
    writing: &mut Writing<'_, S>,
    line: &str,
    out: &mut String,
) -> Result<(), Trouble> {
    let (verb, rest) = parted(line, ' ');
    if verb != "tries" {
        return make_edit(alloc, writing, step_of(line), out);
    }
    match make_edit(alloc, writing, step_of(rest), out) {
        Ok(()) => Ok(()),
        Err(trouble) => Ok(push_trouble(out, trouble)?),
    }
}

fn make_edit<S: Alter>(
    alloc: Global,
    writing: &mut Writing<'_, S>,
    step: Step<'_>,
    out: &mut String,
) -> Result<(), Trouble> {
    let rest = step.rest;
    match step.verb {
        "make" => make(alloc, writing, rest),
        "days" => put_days(alloc, writing, step),
        "rows" => put_all(alloc, writing, rest),
        "edit" => edit(alloc, writing, rest),
        "edits" => edit_each(alloc, writing, rest),
        "parts" => edit_products(alloc, writing, rest),
        "records" => put_records(alloc, writing, rest),
        "past" => put_past(alloc, writing),
        "rekey" => rekey(alloc, writing, Format::One, rest),
        "rekey2" => rekey(alloc, writing, Format::Two, rest),
        "clear" => clear(writing, out),
        "insert2" => insert(alloc, writing, rest, out),
        "fact" => edit_fact(alloc, writing, rest),
        "commit" | "drop" => Ok(()),
        _ => edit_table(alloc, writing, step),
    }
}

fn make<S: Alter>(alloc: Global, writing: &mut Writing<'_, S>, words: &str) -> Result<(), Trouble> {
    let limits = limits_of(words)?;
    Ok(writing.init(alloc, limits)?)
}

/// Puts a product at a surrogate key that no row can have.
fn put_past<S: Alter>(alloc: Global, writing: &mut Writing<'_, S>) -> Result<(), Trouble> {
    let mut row = product(alloc, "1 Old")?;
    row.surrogate = u64::MAX;
    Ok(writing.put::<Product>(alloc, &row)?)
}

/// A product as `2 Tea`.
fn product(alloc: Global, words: &str) -> Result<DimRow, Trouble> {
    let values = member_values(alloc, words)?;
    row_of::<Product>(alloc, values.as_str())
}

fn products(alloc: Global, words: &str) -> Result<Vec<DimRow>, Trouble> {
    let mut rows = Vec::new(alloc);
    for word in words.split(',') {
        rows.push(product(alloc, word.trim_start())?)?;
    }
    Ok(rows)
}

fn put_all<S: Alter>(
    alloc: Global,
    writing: &mut Writing<'_, S>,
    words: &str,
) -> Result<(), Trouble> {
    let rows = products(alloc, words)?;
    Ok(writing.put_all::<Product>(alloc, &rows)?)
}

/// An edit as `3 Milk`, which puts a product, or `3`, which takes one out.
fn edit_of(alloc: Global, words: &str) -> Result<Edit<DimRow, u64>, Trouble> {
    if words.contains(' ') {
        Ok(Edit::Put(product(alloc, words)?))
    } else {
        Ok(Edit::Remove(number(words)?))
    }
}

pub fn edits_of(alloc: Global, words: &str) -> Result<Vec<Edit<DimRow, u64>>, Trouble> {
    let mut edits = Vec::new(alloc);
    for word in words.split(',') {
        edits.push(edit_of(alloc, word.trim_start())?)?;
    }
    Ok(edits)
}

fn edit<S: Alter>(alloc: Global, writing: &mut Writing<'_, S>, words: &str) -> Result<(), Trouble> {
    let edit = edit_of(alloc, words)?;
    Ok(writing.edit::<Product>(alloc, &edit)?)
}

fn edit_each<S: Alter>(
    alloc: Global,
    writing: &mut Writing<'_, S>,
    words: &str,
) -> Result<(), Trouble> {
    let edits = edits_of(alloc, words)?;
    Ok(writing.edit_all::<Product>(alloc, &edits)?)
}
