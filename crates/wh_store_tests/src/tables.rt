//! Steps on the tables of a warehouse.

use crate::facts::read;
use crate::held::Warehouse;
use crate::questions::answer;
use crate::rows::on_table;
use crate::scans::scan_table;
use crate::second::{tally, upgrade_all};
use crate::trouble::Trouble;
use crate::words::{Step, push_answer, push_counts, step_of};
use crate::writing::write;
use sqlite::Alter;
use std::alloc::Global;
use wh_store::{Format, Limits, Table, Tables, find_limits};

/// A step on the tables of a warehouse.
pub fn on_tables<S: Alter>(
    alloc: Global,
    held: &mut Warehouse<S>,
    step: Step<'_>,
    out: &mut String,
) -> Result<(), Trouble> {
    match step.verb {
        "write" => write(alloc, &mut held.tables, step.body, out),
        "limits" => limits(alloc, &mut held.tables, out),
        "show" => show(alloc, held, out),
        "scan" => scan_table(alloc, held, step, out),
        "format" => format(held, out),
        "second" => add_second(held),
        "upgrade" => upgrade_all(alloc, held),
        "tally2" => tally(&mut held.tables, step.rest, out),
        "facts" => read(alloc, &mut held.tables, step.rest, out),
        _ => answer(alloc, &mut held.tables, step, out),
    }
}

/// The format, and whether the names are taken that the second adds.
fn format<S: Alter>(held: &mut Warehouse<S>, out: &mut String) -> Result<(), Trouble> {
    let format = match held.format {
        Format::One => "first, ",
        Format::Two => "second, ",
    };
    out.push_str(format)?;
    let names = if held.tables.is_second_taken() {
        "taken"
    } else {
        "free"
    };
    Ok(push_answer(out, names)?)
}

/// Makes the second format, without a fact in it, and keeps it.
fn add_second<S: Alter>(held: &mut Warehouse<S>) -> Result<(), Trouble> {
    let mut writing = held.tables.begin()?;
    writing.add_format2_tables()?;
    writing.commit()?;
    held.format = Format::Two;
    Ok(())
}

/// The most commands, changes and facts.
fn limits<S: Alter>(
    alloc: Global,
    tables: &mut Tables<S>,
    out: &mut String,
) -> Result<(), Trouble> {
    let limits = find_limits(tables, alloc)?;
    push_limits(out, limits)
}

pub fn push_limits(out: &mut String, limits: Limits) -> Result<(), Trouble> {
    let counts = [limits.commands(), limits.changes(), limits.facts()];
    out.push_str("limits ")?;
    push_counts(out, &counts)?;
    out.push_str("\n")?;
    Ok(())
}

/// Whether a warehouse of the format has the table.
fn is_there(table: Table, format: Format) -> bool {
    match table {
        Table::Fact2 | Table::Void => format == Format::Two,
        _ => true,
    }
}

/// The limits, and each row of each table that the format has.
pub fn show<S: Alter>(
    alloc: Global,
    held: &mut Warehouse<S>,
    out: &mut String,
) -> Result<(), Trouble> {
    limits(alloc, &mut held.tables, out)?;
    let step = step_of("all");
    for table in Table::ALL {
        if is_there(table, held.format) {
            on_table(alloc, &mut held.tables, table, step, out)?;
        }
    }
    Ok(())
}
