//! Steps on the facts of a format, which is named by its number.

use crate::rows::{push_number_line, push_rows, row_of};
use crate::sales::sales;
use crate::shown::line_key;
use crate::trouble::Trouble;
use sqlite::Alter;
use std::alloc::Global;
use wh_history::{Edit, Fact};
use wh_rows::{LineKey, tables};
use wh_scenarios::parted;
use wh_store::{Format, Tables, Writing};

fn format_of(word: &str) -> Result<Format, Trouble> {
    match word {
        "1" => Ok(Format::One),
        "2" => Ok(Format::Two),
        _ => Err(Trouble::Unknown),
    }
}

pub fn push_facts(out: &mut String, format: Format, facts: &[Fact]) -> Result<(), Trouble> {
    match format {
        Format::One => push_rows::<tables::Fact>(out, facts),
        Format::Two => push_rows::<tables::Fact2>(out, facts),
    }
}

/// `FORMAT count`, `FORMAT line TICKET LINE` or `FORMAT of DIMENSION DURABLE FROM TO, DURABLE FROM TO, ..`.
pub fn read<S: Alter>(
    alloc: Global,
    tables: &mut Tables<S>,
    words: &str,
    out: &mut String,
) -> Result<(), Trouble> {
    let (word, words) = parted(words, ' ');
    let format = format_of(word)?;
    let (verb, words) = parted(words, ' ');
    match verb {
        "count" => push_number_line(out, tables.count_facts(alloc, format)?),
        "line" => match tables.fact(alloc, format, &line_key(alloc, words)?)? {
            Some(fact) => push_facts(out, format, &[fact]),
            None => Ok(()),
        },
        "of" => sales(alloc, tables, format, words, out),
        _ => Err(Trouble::Unknown),
    }
}

fn fact(alloc: Global, format: Format, values: &str) -> Result<Fact, Trouble> {
    match format {
        Format::One => row_of::<tables::Fact>(alloc, values),
        Format::Two => row_of::<tables::Fact2>(alloc, values),
    }
}

/// `FORMAT put VALUES` or `FORMAT remove TICKET LINE`.
pub fn edit<S: Alter>(
    alloc: Global,
    writing: &mut Writing<'_, S>,
    words: &str,
) -> Result<(), Trouble> {
    let (word, words) = parted(words, ' ');
    let format = format_of(word)?;
    let (verb, words) = parted(words, ' ');
    let edit: Edit<Fact, LineKey> = match verb {
        "put" => Edit::Put(fact(alloc, format, words)?),
        "remove" => Edit::Remove(line_key(alloc, words)?),
        _ => return Err(Trouble::Unknown),
    };
    Ok(writing.edit_fact(alloc, format, &edit)?)
}
