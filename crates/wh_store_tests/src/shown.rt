//! The tables as a scenario tells of them: their keys from words, and their rows column by column.

use crate::trouble::Trouble;
use crate::words::{
    day, dim, line_number, number, push_bytes, push_count, push_counts, push_day, push_dim,
    push_number, push_text, push_texts,
};
use std::alloc::Global;
use wh_day::{DateRow, Day, Value};
use wh_history::{DimRow, Fact};
use wh_rows::{
    ChangeKey, ChangeRow, CommandRow, LineKey, MemberKey, MemberRow, MetaRow, ProfileRow, VoidRow,
    tables,
};
use wh_scenarios::parted;
use wh_sql::KeyedTable;

/// A table that a scenario tells of.
pub trait Shown: KeyedTable {
    /// The key that these words say.
    fn key_of(alloc: Global, words: &str) -> Result<Self::Key, Trouble>;

    /// Adds the columns of a row to an answer.
    fn push(out: &mut String, row: &Self::Row) -> Result<(), Trouble>;
}

impl Shown for tables::Meta {
    fn key_of(alloc: Global, words: &str) -> Result<Value, Trouble> {
        Ok(Value::new(alloc, words)?)
    }

    fn push(out: &mut String, row: &MetaRow) -> Result<(), Trouble> {
        push_text(out, row.name.as_str())?;
        push_number(out, row.value)
    }
}

impl Shown for tables::Command {
    fn key_of(_alloc: Global, words: &str) -> Result<u64, Trouble> {
        number(words)
    }

    fn push(out: &mut String, row: &CommandRow) -> Result<(), Trouble> {
        push_count(out, row.number)?;
        push_text(out, row.id.as_str())?;
        push_text(out, row.kind.as_str())?;
        push_bytes(out, &row.bytes)?;
        push_count(out, row.records)?;
        push_count(out, row.placeholders)
    }
}

impl Shown for tables::Member {
    fn key_of(_alloc: Global, words: &str) -> Result<MemberKey, Trouble> {
        let (word, durable) = parted(words, ' ');
        Ok(MemberKey {
            dim: dim(word)?,
            durable: number(durable)?,
        })
    }

    fn push(out: &mut String, row: &MemberRow) -> Result<(), Trouble> {
        push_dim(out, row.dim)?;
        push_count(out, row.durable)?;
        push_text(out, row.natural.as_str())?;
        push_count(out, row.opening)
    }
}

impl Shown for tables::Change {
    fn key_of(_alloc: Global, words: &str) -> Result<ChangeKey, Trouble> {
        let (command, place) = parted(words, ' ');
        Ok(ChangeKey {
            command: number(command)?,
            place: number(place)?,
        })
    }

    fn push(out: &mut String, row: &ChangeRow) -> Result<(), Trouble> {
        push_count(out, row.command)?;
        push_count(out, row.place)?;
        push_dim(out, row.dim)?;
        push_count(out, row.durable)?;
        push_day(out, row.day)?;
        push_count(out, row.anchor)?;
        push_texts(out, &row.values)
    }
}

impl Shown for tables::Product {
    fn key_of(_alloc: Global, words: &str) -> Result<u64, Trouble> {
        number(words)
    }

    fn push(out: &mut String, row: &DimRow) -> Result<(), Trouble> {
        push_member_row(out, row)
    }
}

impl Shown for tables::Store {
    fn key_of(_alloc: Global, words: &str) -> Result<u64, Trouble> {
        number(words)
    }

    fn push(out: &mut String, row: &DimRow) -> Result<(), Trouble> {
        push_member_row(out, row)
    }
}

impl Shown for tables::Customer {
    fn key_of(_alloc: Global, words: &str) -> Result<u64, Trouble> {
        number(words)
    }

    fn push(out: &mut String, row: &DimRow) -> Result<(), Trouble> {
        push_member_row(out, row)
    }
}

impl Shown for tables::Profile {
    fn key_of(_alloc: Global, words: &str) -> Result<u64, Trouble> {
        number(words)
    }

    fn push(out: &mut String, row: &ProfileRow) -> Result<(), Trouble> {
        push_count(out, row.number)?;
        push_texts(out, &row.values)
    }
}

impl Shown for tables::Calendar {
    fn key_of(_alloc: Global, words: &str) -> Result<Day, Trouble> {
        day(words)
    }

    fn push(out: &mut String, row: &DateRow) -> Result<(), Trouble> {
        push_day(out, row.date_key)?;
        push_text(out, row.iso.as_str())?;
        push_date(out, row)?;
        push_text(out, row.weekday_name.as_str())?;
        push_count(out, u64::from(row.weekend))?;
        push_text(out, row.holiday.as_str())
    }
}

impl Shown for tables::Fact {
    fn key_of(alloc: Global, words: &str) -> Result<LineKey, Trouble> {
        line_key(alloc, words)
    }

    fn push(out: &mut String, row: &Fact) -> Result<(), Trouble> {
        push_fact(out, row)
    }
}

impl Shown for tables::Fact2 {
    fn key_of(alloc: Global, words: &str) -> Result<LineKey, Trouble> {
        line_key(alloc, words)
    }

    fn push(out: &mut String, row: &Fact) -> Result<(), Trouble> {
        push_fact(out, row)?;
        push_count(out, row.discount)
    }
}

impl Shown for tables::Void {
    fn key_of(alloc: Global, words: &str) -> Result<LineKey, Trouble> {
        line_key(alloc, words)
    }

    fn push(out: &mut String, row: &VoidRow) -> Result<(), Trouble> {
        push_text(out, row.ticket.as_str())?;
        push_count(out, u64::from(row.line))?;
        push_count(out, row.command)
    }
}

/// A line as `T1 2`.
pub fn line_key(alloc: Global, words: &str) -> Result<LineKey, Trouble> {
    let (ticket, line) = parted(words, ' ');
    Ok(LineKey {
        ticket: Value::new(alloc, ticket)?,
        line: line_number(line)?,
    })
}

/// The columns of a fact, without what the second format adds.
fn push_fact(out: &mut String, row: &Fact) -> Result<(), Trouble> {
    push_text(out, row.ticket.as_str())?;
    push_count(out, u64::from(row.line))?;
    push_day(out, row.day)?;
    push_counts(out, &keys_of(row))?;
    push_number(out, row.quantity)?;
    push_number(out, row.amount)?;
    push_number(out, row.cost)
}

fn push_member_row(out: &mut String, row: &DimRow) -> Result<(), Trouble> {
    push_count(out, row.surrogate)?;
    push_count(out, row.durable)?;
    push_text(out, row.natural.as_str())?;
    push_day(out, row.from_day)?;
    push_day(out, row.to_day)?;
    push_count(out, u64::from(row.is_current))?;
    push_texts(out, &row.a)?;
    push_texts(out, &row.b)?;
    push_count(out, row.profile_now)
}

/// The numbers of a day.
fn push_date(out: &mut String, row: &DateRow) -> Result<(), Trouble> {
    push_number(out, row.year)?;
    push_number(out, row.quarter)?;
    push_number(out, row.month)?;
    push_number(out, row.day)?;
    push_number(out, row.day_of_year)?;
    push_number(out, row.weekday)
}

/// The keys of a fact, in the order of the columns.
fn keys_of(row: &Fact) -> [u64; 7] {
    [
        row.keys.store_key,
        row.keys.product_key,
        row.keys.customer_key,
        row.store_durable,
        row.product_durable,
        row.customer_durable,
        row.keys.profile,
    ]
}
