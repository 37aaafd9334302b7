//! Questions about the rows of a warehouse.

use crate::rows::{on_table, push_number_line, push_rows, table_of};
use crate::sales::sales;
use crate::shown::Shown;
use crate::trouble::Trouble;
use crate::words::{Step, dim, number, push_answer};
use sqlite::Alter;
use std::alloc::{AllocError, Global};
use wh_day::{Value, Values};
use wh_policy::Dim;
use wh_rows::Table;
use wh_rows::tables::{Change, Command, Customer, Member, Product, Profile, Store};
use wh_scenarios::parted;
use wh_sql::{
    CommandOf, Dimension, Greatest, GreatestOf, MemberOf, ProfileOf, Question, RecordsOf, RowsOf,
};
use wh_store::{Format, Tables};

/// A step that only reads.
pub fn answer<S: Alter>(
    alloc: Global,
    tables: &mut Tables<S>,
    step: Step<'_>,
    out: &mut String,
) -> Result<(), Trouble> {
    match step.verb {
        "all" | "get" | "count" | "length" | "nth" | "read" | "table" => {
            let (table, step) = table_of(step)?;
            on_table(alloc, tables, table, step, out)
        }
        "rows" => rows(alloc, tables, step.rest, out),
        "dim" => Ok(push_answer(out, dim_of(step.rest)?)?),
        "greatest" => greatest(alloc, tables, step.rest, out),
        "anchor" => anchor(alloc, tables, step.rest, out),
        _ => answer_more(alloc, tables, step, out),
    }
}

fn answer_more<S: Alter>(
    alloc: Global,
    tables: &mut Tables<S>,
    step: Step<'_>,
    out: &mut String,
) -> Result<(), Trouble> {
    match step.verb {
        "command" => command(alloc, tables, step.rest, out),
        "member" => member(alloc, tables, step.rest, out),
        "profile" => profile(alloc, tables, step.rest, out),
        "records" => records(alloc, tables, step.rest, out),
        "sales" => sales(alloc, tables, Format::One, step.rest, out),
        "sales2" => sales(alloc, tables, Format::Two, step.rest, out),
        _ => Err(Trouble::Unknown),
    }
}

fn asked<T: Shown, Q: Question<T>, S: Alter>(
    alloc: Global,
    tables: &mut Tables<S>,
    question: &Q,
    out: &mut String,
) -> Result<(), Trouble> {
    let rows = tables.ask::<T, Q>(alloc, question)?;
    push_rows::<T>(out, &rows)
}

/// `DIMENSION DURABLE`: the rows of a member.
fn rows<S: Alter>(
    alloc: Global,
    tables: &mut Tables<S>,
    words: &str,
    out: &mut String,
) -> Result<(), Trouble> {
    let (name, durable) = parted(words, ' ');
    let question = RowsOf {
        durable: number(durable)?,
    };
    match dim(name)? {
        Dim::Product => asked::<Product, RowsOf, S>(alloc, tables, &question, out),
        Dim::Store => asked::<Store, RowsOf, S>(alloc, tables, &question, out),
        Dim::Customer => asked::<Customer, RowsOf, S>(alloc, tables, &question, out),
    }
}

/// The dimension that a table says that it is of.
fn dim_of(name: &str) -> Result<&'static str, Trouble> {
    let found = match dim(name)? {
        Dim::Product => Product::dim(),
        Dim::Store => Store::dim(),
        Dim::Customer => Customer::dim(),
    };
    match found {
        Dim::Product => Ok("product"),
        Dim::Store => Ok("store"),
        Dim::Customer => Ok("customer"),
    }
}

/// `profile`, or `member DIMENSION`: the row with the greatest key.
fn greatest<S: Alter>(
    alloc: Global,
    tables: &mut Tables<S>,
    words: &str,
    out: &mut String,
) -> Result<(), Trouble> {
    let (name, rest) = parted(words, ' ');
    match Table::from_name(name) {
        Some(Table::Profile) => asked::<Profile, Greatest, S>(alloc, tables, &Greatest, out),
        Some(Table::Member) => greatest_member(alloc, tables, rest, out),
        _ => Err(Trouble::Unknown),
    }
}

fn greatest_member<S: Alter>(
    alloc: Global,
    tables: &mut Tables<S>,
    word: &str,
    out: &mut String,
) -> Result<(), Trouble> {
    let question = GreatestOf { dim: dim(word)? };
    asked::<Member, GreatestOf, S>(alloc, tables, &question, out)
}

/// `DIMENSION`: the greatest surrogate key that a record of it stands at, or 0.
fn anchor<S: Alter>(
    alloc: Global,
    tables: &mut Tables<S>,
    word: &str,
    out: &mut String,
) -> Result<(), Trouble> {
    let key = tables.greatest_anchor(alloc, dim(word)?)?;
    push_number_line(out, key)
}

/// `ID`: the command of that id.
fn command<S: Alter>(
    alloc: Global,
    tables: &mut Tables<S>,
    id: &str,
    out: &mut String,
) -> Result<(), Trouble> {
    let id = Value::new(alloc, id)?;
    asked::<Command, CommandOf<'_>, S>(alloc, tables, &CommandOf { id: &id }, out)
}

/// `DIMENSION NATURAL`: the member that is called so.
fn member<S: Alter>(
    alloc: Global,
    tables: &mut Tables<S>,
    words: &str,
    out: &mut String,
) -> Result<(), Trouble> {
    let (name, natural) = parted(words, ' ');
    let natural = Value::new(alloc, natural)?;
    let question = MemberOf {
        dim: dim(name)?,
        natural: &natural,
    };
    asked::<Member, MemberOf<'_>, S>(alloc, tables, &question, out)
}

/// Texts that are parted by commas.
fn values(alloc: Global, line: &str) -> Result<Values, AllocError> {
    let mut found = Values::new(alloc);
    for part in line.split(',') {
        found.push(Value::new(alloc, part)?)?;
    }
    Ok(found)
}

/// `TEXT,TEXT,..`: the profile of these six texts.
fn profile<S: Alter>(
    alloc: Global,
    tables: &mut Tables<S>,
    line: &str,
    out: &mut String,
) -> Result<(), Trouble> {
    let values = values(alloc, line)?;
    asked::<Profile, ProfileOf<'_>, S>(alloc, tables, &ProfileOf { values: &values }, out)
}

/// `DIMENSION DURABLE`: the records of a member.
fn records<S: Alter>(
    alloc: Global,
    tables: &mut Tables<S>,
    words: &str,
    out: &mut String,
) -> Result<(), Trouble> {
    let (name, durable) = parted(words, ' ');
    let question = RecordsOf {
        dim: dim(name)?,
        durable: number(durable)?,
    };
    asked::<Change, RecordsOf, S>(alloc, tables, &question, out)
}
