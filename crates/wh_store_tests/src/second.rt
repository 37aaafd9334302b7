//! Steps that only the second format has.

use crate::held::Warehouse;
use crate::rows::row_of;
use crate::trouble::Trouble;
use crate::words::{dim, number, push_answer, push_count, push_number};
use sqlite::Alter;
use std::alloc::{AllocError, Global};
use wh_day::Value;
use wh_history::{Edit, Fact};
use wh_rows::{FactColumn, KeyedSale, MetaRow, tables};
use wh_scenarios::parted;
use wh_store::{FactAggregate, Format, Tables, Writing};

/// Puts the number of the second format into meta.
fn put_format<S: Alter>(alloc: Global, writing: &mut Writing<'_, S>) -> Result<(), Trouble> {
    let row = MetaRow {
        name: Value::new(alloc, "format")?,
        value: 2,
    };
    Ok(writing.put::<tables::Meta>(alloc, &row)?)
}

/// Takes all facts out of the first format and puts them, with no discount, into the second.
fn carry<S: Alter>(
    alloc: Global,
    writing: &mut Writing<'_, S>,
    facts: Vec<Fact>,
) -> Result<(), Trouble> {
    writing.clear_facts()?;
    for fact in facts {
        writing.edit_fact(alloc, Format::Two, &Edit::Put(fact))?;
    }
    Ok(())
}

/// Makes the second format of the first, into which all facts go, and keeps it.
pub fn upgrade_all<S: Alter>(alloc: Global, held: &mut Warehouse<S>) -> Result<(), Trouble> {
    let facts = held.tables.all::<tables::Fact>(alloc)?;
    let mut writing = held.tables.begin()?;
    writing.add_format2_tables()?;
    put_format(alloc, &mut writing)?;
    carry(alloc, &mut writing, facts)?;
    writing.commit()?;
    held.format = Format::Two;
    Ok(())
}

/// So many facts that differ in their lines alone, from line 1 on.
fn facts_of(alloc: Global, count: u64, ticket: &str, values: &str) -> Result<Vec<Fact>, Trouble> {
    let mut facts = Vec::new(alloc);
    for before in 0..count {
        let line = before.saturating_add(1);
        let columns = format!(in alloc; "'{ticket}', {line}, {values}")?;
        facts.push(row_of::<tables::Fact2>(alloc, columns.as_str())?)?;
    }
    Ok(facts)
}

fn borrowed(alloc: Global, facts: &[Fact]) -> Result<Vec<&Fact>, AllocError> {
    let mut found = Vec::new(alloc);
    for fact in facts {
        found.push(fact)?;
    }
    Ok(found)
}

/// `COUNT TICKET VALUES`: puts so many facts in at once, and tells whether it did.
pub fn insert<S: Alter>(
    alloc: Global,
    writing: &mut Writing<'_, S>,
    words: &str,
    out: &mut String,
) -> Result<(), Trouble> {
    let (count, words) = parted(words, ' ');
    let (ticket, values) = parted(words, ' ');
    let facts = facts_of(alloc, number(count)?, ticket, values)?;
    let inserted = writing.insert_new_facts(alloc, Format::Two, &borrowed(alloc, &facts)?)?;
    Ok(push_answer(out, if inserted { "inserted" } else { "as before" })?)
}

/// How many sales were counted, and the sums of their keys and measures.
#[derive(Drop)]
struct Sums {
    sales: u64,
    keys: u64,
    quantity: i64,
    amount: i64,
    cost: i64,
}

impl FactAggregate for Sums {
    ghost use Rattle.std.specs.Prelude.{⊤};

    ghost counts = { λ _ _ _. ⊤ };

    fn count(&mut self, sale: KeyedSale) {
        self.sales = self.sales.saturating_add(1);
        self.keys = self.keys.saturating_add(sale.key);
        self.quantity = self.quantity.saturating_add(sale.quantity);
        self.amount = self.amount.saturating_add(sale.amount);
        self.cost = self.cost.saturating_add(sale.cost);
    }
}

impl Sums {
    fn push(&self, out: &mut String) -> Result<(), Trouble> {
        push_answer(out, "sales, keys, quantity, amount, cost")?;
        push_count(out, self.sales)?;
        push_count(out, self.keys)?;
        push_number(out, self.quantity)?;
        push_number(out, self.amount)?;
        push_number(out, self.cost)?;
        out.push_str("\n")?;
        Ok(())
    }
}

/// `surrogate DIMENSION`, `durable DIMENSION`, `profile` or `day`.
fn fact_key(words: &str) -> Result<FactColumn, Trouble> {
    let (name, rest) = parted(words, ' ');
    match name {
        "surrogate" => Ok(FactColumn::Surrogate(dim(rest)?)),
        "durable" => Ok(FactColumn::Durable(dim(rest)?)),
        "profile" => Ok(FactColumn::Profile),
        "day" => Ok(FactColumn::Day),
        _ => Err(Trouble::Unknown),
    }
}

/// Tells what the facts come to by one of their keys.
pub fn tally<S: Alter>(
    tables: &mut Tables<S>,
    words: &str,
    out: &mut String,
) -> Result<(), Trouble> {
    let mut sums = Sums {
        sales: 0,
        keys: 0,
        quantity: 0,
        amount: 0,
        cost: 0,
    };
    tables.tally_facts(Format::Two, fact_key(words)?, &mut sums)?;
    sums.push(out)
}
