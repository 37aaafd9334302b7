//! Counting all facts, in whatever order they are stored.

ghost use Rattle.std.specs.Prelude.{◌≡◌, ◌⊎◌, ◌++◌, ◌∷◌, [], List, IfOk, IfErr};
ghost use Rattle.std.specs.FinMap.{values};
ghost use Rattle.wh_rows.specs.KeyedSales.{keyed_sales, keyed_sales2, read_keyed_sale};
ghost use Rattle.wh_rows.specs.declared.keyed_sale.KeyedSale.{KeyedSale};
ghost use Rattle.wh_sql.specs.Answers.{TalliesRows};
ghost use Rattle.wh_rows.specs.Facts.{facts_table, fact_layout, facts_in};
ghost use Rattle.wh_sql.specs.Facts.{facts_by};
ghost use Rattle.wh_sql.specs.Tally.{CountsOne, ShowsNoFact, HasCounted, HasCountedStored};
ghost use Rattle.wh_sql.specs.declared.fault.ReadFault.TheVariants.{Memory, Damaged};

use crate::at_rest::Tables;
use crate::fact_tables::facts_table;
use crate::fault::ReadFault;
use sqlite::{Alter, Connection, Row};
use wh_day::ParseError;
use wh_policy::{Dim, Format};
use wh_rows::{Cause, FactColumn, KeyedSale};

/// Counts sales one after the other, in whatever order they come. One that has failed keeps that to itself.
pub trait FactAggregate {
    // What it comes to by some sales, from what it was before the first of them.
    ghost counts: { Self → List KeyedSale → Self → Type 0 };

    /// Counts a sale.
    fn count(&mut self, sale: KeyedSale)
        ensures { (first : Self) (sales : List KeyedSale) → counts first sales self.old → counts first (sales ++ sale ∷ []) self.new };
}

/// The text that shows a key of each fact of the first format, with its day and its measures.
fn keyed_sales(which: FactColumn) -> &'static str
    ensures { result.now ≡ keyed_sales which }
{
    match which {
        FactColumn::Surrogate(Dim::Product) => {
            "SELECT day, product_key, quantity, amount, cost FROM fact"
        }
        FactColumn::Surrogate(Dim::Store) =>
            "SELECT day, store_key, quantity, amount, cost FROM fact",
        FactColumn::Surrogate(Dim::Customer) => {
            "SELECT day, customer_key, quantity, amount, cost FROM fact"
        }
        FactColumn::Durable(Dim::Product) => {
            "SELECT day, product_durable, quantity, amount, cost FROM fact"
        }
        FactColumn::Durable(Dim::Store) => {
            "SELECT day, store_durable, quantity, amount, cost FROM fact"
        }
        FactColumn::Durable(Dim::Customer) => {
            "SELECT day, customer_durable, quantity, amount, cost FROM fact"
        }
        FactColumn::Profile => "SELECT day, profile, quantity, amount, cost FROM fact",
        FactColumn::Day => "SELECT day, day, quantity, amount, cost FROM fact",
    }
}

/// The same of the second format.
fn keyed_sales2(which: FactColumn) -> &'static str
    ensures { result.now ≡ keyed_sales2 which }
{
    match which {
        FactColumn::Surrogate(Dim::Product) => {
            "SELECT day, product_key, quantity, amount, cost FROM fact2"
        }
        FactColumn::Surrogate(Dim::Store) =>
            "SELECT day, store_key, quantity, amount, cost FROM fact2",
        FactColumn::Surrogate(Dim::Customer) => {
            "SELECT day, customer_key, quantity, amount, cost FROM fact2"
        }
        FactColumn::Durable(Dim::Product) => {
            "SELECT day, product_durable, quantity, amount, cost FROM fact2"
        }
        FactColumn::Durable(Dim::Store) => {
            "SELECT day, store_durable, quantity, amount, cost FROM fact2"
        }
        FactColumn::Durable(Dim::Customer) => {
            "SELECT day, customer_durable, quantity, amount, cost FROM fact2"
        }
        FactColumn::Profile => "SELECT day, profile, quantity, amount, cost FROM fact2",
        FactColumn::Day => "SELECT day, day, quantity, amount, cost FROM fact2",
    }
}

/// The text for the facts of a format.
fn facts_by(format: Format, which: FactColumn) -> &'static str
    ensures { result.now ≡ facts_by format which }
{
    match format {
        Format::One => keyed_sales(which),
        Format::Two => keyed_sales2(which),
    }
}

/// Counts the sale that a row of the facts of a format shows.
fn count_row<C: FactAggregate>(tally: &mut C, format: Format, row: &Row) -> Result<(), ReadFault>
    ensures counted { IfOk result (λ _. (sale : KeyedSale) × (row.now ≡ read_keyed_sale sale) × CountsOne C.counts tally.old tally.new sale) }
    ensures damaged { IfErr result (λ fault. (fault ≡ Memory) ⊎ ((fault ≡ Damaged (facts_table format)) × ShowsNoFact row.now)) }
{
    match KeyedSale::read(row) {
        Ok(sale) => {
            tally.count(sale);
            Ok(())
        }
        Err(ParseError::Memory) => Err(ReadFault::Memory),
        Err(ParseError::Fault(_)) => Err(ReadFault::Damaged(facts_table(format))),
    }
}

/// Has a tally count each fact by one of its keys, as the database hands them out.
fn each_fact_tallied<C: FactAggregate, S: Alter>(
    conn: &mut Connection<S>,
    format: Format,
    which: FactColumn,
    tally: &mut C,
) -> Result<(), ReadFault>
    requires { C.counts tally.old [] tally.old }
    ensures { TalliesRows S.Store conn.old conn.new (facts_table format) (fact_layout format) (λ t. HasCounted C.counts which tally.old tally.new (values (facts_in format t))) (HasCountedStored C.counts which tally.old tally.new) (facts_by format which) result }
{
    let mut rows = match conn.query(facts_by(format, which), &[]) {
        Ok(rows) => rows,
        Err(error) => return Err(ReadFault::Store(Cause::from(error))),
    };
    'facts: for _ in 0..u64::MAX {
        if let Err(error) = rows.advance() {
            return Err(ReadFault::Store(Cause::from(error)));
        }
        match rows.get() {
            Some(row) => count_row(tally, format, row)?,
            None => return Ok(()),
        }
    }
    Err(ReadFault::Memory)
}

impl<S: Alter> Tables<S> {
    /// Counts each fact of a format in a tally, by the key in the column `which`, in whatever order the facts are stored. `Memory`: also where
    /// there are more facts than a `u64` counts. `Damaged`: a column that is read of a fact is out of its type. `Store`: also for facts of the
    /// second format in a warehouse of the first.
    pub fn tally_facts<C: FactAggregate>(
        &mut self,
        format: Format,
        which: FactColumn,
        tally: &mut C,
    ) -> Result<(), ReadFault>
        requires { C.counts tally.old [] tally.old }
        ensures { TalliesRows S.Store self.old.conn self.new.conn (facts_table format) (fact_layout format) (λ t. HasCounted C.counts which tally.old tally.new (values (facts_in format t))) (HasCountedStored C.counts which tally.old tally.new) (facts_by format which) result }
    {
        each_fact_tallied(&mut self.conn, format, which, tally)
    }
}
