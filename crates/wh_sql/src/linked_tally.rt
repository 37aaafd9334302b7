//! Counting all facts by all of their keys, in whatever order they are stored.

ghost use Rattle.std.specs.Prelude.{◌≡◌, ◌⊎◌, ◌++◌, ◌∷◌, [], List, IfOk, IfErr};
ghost use Rattle.std.specs.FinMap.{values};
ghost use Rattle.wh_rows.specs.LinkedSales.{read_linked_sale};
ghost use Rattle.wh_rows.specs.declared.linked_sale.LinkedSale.{LinkedSale};
ghost use Rattle.wh_sql.specs.Answers.{TalliesRows};
ghost use Rattle.wh_rows.specs.Facts.{facts_table, fact_layout, facts_in};
ghost use Rattle.wh_sql.specs.LinkedTally.{linked_by, CountsLinked, ShowsNoLinks, HasCountedLinks, HasCountedStoredLinks};
ghost use Rattle.wh_sql.specs.declared.fault.ReadFault.TheVariants.{Memory, Damaged};

use crate::at_rest::Tables;
use crate::fact_tables::facts_table;
use crate::fault::ReadFault;
use sqlite::{Alter, Connection, Row};
use wh_day::ParseError;
use wh_policy::Format;
use wh_rows::{Cause, LinkedSale};

/// Counts sales one after the other by all of their keys, in whatever order they come. One that has failed keeps that to itself.
pub trait LinkAggregate {
    // What it comes to by some sales, from what it was before the first of them.
    ghost counts: { Self → List LinkedSale → Self → Type 0 };

    /// Counts a sale.
    fn count(&mut self, sale: LinkedSale)
        ensures { (first : Self) (sales : List LinkedSale) → counts first sales self.old → counts first (sales ++ sale ∷ []) self.new };
}

/// The text that shows all keys of each fact of a format, with its day and its measures.
fn linked_by(format: Format) -> &'static str
    ensures { result.now ≡ linked_by format }
{
    match format {
        Format::One =>
            "SELECT day, store_key, product_key, customer_key, store_durable, product_durable, customer_durable, profile, quantity, amount, cost FROM fact",
        Format::Two =>
            "SELECT day, store_key, product_key, customer_key, store_durable, product_durable, customer_durable, profile, quantity, amount, cost FROM fact2",
    }
}

/// Counts the sale that a row of the facts of a format shows.
fn count_row<C: LinkAggregate>(tally: &mut C, format: Format, row: &Row) -> Result<(), ReadFault>
    ensures counted { IfOk result (λ _. (sale : LinkedSale) × (row.now ≡ read_linked_sale sale) × CountsLinked C.counts tally.old tally.new sale) }
    ensures damaged { IfErr result (λ fault. (fault ≡ Memory) ⊎ ((fault ≡ Damaged (facts_table format)) × ShowsNoLinks row.now)) }
{
    match LinkedSale::read(row) {
        Ok(sale) => {
            tally.count(sale);
            Ok(())
        }
        Err(ParseError::Memory) => Err(ReadFault::Memory),
        Err(ParseError::Fault(_)) => Err(ReadFault::Damaged(facts_table(format))),
    }
}

/// Has a tally count each fact by all of its keys, as the database hands them out.
fn each_link_tallied<C: LinkAggregate, S: Alter>(
    conn: &mut Connection<S>,
    format: Format,
    tally: &mut C,
) -> Result<(), ReadFault>
    requires { C.counts tally.old [] tally.old }
    ensures { TalliesRows S.Store conn.old conn.new (facts_table format) (fact_layout format) (λ t. HasCountedLinks C.counts tally.old tally.new (values (facts_in format t))) (HasCountedStoredLinks C.counts tally.old tally.new) (linked_by format) result }
{
    let mut rows = match conn.query(linked_by(format), &[]) {
        Ok(rows) => rows,
        Err(error) => return Err(ReadFault::Store(Cause::from(error))),
    };
    'facts: for _ in 0..u64::MAX {
        if let Err(error) = rows.advance() {
            return Err(ReadFault::Store(Cause::from(error)));
        }
        match rows.get() {
            Some(row) => count_row(tally, format, row)?,
            None => return Ok(()),
        }
    }
    Err(ReadFault::Memory)
}

impl<S: Alter> Tables<S> {
    /// Has a tally count each fact of a format by all of its keys, in whatever order they are stored. `Memory`: also where there are more
    /// facts than a `u64` counts. `Damaged`: a column that is read of a fact is out of its type. `Store`: also for facts of the second format in
    /// a warehouse of the first.
    pub fn tally_links<C: LinkAggregate>(
        &mut self,
        format: Format,
        tally: &mut C,
    ) -> Result<(), ReadFault>
        requires { C.counts tally.old [] tally.old }
        ensures { TalliesRows S.Store self.old.conn self.new.conn (facts_table format) (fact_layout format) (λ t. HasCountedLinks C.counts tally.old tally.new (values (facts_in format t))) (HasCountedStoredLinks C.counts tally.old tally.new) (linked_by format) result }
    {
        each_link_tallied(&mut self.conn, format, tally)
    }
}
