//! What is shown of a fact where sales are summed by several of its keys.

ghost use Rattle.std.specs.Prelude.{◌≡◌, ◌≢◌, IsTrue, IfOk, IfErr};
ghost use Rattle.wh_day.specs.Reading.{Gives};
ghost use Rattle.wh_day.specs.declared.error.ParseError.TheVariants.{Memory};
ghost use Rattle.wh_history.specs.declared.facts.Fact.{Fact};
ghost use Rattle.wh_rows.specs.LinkedSales.{read_linked_sale, linked, linked_of, link_of};
ghost use Rattle.wh_rows.specs.Rows.{has_good_columns};

use crate::columns::{self, Damaged};
use crate::keyed_sale::FactColumn;
use sqlite::Row;
use wh_day::{Day, ParseError};
use wh_policy::Dim;

/// A sale by all of its fact's keys: what a sum of sales by several attributes needs of it, and no text.
#[derive(Clone, Copy, Debug, PartialEq, Eq)]
pub struct LinkedSale {
    /// The day of sale, which is the key of the calendar.
    pub day: Day,
    /// The surrogate key of the store.
    pub store_key: u64,
    /// The surrogate key of the product.
    pub product_key: u64,
    /// The surrogate key of the customer.
    pub customer_key: u64,
    /// The durable key of the store.
    pub store_durable: u64,
    /// The durable key of the product.
    pub product_durable: u64,
    /// The durable key of the customer.
    pub customer_durable: u64,
    /// The number of the customer's profile on the day of sale.
    pub profile: u64,
    /// How many were sold.
    pub quantity: i64,
    /// The amount in hundredths.
    pub amount: i64,
    /// The cost in hundredths.
    pub cost: i64,
}

/// The eleven columns.
#[tactic(auto, unfolding(crate::specs::LinkedSales::linked_of))]
fn linked_of(row: &Row) -> Result<LinkedSale, ParseError<Damaged>>
    ensures { Gives (λ sale. sale) result (linked_of row.now) }
{
    if row.column_count() != 11 {
        return Err(ParseError::Fault(Damaged));
    }
    let day = columns::day_of(row, 0)?;
    let store_key = columns::number_of(row, 1)?;
    let product_key = columns::number_of(row, 2)?;
    let customer_key = columns::number_of(row, 3)?;
    let store_durable = columns::number_of(row, 4)?;
    let product_durable = columns::number_of(row, 5)?;
    let customer_durable = columns::number_of(row, 6)?;
    let profile = columns::number_of(row, 7)?;
    let quantity = columns::measure_of(9_999, row, 8)?;
    let amount = columns::measure_of(999_999_999, row, 9)?;
    let cost = columns::measure_of(999_999_999, row, 10)?;
    Ok(LinkedSale {
        day,
        store_key,
        product_key,
        customer_key,
        store_durable,
        product_durable,
        customer_durable,
        profile,
        quantity,
        amount,
        cost,
    })
}

impl LinkedSale {
    /// Reads a row of these eleven columns. `Damaged`: it has others, or a value is out of its type.
    pub fn read(row: &Row) -> Result<LinkedSale, ParseError<Damaged>>
        ensures ok { IfOk result (λ sale. row.now ≡ read_linked_sale sale) }
        // Refused are the columns that no fact shows.
        ensures err { IfErr result (λ e. e ≢ Memory → (fact : Fact) → IsTrue (has_good_columns fact) → row.now ≢ read_linked_sale (linked fact)) }
    {
        linked_of(row)
    }

    /// One of its fact's keys: a number, or a day as YYYYMMDD.
    pub fn link(&self, which: FactColumn) -> u64
        ensures { result ≡ link_of which self.now }
    {
        match which {
            FactColumn::Surrogate(Dim::Product) => self.product_key,
            FactColumn::Surrogate(Dim::Store) => self.store_key,
            FactColumn::Surrogate(Dim::Customer) => self.customer_key,
            FactColumn::Durable(Dim::Product) => self.product_durable,
            FactColumn::Durable(Dim::Store) => self.store_durable,
            FactColumn::Durable(Dim::Customer) => self.customer_durable,
            FactColumn::Profile => self.profile,
            FactColumn::Day => u64::from(self.day.key()),
        }
    }
}
