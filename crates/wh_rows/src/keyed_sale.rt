//! What is shown of a fact where sales are summed by one of its keys.

ghost use Rattle.std.specs.Prelude.{◌≡◌, ◌≢◌, IsTrue, IfOk, IfErr};
ghost use Rattle.sqlite_value.specs.Order.{column};
ghost use Rattle.wh_day.specs.Reading.{Gives};
ghost use Rattle.wh_day.specs.declared.error.ParseError.TheVariants.{Memory};
ghost use Rattle.wh_history.specs.declared.facts.Fact.{Fact};
ghost use Rattle.wh_rows.specs.KeyedSales.{read_keyed_sale, keyed, key_in, keyed_of};
ghost use Rattle.wh_rows.specs.Rows.{has_good_columns};

use crate::columns::{self, Damaged};
use sqlite::Row;
use wh_day::{Day, ParseError};
use wh_policy::Dim;

/// The keys by which a fact names rows of other tables.
///
/// Kimball & Ross, *The Data Warehouse Toolkit*, 3rd edition, chapter 5, "Type 7: Dual Type 1 and Type 2 Dimensions": the surrogate key leads to
/// what was so on the day of sale, the durable key to what is so now.
#[derive(Clone, Copy, Debug, PartialEq, Eq)]
pub enum FactColumn {
    /// The surrogate key of the row of a dimension that holds the day of sale.
    Surrogate(Dim),
    /// The durable key of a member of a dimension.
    Durable(Dim),
    /// The number of the customer's profile on the day of sale.
    Profile,
    /// The day of sale, which is the key of the calendar.
    Day,
}

/// A sale by one of its fact's keys: what a sum of sales needs of it, and no text.
#[derive(Clone, Copy, Debug, PartialEq, Eq)]
pub struct KeyedSale {
    /// The day of sale.
    pub day: Day,
    /// The key by which it is summed: a number, or a day as YYYYMMDD.
    pub key: u64,
    /// How many were sold.
    pub quantity: i64,
    /// The amount in hundredths.
    pub amount: i64,
    /// The cost in hundredths.
    pub cost: i64,
}

/// A key of another table's row: a number, or a day.
#[tactic(auto, unfolding(crate::specs::KeyedSales::key_in, crate::specs::Columns::integer_of))]
fn key_in(row: &Row, at: usize) -> Result<u64, ParseError<Damaged>>
    ensures { Gives (λ key. key) result (key_in (column row.now at)) }
{
    let key = columns::integer_of(row, at)?;
    if key < 0 {
        return Err(ParseError::Fault(Damaged));
    }
    Ok(key as u64)
}

/// The five columns.
#[tactic(auto, unfolding(crate::specs::KeyedSales::keyed_of))]
fn keyed_of(row: &Row) -> Result<KeyedSale, ParseError<Damaged>>
    ensures { Gives (λ sale. sale) result (keyed_of row.now) }
{
    if row.column_count() != 5 {
        return Err(ParseError::Fault(Damaged));
    }
    let day = columns::day_of(row, 0)?;
    let key = key_in(row, 1)?;
    let quantity = columns::measure_of(9_999, row, 2)?;
    let amount = columns::measure_of(999_999_999, row, 3)?;
    let cost = columns::measure_of(999_999_999, row, 4)?;
    Ok(KeyedSale {
        day,
        key,
        quantity,
        amount,
        cost,
    })
}

impl KeyedSale {
    /// Reads a row of these five columns. `Damaged`: it has others, or a value is out of its type.
    pub fn read(row: &Row) -> Result<KeyedSale, ParseError<Damaged>>
        ensures ok { IfOk result (λ sale. row.now ≡ read_keyed_sale sale) }
        // Refused are the columns that no fact shows by any of its keys.
        ensures err { IfErr result (λ e. e ≢ Memory → (which : _) (fact : Fact) → IsTrue (has_good_columns fact) → row.now ≢ read_keyed_sale (keyed which fact)) }
    {
        keyed_of(row)
    }
}
