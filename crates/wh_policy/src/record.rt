//! The records that a source sends.

use wh_day::{Day, NaturalKey, Values};

/// What a source says of one member from one day on: a value for each attribute, by slot.
#[derive(Debug, Drop)]
pub struct DimensionRecord {
    /// The natural key: the member's name in the source.
    pub natural: NaturalKey,
    /// The effective day.
    pub day: Day,
    /// The values that hold from that day on.
    pub values: Values,
}

/// One line of a ticket, which is the grain of the facts.
///
/// Kimball & Ross, *The Data Warehouse Toolkit*, 3rd edition, chapter 3, "Declare the Grain".
#[derive(Debug, Drop)]
pub struct SaleRecord {
    /// The number of the ticket.
    pub ticket: NaturalKey,
    /// The line's number on the ticket, 1 to 9999.
    pub line: u32,
    /// The day of sale.
    pub day: Day,
    /// The natural key of the store. A sale may be the first to mention it, and then gives it a placeholder row.
    pub store: NaturalKey,
    /// The natural key of the product, under the same rule.
    pub product: NaturalKey,
    /// The natural key of the card's owner, under the same rule; `None` for a sale without a card.
    pub customer: Option<NaturalKey>,
    /// How many were sold: -9,999 to 9,999 where a batch was read.
    pub quantity: i64,
    /// The amount in hundredths, of either sign.
    pub amount: i64,
    /// The cost in hundredths, of either sign.
    pub cost: i64,
    /// The discount in hundredths, which isn't taken from the amount; 0 in the first format.
    pub discount: u64,
}

/// A line of a ticket that a source withdraws.
#[derive(Debug, Drop)]
pub struct VoidRecord {
    /// The number of the ticket.
    pub ticket: NaturalKey,
    /// The line's number on the ticket, 1 to 9999.
    pub line: u32,
}
