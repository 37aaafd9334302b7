//! What the fields of a column may hold, in a few words.

use crate::shown::{Shown, push};
use std::alloc::AllocError;
use wh_batch::{BATCH_LIMIT, Column, Holds, MOST_RECORDS};
use wh_day::{KEY_LIMIT, TICKET_LIMIT, VALUE_LIMIT};
use wh_policy::{FIRST_YEAR, LAST_YEAR, Years};

/// The most bytes of a field that has a limit.
pub(crate) fn most_bytes(holds: Holds) -> Option<usize> {
    match holds {
        Holds::Ticket => Some(TICKET_LIMIT),
        Holds::Key | Holds::CustomerKey => Some(KEY_LIMIT),
        Holds::Value => Some(VALUE_LIMIT),
        _ => None,
    }
}

/// What follows the number of characters that a natural key may have.
const OF_KEY: &str = " letters A-Z or a-z, digits, -, _ and .";

/// What follows the number of bytes that a value may have.
const OF_VALUE: &str = " bytes of UTF-8 without control characters and without ( in front";

fn push_days(text: &mut Vec<u8>) -> Result<(), AllocError> {
    push!(text; "from ", FIRST_YEAR, "-01-01 to ", LAST_YEAR, "-12-31")
}

/// What a field may hold, where the calendar is no matter.
pub(crate) fn push_wanted_of(text: &mut Vec<u8>, holds: Holds) -> Result<(), AllocError> {
    match holds {
        Holds::Ticket => push!(text; "1 to ", TICKET_LIMIT, OF_KEY),
        Holds::Key => push!(text; "1 to ", KEY_LIMIT, OF_KEY),
        Holds::CustomerKey => push!(text; "nothing, or 1 to ", KEY_LIMIT, OF_KEY),
        Holds::Day => push!(text; "a day as YYYY-MM-DD"),
        Holds::EffectiveDay => {
            push!(text; "a day as YYYY-MM-DD, ")?;
            push_days(text)
        }
        Holds::Value => push!(text; "nothing, or up to ", VALUE_LIMIT, OF_VALUE),
        Holds::Line => push!(text; "a whole number from 1 to 9999"),
        Holds::Quantity => push!(text; "a whole number from -9999 to 9999"),
        Holds::Amount =>
            push!(text; "a number such as 12.50 or -3, with up to 7 digits and up to 2 behind a point"),
        Holds::Discount =>
            push!(text; "a number such as 12.50, without a sign, with up to 7 digits and up to 2 behind a point"),
    }
}

impl Shown for Years {
    fn push_to(self, text: &mut Vec<u8>) -> Result<(), AllocError> {
        push!(text; u64::from(self.first), " to ", u64::from(self.last))
    }
}

/// Whether batches with these columns are of sales.
fn has_sales(columns: &[Column]) -> bool {
    columns
        .iter()
        .any(|column| matches!(column.holds(), Holds::Quantity))
}

/// How big a batch with these columns may be, and, where its records are sales, that tickets differ.
pub(crate) fn push_limits(text: &mut Vec<u8>, columns: &[Column]) -> Result<(), AllocError> {
    let records = u64::from(MOST_RECORDS);
    push!(text; "a batch has at most ", records, " records and ", BATCH_LIMIT, " bytes\n")?;
    if !has_sales(columns) {
        return Ok(());
    }
    push!(text; "a line of a ticket is sold once, so tickets have to differ over all shops and years\n")
}

/// What a field may hold.
pub(crate) fn push_wanted(
    text: &mut Vec<u8>,
    holds: Holds,
    years: Years,
) -> Result<(), AllocError> {
    push_wanted_of(text, holds)?;
    match holds {
        Holds::Day => push!(text; ", of the years ", years),
        _ => Ok(()),
    }
}
