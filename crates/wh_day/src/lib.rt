//! Civil days, attribute values, and the rows of the calendar.
#![tactic(auto)]

mod calendar;
mod day;
mod error;
mod holiday;
pub mod laws;
mod natural_key;
mod value;
mod values;

pub use calendar::{DateRow, date_row};
pub use day::Day;
pub use error::ParseError;
pub use holiday::{Holiday, Holidays};
pub use natural_key::{KEY_LIMIT, NaturalKey, TICKET_LIMIT, is_key};
pub use value::{VALUE_LIMIT, Value};
pub use values::{Values, are_same};
