//! Queries: what was sold by several attributes at once, for a slice of the sales.
#![tactic(auto)]

mod answer;
mod asked;
mod fault;
mod form;
pub mod laws;
mod led;
mod lines;
mod reading;
mod slice;
mod sums;
mod table;
mod text;

pub use answer::{query, write};
pub use asked::{Column, Condition, Query};
pub use form::Form;
