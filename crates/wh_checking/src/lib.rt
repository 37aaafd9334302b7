//! Whether the rows that are stored, by anybody, are what the commands define that are stored with them.
#![tactic(auto)]

mod alike;
mod checking;
mod compare;
pub mod laws;
mod meta;
mod replica;
mod verdict;

pub use checking::Check;
pub use verdict::Verdict;
