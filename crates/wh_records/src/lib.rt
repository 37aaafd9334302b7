//! The records that carry the members of one warehouse file to the next, and the batches that they stand in.
#![tactic(auto)]

pub mod laws;
mod member;
mod part;
mod text;

pub use member::{RecordKind, carried_members};
pub use part::{Filling, Part};
