//! Commands, which of them a warehouse accepts, and whether what is stored is what they define.
#![tactic(auto)]

mod command;
mod content;
pub mod laws;

pub use command::{Command, Limit, Receipt, Refusal, Reply};
pub use content::Content;
