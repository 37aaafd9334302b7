//! A host for the program's words whose files and warehouses are in memory.
#![tactic(auto)]

mod memory;
mod named;

pub use memory::MemoryHost;
