//! Tests of the program as scenarios, and the drivers that make their steps: `program` is that of its words, `program::answers` that of
//! the lines that it prints.
#![tactic(auto)]

#[cfg(test)]
mod program;
