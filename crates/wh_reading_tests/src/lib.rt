//! Tests of what stands below the store: days and texts, policies, batches, and the histories of members.
//!
//! A crate with tests is proved as a program too, so the tests of four crates stand in this one.
#![tactic(auto)]

#[cfg(test)]
mod batches;
#[cfg(test)]
mod days;
#[cfg(test)]
mod echo;
#[cfg(test)]
mod histories;
#[cfg(test)]
mod policies;
#[cfg(test)]
mod scenarios;
#[cfg(test)]
mod words;
