//! The tables that a list of accepted commands defines, and the laws of them. No code: definitions in `specs/`, and what is proved of them.
#![tactic(auto)]

pub mod laws;
