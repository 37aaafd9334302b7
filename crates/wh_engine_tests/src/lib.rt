//! Tests of the engine as scenarios: `engine` is the driver that makes their steps.
#![tactic(auto)]

#[cfg(test)]
mod engine;
#[cfg(test)]
mod trouble;
