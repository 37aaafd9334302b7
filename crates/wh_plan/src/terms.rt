//! Under what a command is planned.

use wh_policy::{Format, Policy};

/// Under what a command is planned: the format of the tables, and the policy in force.
#[derive(Drop)]
pub struct Terms<'p> {
    /// The format of the tables.
    pub format: Format,
    /// The policy in force.
    pub policy: &'p Policy,
}
