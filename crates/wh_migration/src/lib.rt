//! What a migration to another policy writes, planned from reads of all members, records and facts.
#![tactic(auto)]

mod all_members;
mod calendar_plan;
mod migrated;
mod migration_plan;
mod profile_plan;
mod upgrade_plan;

pub use all_members::members_between;
pub use migration_plan::plan_migration;
pub use upgrade_plan::plan_upgrade;
