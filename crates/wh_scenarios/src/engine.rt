//! Scenarios of the engine, by what they are about. `engine` of `wh_engine_tests` says what their words mean.

pub mod bands;
pub mod batches;
pub mod carrying;
pub mod deliveries;
pub mod limits;
pub mod migrations;
pub mod opening;
pub mod parts;
pub mod plans;
pub mod policies;
pub mod repeats;
pub mod restarts;
pub mod sales;
pub mod stops;
pub mod upgrades;
pub mod voids;
pub mod worked;
