//! Scenarios of the program, by what they are about: each module has one text. All but those of `answers` follow on [`shop::SHOP`].
//! `program` of `wh_program_tests` says what their words mean, and `program::answers` those of `answers`.

pub mod answers;
pub mod checked_commands;
pub mod checks;
pub mod deliveries;
pub mod dumps;
pub mod explained;
pub mod explained_faults;
pub mod explained_warnings;
pub mod lists;
pub mod queries;
pub mod refused_reports;
pub mod reports;
pub mod sessions;
pub mod shop;
pub mod trials;
pub mod upgrades;
pub mod views;
pub mod voids;
pub mod warehouses;
