//! Scenarios of tables, by what they are about. `driver` of `wh_store_tests` says what their words mean.

pub mod calendar;
pub mod columns;
pub mod dimensions;
pub mod files;
pub mod making;
pub mod opening;
pub mod questions;
pub mod reading;
pub mod rows;
pub mod scans;
pub mod second;
pub mod transactions;
pub mod writing;
