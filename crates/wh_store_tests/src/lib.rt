//! The tests of `wh_store`, `wh_sql` and `wh_rows`, as scenarios: what is done with a warehouse, and what it then answers.
//! `driver` says what their words mean. The tests are in `scenarios`.
#![tactic(auto)]

#[cfg(test)]
mod calendar;
#[cfg(test)]
mod columns;
#[cfg(test)]
mod database;
#[cfg(test)]
mod driver;
#[cfg(test)]
mod facts;
#[cfg(test)]
mod files;
#[cfg(test)]
mod held;
#[cfg(test)]
mod opening;
#[cfg(test)]
mod parts;
#[cfg(test)]
mod place;
#[cfg(test)]
mod questions;
#[cfg(test)]
mod rows;
#[cfg(test)]
mod sales;
#[cfg(test)]
mod scans;
#[cfg(test)]
mod scenarios;
#[cfg(test)]
mod second;
#[cfg(test)]
mod shown;
#[cfg(test)]
mod tables;
#[cfg(test)]
mod trouble;
#[cfg(test)]
mod words;
#[cfg(test)]
mod writing;
