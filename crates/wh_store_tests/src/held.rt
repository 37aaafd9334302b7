//! A warehouse that steps are made on.

use sqlite::Alter;
use wh_store::{Format, Tables};

/// The tables of a warehouse, and their format.
#[derive(Drop)]
pub struct Warehouse<S: Alter> {
    pub tables: Tables<S>,
    pub format: Format,
}
