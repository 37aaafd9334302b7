//! The form of an answer.

/// How the answer to a query is written.
#[derive(Clone, Copy, Debug, PartialEq, Eq)]
pub enum Form {
    /// As CSV, without a total.
    Csv,
    /// As a table for people, with aligned columns and a total.
    Table,
}
