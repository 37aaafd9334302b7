//! What a check finds.

use wh_rows::Table;

/// What a check finds of the tables: ten in format 1, twelve in format 2.
#[derive(Clone, Copy, Debug, PartialEq, Eq)]
pub enum Verdict {
    /// They are those of the commands that they hold.
    Clean,
    /// This is the first that isn't as the commands define it.
    Wrong(Table),
}
