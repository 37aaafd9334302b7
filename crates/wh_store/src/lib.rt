//! The database of a warehouse: opened and taken for one, scanned a part at a time, and kept in files from one run to the next.
#![tactic(auto)]

mod fault;
mod meta;
mod opening;
mod reopen;
mod scan;
mod scratch;

pub use fault::{NotFree, OpenFault};
pub use opening::{find_limits, for_init, open};
pub use reopen::{into_files, open_fresh, open_path, restart};
pub use scan::{Cursor, Scan, next_row};
pub use scratch::{Scratch, open_scratch};
pub use wh_policy::Format;
pub use wh_rows::{Cause, Limits, Table};
pub use wh_sql::{
    BatchedTable, CommandOf, Dimension, FactAggregate, Facts, Greatest, GreatestOf, KeyedTable,
    LastPolicy, LinkAggregate, MemberOf, PagedTable, ProfileOf, Question, ROWS_AT_ONCE, ReadFault,
    RecordsOf, RowsOf, SomeMembers, Tables, Writing,
};
