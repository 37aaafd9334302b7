//! The rows of the warehouse's tables, as values of their own types and as the columns of stored rows.
#![tactic(auto)]

pub mod bound;
mod cause;
mod columns;
mod key;
mod keyed_sale;
mod limits;
mod linked_sale;
mod rows;
mod stored;
mod table;
pub mod tables;

pub use cause::Cause;
pub use columns::Damaged;
pub use key::{ChangeKey, LineKey, MemberKey, dim_number};
pub use keyed_sale::{FactColumn, KeyedSale};
pub use limits::{ID_LIMIT, Limits, MOST_CHANGES, MOST_COMMANDS, MOST_FACTS};
pub use linked_sale::LinkedSale;
pub use rows::{ChangeRow, CommandRow, MemberRow, MetaRow, ProfileRow, VoidRow};
pub use table::Table;
pub use tables::StoredTable;
