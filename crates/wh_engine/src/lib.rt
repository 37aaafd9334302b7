//! The engine of a warehouse: commands, and what they make of the tables.
#![tactic(auto)]

mod admission;
mod carried;
mod counts;
mod decision;
mod delivery;
mod engine;
mod fault;
mod fresh;
mod init;
pub mod laws;
mod links;
mod opening;
mod planning;
mod preview;
mod reopen;
mod scan;
mod session;
mod tally;
mod tickets;
mod write;

pub use counts::Counts;
pub use delivery::Replies;
pub use engine::Engine;
pub use fault::Fault;
pub use fresh::deliver_fresh;
pub use init::write_init;
pub use opening::InitFault;
pub use preview::Preview;
pub use reopen::{NotReopened, deliver_again, redeliver, restart};
pub use scan::Scan;
pub use wh_admission::{Command, Limit, Receipt, Refusal, Reply};
pub use wh_batch::CommandKind;
pub use wh_records::Part;
pub use wh_store::OpenFault;
pub use write::write_edits;
