//! Scenarios for tests: texts of steps, each with the answer that it must have.
//!
//! A step is a line of words. The lines that it is handed stand after it, each after `> `, and then those that it must answer, each
//! after `= `. The sign alone is an empty line. Lines that are empty or begin with `#` mean nothing.
//!
//!     send store s1
//!     > id,day,city
//!     > S1,2024-01-01,Bern
//!     = accepted 2: 1 records, 0 placeholders
//!
//! `>* ` and `=* ` stand before a pattern: a line for each number of its first range, with the numbers of its ranges as far on. So
//! `=* put calendar {20270101-20270131}` is a line a day.
//!
//! `scenario NAME` begins a scenario: what stands before the first name is made before each, with a driver of its own. What the words mean
//! is a [`Driver`]'s to say, and [`check`] fails with the first line that it answers otherwise, and the name of its scenario. So a further
//! case is a few lines more. The scenarios stand here too, in `reading`, `store`, `engine` and `program`, a text a module, and the crates
//! with their drivers run each as a test, under `scenarios`: a text costs less in a library than in a crate with tests. Beside them stands
//! what the words of several drivers are written in: bytes that a line can't have, and a policy with changes.
#![tactic(auto)]

mod bytes;
pub mod engine;
mod pattern;
mod policy;
pub mod program;
pub mod reading;
mod scenario;
pub mod store;
mod words;

pub use bytes::bytes_of;
pub use policy::{FLAT, changed_flat};
pub use scenario::{Driver, NotMade, Step, check, difference, parted, push_line};
pub use words::{number, place, push_number};
