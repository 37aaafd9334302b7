//! The words of the program, over any files: what each asks for, and what a run prints and leaves.
#![tactic(auto)]

mod host;
pub mod laws;
mod limits;
mod lines;
mod output;
mod program;
mod visits;

pub use host::{Host, HostError, Visitor, beginning_of};
pub use lines::answer::{Answer, Status};
pub use lines::{
    made, making_answer, no_file, opening_answer, plan_answer, room_for_line, room_for_receipt,
    sent_answer, status_answer,
};
pub use output::{print_answer, print_usage};
pub use program::{run, run_without_words};
