//! The words of the program: what each asks for, and their help.
#![tactic(auto)]

mod app;
mod command;
mod given;
pub mod laws;
mod line;
mod query;
mod query_list;
mod wrong_word;

pub use app::program_app;
pub use command::{AskedReport, Request, Task, Work, parse};
pub use line::{LINE_LIMIT, Line, read_line};
pub use query::AskedQuery;
pub use query_list::QueryList;
pub use wrong_word::{MODES, wrong_word_line};
