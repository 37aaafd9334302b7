//! A session: the commands of a console, answered one after the other, each as the program answers its words.
#![tactic(auto)]

mod console;
pub mod laws;
mod line;
mod session;

pub use console::{Console, ReaderConsole};
pub use session::run;
