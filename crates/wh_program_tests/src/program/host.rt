//! What a scenario does from outside to what stands under a name.

ghost use Rattle.std.specs.Prelude.{⊤};

use sqlite::{Alter, Connection};
use std::alloc::Global;
use std::io;
use std::io::Write;
use wh_memory_host::MemoryHost;
use wh_program::{Host, Visitor};
use wh_scenarios::NotMade;

/// Runs a text on the connection of a file, and answers whether it was taken.
#[derive(Clone, Copy)]
struct Altering<'a> {
    text: &'a str,
}

impl Visitor for Altering<'_> {
    type Output = bool;

    ghost promises = { λ _ _ _ _ _ _. ⊤ };

    fn visit<T: Alter + Drop, W: Write>(
        self,
        _alloc: Global,
        mut connection: Connection<T>,
        _out: &mut W,
    ) -> (bool, Connection<T>, bool) {
        let is_done = connection.execute_batch(self.text).is_ok();
        (is_done, connection, false)
    }
}

/// Runs a text on what stands under a name.
pub fn alter(alloc: Global, host: &mut MemoryHost, name: &str, text: &str) -> Result<(), NotMade> {
    match host.with_connection(alloc, name, Altering { text }, &mut io::sink()) {
        Ok(true) => Ok(()),
        _ => Err(NotMade),
    }
}
