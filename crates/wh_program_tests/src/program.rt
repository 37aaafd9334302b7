//! What the words of a step mean over the program.
//!
//! Files and warehouses stay from step to step, all in memory. Files are written by
//! - `file NAME`: the lines that it is handed; `bytes NAME TEXT`: a text in which `\n`, `\r` and `\x` with two hexadecimal digits are
//!   bytes; `policy NAME CHANGES`: the policy of `wh_scenarios` with changes;
//! - `many NAME NUMBER`: a batch of so many products; `undated NAME NUMBER`: the same, each from a day that no calendar has;
//!   `long NAME NUMBER`: so many letters.
//!
//! A run has the words of its step, parted by blanks, and then those that it is handed, each a line. A file's name is no warehouse's.
//! After what was printed stands the status, but where the lines say it: 4 where one begins with `error: `, else 3 where one begins with
//! `failed: ` or `wrong: `, 2 with `refused: `, and 0 where none does.
//! - `run WORDS` answers the lines that were printed and, of a warehouse that it wrote to, what a check prints where it isn't clean;
//!   `lines WORDS` how many lines they are.
//! - `ends STATUS WORDS` answers nothing where the run ends with this status and prints something, and a check of what it wrote is clean.
//! - `each WORDS` makes a run for each line that it is handed, whose words follow these. It answers what the first is answered, and of each
//!   other that is answered otherwise its line and that.
//! - `report NAME WORDS` answers a report without its first line, which has these words.
//! - `table NAME TABLE COLUMN..` answers such columns of a table.
//! - `changed NAME TEXT` alters what stands under a name as `sql` does, answers what a check prints, and alters it back with the line that
//!   it is handed.
//! - `session FILE` answers what a session of the lines that it is handed prints.
//! - `breaks BYTES WORDS` makes the run again and again, on a page that takes so many bytes a call and fails from a call on, or at a call
//!   alone. It answers how many calls there are, and what was written.
//! - `fails BYTES FROM TO WORDS` makes the run once, on a page that takes so many bytes a call and fails from the call FROM, the first being 0, to before
//!   the call TO. It answers what was written.
//!
//! `sql NAME TEXT` alters what stands under a name, `stands NAME` answers whether anything does, and `anew` forgets all warehouses.

mod answers;
mod broken;
mod files;
mod host;
mod memory;
mod page;
mod printed;
mod runs;
mod scenarios;

use crate::program::broken::{breaks, fails};
use crate::program::files::{add_file, add_large_file};
use crate::program::host::alter;
use crate::program::runs::{changed, each, ends, lines, report, run_step, session, table};
use std::alloc::Global;
use wh_memory_host::MemoryHost;
use wh_scenarios::{Driver, NotMade, Step, parted, push_line};

/// Makes the steps of scenarios of the program.
#[derive(Drop)]
pub struct ProgramDriver {
    host: MemoryHost,
}

impl Driver for ProgramDriver {
    fn start(alloc: Global) -> Result<ProgramDriver, NotMade> {
        Ok(ProgramDriver {
            host: MemoryHost::new(alloc),
        })
    }

    fn perform(
        self,
        alloc: Global,
        step: &Step<'_>,
        answer: &mut String,
    ) -> Result<ProgramDriver, NotMade> {
        let ProgramDriver { mut host } = self;
        perform(alloc, &mut host, step, answer)?;
        Ok(ProgramDriver { host })
    }
}

fn perform(
    alloc: Global,
    host: &mut MemoryHost,
    step: &Step<'_>,
    out: &mut String,
) -> Result<(), NotMade> {
    let (verb, rest) = parted(step.words, ' ');
    let handed = step.handed.as_str();
    match verb {
        "run" => run_step(alloc, host, rest, handed, out),
        "lines" => lines(alloc, host, rest, handed, out),
        "ends" => ends(alloc, host, rest, handed, out),
        "each" => each(alloc, host, rest, handed, out),
        "report" => report(alloc, host, rest, out),
        "table" => table(alloc, host, rest, out),
        "changed" => changed(alloc, host, rest, handed, out),
        "session" => session(alloc, host, rest, handed, out),
        "breaks" => breaks(alloc, host, rest, out),
        "fails" => fails(alloc, host, rest, out),
        "stands" => push_standing(host, rest, out),
        _ => prepare(alloc, host, step),
    }
}

fn push_standing(host: &MemoryHost, name: &str, out: &mut String) -> Result<(), NotMade> {
    let line = if host.stands(name) { "yes" } else { "no" };
    Ok(push_line(out, line)?)
}

/// A step that answers nothing.
fn prepare(alloc: Global, host: &mut MemoryHost, step: &Step<'_>) -> Result<(), NotMade> {
    let (verb, rest) = parted(step.words, ' ');
    let (name, rest) = parted(rest, ' ');
    match verb {
        "anew" => {
            host.forget_warehouses(alloc);
            Ok(())
        }
        "sql" => alter(alloc, host, name, rest),
        "many" | "undated" | "long" => add_large_file(alloc, host, verb, name, rest),
        _ => add_file(alloc, host, step),
    }
}
