//! What the words of a step mean over the engine.
//!
//! A scenario begins, and begins again, with one of these:
//! - `make POLICY`, `make POLICY COMMANDS CHANGES FACTS`: a warehouse in memory under a policy of
//!   `wh_scenarios::engine::policies`, with the greatest limits or with these;
//! - `empty`: an empty database in memory;
//! - `files`: a database file and its log, both empty, over disks in memory;
//! - `trial`: the tables of a warehouse under the policy of a trial, with no engine over them.
//!
//! A warehouse takes:
//! - `send KIND ID`: the lines that it is handed are the batch, or the policy or its name where KIND is `migrate`, and none where it is `upgrade`; what the
//!   engine answers is the answer;
//! - `deliver`: the lines that it is handed are commands, each a line `KIND ID` and then what `send` is handed, with an empty line between two. The answers
//!   are a line each, and what stopped it is another. For `deliver p1 s1` they are of `batches`, by their ids;
//! - `batch p1`: one of the commands of `batches`, by its id; `load p0 s2`: those from one to another, of which it answers those that aren't
//!   accepted;
//! - `plan KIND ID`: what such a command would write, a line an edit; `writes`: how many keys the last command wrote;
//! - `records DIMENSION FROM`: the batch of the records that carry a dimension's members, from one of them on; `carry POLICY` sends all such batches to a new
//!   warehouse in memory, which is the one for the next step, and answers each batch with what it is answered;
//! - `query COLUMN.. where COLUMN=LABEL where .. FROM TO`, each `where` as wanted: what was sold. A COLUMN is `ATTRIBUTE:MODE`, or `date.month`;
//! - `counts`; `check`; `policy`: the last year, and how many attributes a product has;
//! - `table NAME`: the rows of a table, below the names of its columns; `command NUMBER`: the row of a command;
//! - `mark`: remembers all tables; `same`: whether they are as they were then;
//! - `close`, which leaves the database.
//!
//! A database takes `open`; `init POLICY`; `sql TEXT`; and `number TEXT`, which answers a number that a query gives.
//!
//! Files take what a warehouse does but `mark`, `same` and `close`, each step over a connection of its own, `init POLICY`, and
//! - `stops log STEP`, `stops database STEP`, `stops either STEP`: the disk of the log or of the database file, or one after the other, stops at each call of the
//!   step in turn, those of opening and closing the files included, and then the machine crashes. The step is an `init`, an `open` of a warehouse, a `send`, a `batch`,
//!   a `deliver`, a `check`, a `records`, a `query`, or a `night POLICY p1 s1`: a making, where there is no warehouse, and a delivery in one session. What is found is clean, and as it is with no
//!   stop after what was acknowledged or after that and the next command; the step made again leads to what it leads to with no stop; and an engine whose database refused a call
//!   answers nothing more;
//! - `stops_again DISK CALLS DISK STEP`: the first disk stops after none, so many, twice as many calls and so on, the machine crashes, and each time the second
//!   disk stops at each call of the step made again, as above.
//!
//! Two stand alone. For `redeliver POLICY KIND ID` a warehouse is made in files, is sent a command, the machine crashes, and the command is sent again.
//! For `deliver_again POLICY` it is handed the commands of a delivery, the machine crashes after it, and what wasn't acknowledged is delivered.
//! `planning` has what the tables with no engine take.

mod asking;
mod batches;
mod carrying;
mod columns;
mod deliveries;
mod example;
mod files;
mod memory;
mod planning;
mod plans;
mod readings;
mod scenarios;
mod tables;

use crate::engine::asking::{Work, ask, push_fault, push_opening};
use crate::engine::carrying::carry;
use crate::engine::tables::{all_over, look_over};
use crate::trouble::Trouble;
use sqlite::{Alter, Connection, Files, MemStore};
use sqlite_disk::Memory;
use std::alloc::Global;
use wh_engine::{Engine, InitFault};
use wh_rows::Limits;
use wh_scenarios::engine::policies::policy;
use wh_scenarios::{Driver, NotMade, Step, number, parted, push_line};
use wh_store::Tables;

/// What the next step works on.
#[derive(Drop)]
enum Place {
    Nothing,
    /// A database, which may be no warehouse.
    Database(Connection<MemStore>),
    /// A warehouse that is open for commands.
    Warehouse(Engine<MemStore>),
    /// The tables of a warehouse, with no engine.
    Tables(Tables<MemStore>),
    Files(Files<Memory>),
}

/// Performs scenarios on the engine.
#[derive(Drop)]
pub struct EngineDriver {
    place: Place,
    /// All tables, when they were marked.
    marked: String,
}

impl Driver for EngineDriver {
    fn start(alloc: Global) -> Result<EngineDriver, NotMade> {
        Ok(EngineDriver {
            place: Place::Nothing,
            marked: String::new(alloc),
        })
    }

    fn perform(
        self,
        alloc: Global,
        step: &Step<'_>,
        answer: &mut String,
    ) -> Result<EngineDriver, NotMade> {
        let EngineDriver { place, mut marked } = self;
        let place = performed(alloc, place, step, &mut marked, answer)?;
        Ok(EngineDriver { place, marked })
    }
}

fn performed(
    alloc: Global,
    place: Place,
    step: &Step<'_>,
    marked: &mut String,
    out: &mut String,
) -> Result<Place, Trouble> {
    let (verb, rest) = parted(step.words, ' ');
    let handed = step.handed.as_str();
    match verb {
        "make" => Ok(Place::Warehouse(made(alloc, rest)?)),
        "empty" => Ok(Place::Database(Connection::open_in_memory(alloc)?)),
        "files" => Ok(Place::Files(files::blank(alloc))),
        "trial" => Ok(Place::Tables(planning::trial(alloc)?)),
        "redeliver" => {
            files::redelivered(alloc, rest, handed, out)?;
            Ok(Place::Nothing)
        }
        "deliver_again" => {
            files::delivered_again(alloc, rest, handed, out)?;
            Ok(Place::Nothing)
        }
        _ => on_place(alloc, place, step, marked, out),
    }
}

fn on_place(
    alloc: Global,
    place: Place,
    step: &Step<'_>,
    marked: &mut String,
    out: &mut String,
) -> Result<Place, Trouble> {
    let handed = step.handed.as_str();
    match place {
        Place::Nothing => Err(Trouble),
        Place::Database(conn) => on_database(alloc, conn, step.words, out),
        Place::Warehouse(engine) => on_warehouse(alloc, engine, step, marked, out),
        Place::Tables(mut tables) => {
            planning::step(alloc, &mut tables, step.words, handed, out)?;
            Ok(Place::Tables(tables))
        }
        Place::Files(files) => {
            let files = files::step(alloc, files, step.words, handed, out)?;
            Ok(Place::Files(files))
        }
    }
}

/// `COMMANDS CHANGES FACTS`, or nothing for the greatest limits.
pub fn limits_of(words: &str) -> Result<Limits, Trouble> {
    if words.is_empty() {
        return Ok(Limits::greatest());
    }
    let (commands, rest) = parted(words, ' ');
    let (changes, facts) = parted(rest, ' ');
    Limits::new(number(commands)?, number(changes)?, number(facts)?).ok_or(Trouble)
}

/// A warehouse in memory: `POLICY`, or `POLICY COMMANDS CHANGES FACTS`.
fn made(alloc: Global, rest: &str) -> Result<Engine<MemStore>, Trouble> {
    let (name, limits) = parted(rest, ' ');
    let conn = Connection::open_in_memory(alloc)?;
    match initiated(alloc, conn, name, limits_of(limits)?) {
        Ok(engine) => Ok(engine),
        Err(_) => Err(Trouble),
    }
}

/// A warehouse that is made under a policy.
fn initiated<S: Alter + Drop>(
    alloc: Global,
    conn: Connection<S>,
    name: &str,
    limits: Limits,
) -> Result<Engine<S>, (InitFault, Connection<S>)> {
    Engine::init(alloc, conn, policy(name).as_bytes(), limits)
}

fn on_database(
    alloc: Global,
    conn: Connection<MemStore>,
    words: &str,
    out: &mut String,
) -> Result<Place, Trouble> {
    let (verb, rest) = parted(words, ' ');
    match verb {
        "open" => opened(alloc, conn, out),
        "init" => made_in(alloc, conn, rest, out),
        _ => Ok(Place::Database(tables::run(conn, verb, rest, out)?)),
    }
}

fn opened(alloc: Global, conn: Connection<MemStore>, out: &mut String) -> Result<Place, Trouble> {
    match Engine::open(alloc, conn) {
        Ok(engine) => {
            push_line(out, "opened")?;
            Ok(Place::Warehouse(engine))
        }
        Err((fault, conn)) => {
            push_opening(out, fault)?;
            Ok(Place::Database(conn))
        }
    }
}

fn made_in(
    alloc: Global,
    conn: Connection<MemStore>,
    name: &str,
    out: &mut String,
) -> Result<Place, Trouble> {
    match initiated(alloc, conn, name, Limits::greatest()) {
        Ok(engine) => {
            push_line(out, "made")?;
            Ok(Place::Warehouse(engine))
        }
        Err((fault, conn)) => {
            push_fault(out, fault)?;
            Ok(Place::Database(conn))
        }
    }
}

fn on_warehouse(
    alloc: Global,
    mut engine: Engine<MemStore>,
    step: &Step<'_>,
    marked: &mut String,
    out: &mut String,
) -> Result<Place, Trouble> {
    let (verb, rest) = parted(step.words, ' ');
    match verb {
        "carry" => {
            let mut next = made(alloc, rest)?;
            carry(alloc, &mut engine, &mut next, out)?;
            Ok(Place::Warehouse(next))
        }
        "close" => Ok(Place::Database(engine.close())),
        "table" | "command" | "mark" | "same" => {
            looked_into(alloc, engine, step.words, marked, out)
        }
        _ => {
            let work = Work::of(step.words, step.handed.as_str());
            ask(alloc, &mut engine, work, out)?;
            Ok(Place::Warehouse(engine))
        }
    }
}

/// What the tables under an engine hold, which is closed for it and opened again.
fn looked_into(
    alloc: Global,
    engine: Engine<MemStore>,
    words: &str,
    marked: &mut String,
    out: &mut String,
) -> Result<Place, Trouble> {
    let conn = match words {
        "mark" => {
            let (conn, text) = all_over(alloc, engine.close());
            *marked = text?;
            conn
        }
        "same" => {
            let (conn, text) = all_over(alloc, engine.close());
            let is_same = text?.as_str() == marked.as_str();
            push_line(out, if is_same { "the same" } else { "others" })?;
            conn
        }
        _ => {
            let (conn, text) = look_over(alloc, engine.close(), words);
            out.push_str(text?.as_str())?;
            conn
        }
    };
    match Engine::open(alloc, conn) {
        Ok(engine) => Ok(Place::Warehouse(engine)),
        Err(_) => Err(Trouble),
    }
}
