//! Where a scenario stands, and its steps.

use crate::columns::{columns, missed};
use crate::database::{on_any_tables, on_connection};
use crate::files::{Disks, blank, run_step, show_copy, stops};
use crate::held::Warehouse;
use crate::opening::{self, changed, database, free, limits_of, warehouse};
use crate::tables::{on_tables, push_limits};
use crate::trouble::Trouble;
use crate::words::{Step, push_answer, push_trouble};
use sqlite::{Connection, MemStore};
use std::alloc::{AllocError, Global};
use wh_store::{Limits, Tables};

/// What the next step works on.
#[derive(Drop)]
pub enum Place {
    Nothing,
    /// A database in memory, which may be no warehouse.
    Database(Connection<MemStore>),
    Warehouse(Warehouse<MemStore>),
    /// A log and a database file in memory.
    Disks(Disks),
}

/// What is there after a step, and what came of it.
type Outcome = (Place, Result<(), Trouble>);

/// Makes a step, and adds its answers, or why it was not made.
pub fn make_step(
    alloc: Global,
    place: Place,
    step: Step<'_>,
    out: &mut String,
) -> Result<Place, AllocError> {
    let (place, answer) = match step.verb {
        "empty" | "makes" | "warehouse" | "opens" | "files" => begun(alloc, step, out),
        "limits_of" => (place, tell_limits(step.rest, out)),
        "columns" => (place, columns(alloc, step, out)),
        "missed" => (place, missed(alloc, step, out)),
        _ => go_on(alloc, place, step, out),
    };
    if let Err(trouble) = answer {
        push_trouble(out, trouble)?;
    }
    Ok(place)
}

/// The limits of these numbers, or the greatest.
fn tell_limits(words: &str, out: &mut String) -> Result<(), Trouble> {
    if words == "greatest" {
        return push_limits(out, Limits::greatest());
    }
    push_limits(out, limits_of(words)?)
}

fn go_on(alloc: Global, place: Place, step: Step<'_>, out: &mut String) -> Outcome {
    match place {
        Place::Nothing => (Place::Nothing, Err(Trouble::Unknown)),
        Place::Database(conn) => from_database(alloc, conn, step, out),
        Place::Warehouse(held) => from_tables(alloc, held, step, out),
        Place::Disks(files) => from_disks(alloc, files, step, out),
    }
}

fn from_disks(alloc: Global, files: Disks, step: Step<'_>, out: &mut String) -> Outcome {
    match step.verb {
        "show" => {
            let answer = show_copy(alloc, &files, out);
            (Place::Disks(files), answer)
        }
        "stops" => {
            let answer = stops(alloc, &files, step, out);
            (Place::Disks(files), answer)
        }
        _ => match run_step(alloc, files, step, out) {
            Ok((files, answer)) => (Place::Disks(files), answer),
            Err(trouble) => (Place::Nothing, Err(trouble)),
        },
    }
}

/// A step that begins anew.
fn begun(alloc: Global, step: Step<'_>, out: &mut String) -> Outcome {
    match step.verb {
        "empty" => at_database(database(alloc, step.rest)),
        "makes" => made(alloc, step.rest, out),
        "opens" => found(alloc, step.rest, out),
        "files" => (Place::Disks(blank(alloc)), Ok(())),
        _ => at_tables(warehouse(alloc)),
    }
}

fn at_database(conn: Result<Connection<MemStore>, Trouble>) -> Outcome {
    match conn {
        Ok(conn) => (Place::Database(conn), Ok(())),
        Err(trouble) => (Place::Nothing, Err(trouble)),
    }
}

fn at_tables(held: Result<Warehouse<MemStore>, Trouble>) -> Outcome {
    match held {
        Ok(held) => (Place::Warehouse(held), Ok(())),
        Err(trouble) => (Place::Nothing, Err(trouble)),
    }
}

/// `TEXT`: an empty database on which the text was run becomes a warehouse, if it may.
fn made(alloc: Global, text: &str, out: &mut String) -> Outcome {
    match database(alloc, text) {
        Ok(conn) => make(conn, out),
        Err(trouble) => (Place::Nothing, Err(trouble)),
    }
}

/// `TEXT`: a warehouse on which the text was run is opened, if it may be.
fn found(alloc: Global, text: &str, out: &mut String) -> Outcome {
    match changed(alloc, text) {
        Ok(conn) => open(alloc, conn, out),
        Err(trouble) => (Place::Nothing, Err(trouble)),
    }
}

fn make(conn: Connection<MemStore>, out: &mut String) -> Outcome {
    match free(conn) {
        Ok(held) => (Place::Warehouse(held), said(out, "free")),
        Err((fault, conn)) => (Place::Database(conn), Err(Trouble::Unmade(fault))),
    }
}

fn open(alloc: Global, conn: Connection<MemStore>, out: &mut String) -> Outcome {
    match opening::found(alloc, conn) {
        Ok(held) => (Place::Warehouse(held), said(out, "opened")),
        Err((fault, conn)) => (Place::Database(conn), Err(Trouble::Unopened(fault))),
    }
}

fn said(out: &mut String, text: &str) -> Result<(), Trouble> {
    Ok(push_answer(out, text)?)
}

fn from_database(
    alloc: Global,
    mut conn: Connection<MemStore>,
    step: Step<'_>,
    out: &mut String,
) -> Outcome {
    match step.verb {
        "make" => make(conn, out),
        "open" => open(alloc, conn, out),
        "sql" | "bound" | "number" | "status" => {
            let answer = on_connection(alloc, &mut conn, step, out);
            (Place::Database(conn), answer)
        }
        _ => {
            let mut tables = Tables::over(conn);
            let answer = on_any_tables(alloc, &mut tables, step, out);
            (Place::Database(tables.close()), answer)
        }
    }
}

fn from_tables(
    alloc: Global,
    mut held: Warehouse<MemStore>,
    step: Step<'_>,
    out: &mut String,
) -> Outcome {
    if step.verb == "close" {
        return (Place::Database(held.tables.close()), Ok(()));
    }
    let answer = on_tables(alloc, &mut held, step, out);
    (Place::Warehouse(held), answer)
}
