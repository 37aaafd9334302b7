//! Databases and warehouses that scenarios begin with.

use crate::held::Warehouse;
use crate::trouble::Trouble;
use crate::words::number;
use sqlite::{Alter, Connection, MemStore};
use std::alloc::Global;
use wh_rows::Cause;
use wh_scenarios::parted;
use wh_store::{Format, Limits, NotFree, OpenFault, Tables, for_init, open};

/// `COMMANDS CHANGES FACTS`: these limits.
pub fn limits_of(words: &str) -> Result<Limits, Trouble> {
    let (commands, words) = parted(words, ' ');
    let (changes, facts) = parted(words, ' ');
    match Limits::new(number(commands)?, number(changes)?, number(facts)?) {
        Some(limits) => Ok(limits),
        None => Err(Trouble::NoLimits),
    }
}

/// Makes the ten tables for 10 commands, 200 changes and 3,000 facts, and keeps them.
pub fn make_tables<S: Alter>(alloc: Global, tables: &mut Tables<S>) -> Result<(), Trouble> {
    let limits = limits_of("10 200 3000")?;
    make_for(alloc, tables, limits)?;
    Ok(())
}

fn make_for<S: Alter>(alloc: Global, tables: &mut Tables<S>, limits: Limits) -> Result<u64, Cause> {
    let mut writing = tables.begin()?;
    writing.init(alloc, limits)?;
    writing.commit()
}

/// A database in memory on which this text was run.
pub fn database(alloc: Global, text: &str) -> Result<Connection<MemStore>, Trouble> {
    run(Connection::open_in_memory(alloc)?, text)
}

/// The database on which the text was run.
pub fn run<S: Alter + Drop>(mut conn: Connection<S>, text: &str) -> Result<Connection<S>, Trouble> {
    match conn.execute_batch(text) {
        Ok(()) => Ok(conn),
        Err(error) => Err(Trouble::from(error)),
    }
}

/// The tables that may be made where their names are free.
pub fn free<S: Alter + Drop>(
    conn: Connection<S>,
) -> Result<Warehouse<S>, (NotFree, Connection<S>)> {
    match for_init(conn) {
        Ok(tables) => Ok(Warehouse {
            tables,
            format: Format::One,
        }),
        Err(refused) => Err(refused),
    }
}

/// The tables that are found.
pub fn found<S: Alter + Drop>(
    alloc: Global,
    conn: Connection<S>,
) -> Result<Warehouse<S>, (OpenFault, Connection<S>)> {
    match open(alloc, conn, Format::Two) {
        Ok((tables, format)) => Ok(Warehouse { tables, format }),
        Err(refused) => Err(refused),
    }
}

/// A warehouse in memory, for 10 commands, 200 changes and 3,000 facts.
pub fn warehouse(alloc: Global) -> Result<Warehouse<MemStore>, Trouble> {
    match free(database(alloc, "")?) {
        Ok(mut held) => {
            make_tables(alloc, &mut held.tables)?;
            Ok(held)
        }
        Err((fault, _)) => Err(Trouble::Unmade(fault)),
    }
}

/// The database of a warehouse on which this text was run.
pub fn changed(alloc: Global, text: &str) -> Result<Connection<MemStore>, Trouble> {
    run(warehouse(alloc)?.tables.close(), text)
}

/// The tables of a warehouse that is opened.
pub fn opened<S: Alter + Drop>(alloc: Global, conn: Connection<S>) -> Result<Tables<S>, Trouble> {
    match found(alloc, conn) {
        Ok(held) => Ok(held.tables),
        Err((fault, _)) => Err(Trouble::Unopened(fault)),
    }
}
