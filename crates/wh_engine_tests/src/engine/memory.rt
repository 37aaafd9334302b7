//! Readings of which a call for memory may be refused. The steps of a scenario call for memory themselves, so these are plain tests.

use crate::engine::asking::{Work, command};
use crate::engine::readings::read;
use crate::trouble::Trouble;
use sqlite::{Connection, MemStore};
use std::alloc::Global;
use std::process::Abort;
use wh_engine::{Engine, Fault};
use wh_rows::{Cause, Limits};
use wh_scenarios::engine::policies::policy;

const FIRST: &str = "id,day,brand\nP1,2024-02-01,Acme\nP2,2024-01-10,Cask\n";

const LATE: &str = "id,day,brand\nP1,2024-01-20,Bolt\n";

const SALES: &str =
    "ticket,line,day,store,product,customer,quantity,amount,cost\nT1,1,2024-03-05,S1,P1,,1,2.50,1.60\nT1,2,2024-03-05,S1,P2,,2,3.00,1.00\n";

/// A warehouse with a first record, dated ones and sales.
fn warehouse(alloc: Global) -> Result<Engine<MemStore>, Trouble> {
    let conn = Connection::open_in_memory(alloc)?;
    let Ok(mut engine) = Engine::init(alloc, conn, policy("small").as_bytes(), Limits::greatest())
    else {
        return Err(Trouble);
    };
    send(alloc, &mut engine, "product", "p1", FIRST)?;
    send(alloc, &mut engine, "product", "p2", LATE)?;
    send(alloc, &mut engine, "sales", "s1", SALES)?;
    Ok(engine)
}

fn send(
    alloc: Global,
    engine: &mut Engine<MemStore>,
    kind: &str,
    id: &str,
    lines: &str,
) -> Result<(), Trouble> {
    let command = command(alloc, kind, id, lines)?;
    match engine.apply(alloc, &command) {
        Ok(_) => Ok(()),
        Err(_) => Err(Trouble),
    }
}

fn is_whole(found: &Result<Vec<u8>, Fault>, text: &str) -> bool {
    match found {
        Ok(bytes) => bytes.as_slice() == text.as_bytes(),
        Err(_) => false,
    }
}

fn is_short(found: &Result<Vec<u8>, Fault>) -> bool {
    matches!(found, Err(Fault::Memory | Fault::Store(Cause::Memory)))
}

fn must_reopen(found: &Result<Vec<u8>, Fault>) -> bool {
    matches!(found, Err(Fault::Reopen))
}

/// Fails where a reading answers otherwise than with this text or that memory ran out, or, made again after a refusal of the database, otherwise than
/// that the warehouse has to be opened again.
fn expect_whole_or_short(rt: &impl Abort, alloc: Global, words: &str, text: &str) {
    let Ok(mut engine) = warehouse(alloc) else {
        return;
    };
    let work = Work::of(words, "");
    let Ok(found) = read(alloc, &mut engine, work) else {
        return;
    };
    let Ok(again) = read(alloc, &mut engine, work) else {
        return;
    };
    let is_stopped = matches!(found, Err(Fault::Store(_)));
    assert!(rt; is_whole(&found, text) || is_short(&found));
    assert!(rt; must_reopen(&again) == is_stopped);
    assert!(rt; is_stopped || is_whole(&again, text) || is_short(&again));
}

/// First records.
#[test]
fn tells_want_of_memory_in_first_records(rt: HostRuntime) {
    expect_whole_or_short(
        &rt,
        rt.alloc(),
        "records product 0",
        "id,day,brand\nP1,2024-01-20,Acme\n",
    );
}

/// Dated records, of which the first ones are read before.
#[test]
fn tells_want_of_memory_in_dated_records(rt: HostRuntime) {
    expect_whole_or_short(
        &rt,
        rt.alloc(),
        "records product 1",
        "id,day,brand\nP1,2024-01-20,Bolt\nP1,2024-02-01,Acme\nP2,2024-01-10,Cask\n",
    );
}

/// A query.
#[test]
fn tells_want_of_memory_in_a_query(rt: HostRuntime) {
    expect_whole_or_short(
        &rt,
        rt.alloc(),
        "query product.brand:was where store.city:was=(unknown) 2024-01-01 2024-12-31",
        "product.brand:was,lines,quantity,amount,cost,margin\nAcme,1,1,2.50,1.60,0.90\nCask,1,2,3.00,1.00,2.00\n",
    );
}
