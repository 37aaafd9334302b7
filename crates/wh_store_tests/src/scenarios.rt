//! The scenarios of `wh_scenarios::store`, a test for each of its modules. Those of files that stop take long, and have a test each.

use crate::driver::StoreDriver;
use crate::files::at_path;
use std::test::Fail;
use wh_scenarios::check;
use wh_scenarios::store::{
    calendar, columns, dimensions, files, making, opening, questions, reading, rows, scans, second,
    transactions, writing,
};

#[test]
fn calendar(rt: HostRuntime) -> Result<(), Fail> {
    check::<StoreDriver>(rt.alloc(), &[calendar::ALL])
}

#[test]
fn columns(rt: HostRuntime) -> Result<(), Fail> {
    check::<StoreDriver>(rt.alloc(), &[columns::ALL])
}

#[test]
fn dimensions(rt: HostRuntime) -> Result<(), Fail> {
    check::<StoreDriver>(rt.alloc(), &[dimensions::ALL])
}

#[test]
fn making_over_a_log_that_stops(rt: HostRuntime) -> Result<(), Fail> {
    check::<StoreDriver>(rt.alloc(), &[files::MAKING_LOG])
}

#[test]
fn edits_over_a_log_that_stops(rt: HostRuntime) -> Result<(), Fail> {
    check::<StoreDriver>(rt.alloc(), &[files::EDITS_LOG])
}

#[test]
fn making_over_a_database_that_stops(rt: HostRuntime) -> Result<(), Fail> {
    check::<StoreDriver>(rt.alloc(), &[files::MAKING_DATABASE])
}

#[test]
fn edits_over_a_database_that_stops(rt: HostRuntime) -> Result<(), Fail> {
    check::<StoreDriver>(rt.alloc(), &[files::EDITS_DATABASE])
}

#[test]
fn the_next_run_finds_what_was_committed(rt: HostRuntime) -> Result<(), Fail> {
    check::<StoreDriver>(rt.alloc(), &[files::RUNS])
}

#[test]
fn a_path_is_opened_again(rt: HostRuntime) -> Result<(), Fail> {
    let shown = at_path(
        &rt,
        "row store 1 Leeds\ncommit",
        "show\nget store 1\ncount store",
    );
    let shown = shown.ok().ok_or("a path")?;
    assert!(rt; shown.as_str() == files::AT_PATH, "{shown}");
    Ok(())
}

#[test]
fn making(rt: HostRuntime) -> Result<(), Fail> {
    check::<StoreDriver>(rt.alloc(), &[making::ALL])
}

#[test]
fn opening(rt: HostRuntime) -> Result<(), Fail> {
    check::<StoreDriver>(rt.alloc(), &[opening::ALL])
}

#[test]
fn questions(rt: HostRuntime) -> Result<(), Fail> {
    check::<StoreDriver>(rt.alloc(), &[questions::ALL])
}

#[test]
fn reading(rt: HostRuntime) -> Result<(), Fail> {
    check::<StoreDriver>(rt.alloc(), &[reading::ALL])
}

#[test]
fn rows(rt: HostRuntime) -> Result<(), Fail> {
    check::<StoreDriver>(rt.alloc(), &[rows::ALL])
}

#[test]
fn scans(rt: HostRuntime) -> Result<(), Fail> {
    check::<StoreDriver>(rt.alloc(), &[scans::ALL])
}

#[test]
fn second(rt: HostRuntime) -> Result<(), Fail> {
    check::<StoreDriver>(rt.alloc(), &[second::ALL])
}

#[test]
fn an_upgrade_over_files_that_stop(rt: HostRuntime) -> Result<(), Fail> {
    check::<StoreDriver>(rt.alloc(), &[second::STOPS])
}

#[test]
fn transactions(rt: HostRuntime) -> Result<(), Fail> {
    check::<StoreDriver>(rt.alloc(), &[transactions::ALL])
}

#[test]
fn writing(rt: HostRuntime) -> Result<(), Fail> {
    check::<StoreDriver>(rt.alloc(), &[writing::ALL])
}
