//! The scenarios of `wh_scenarios::program`, a test for each of its modules.

use crate::program::ProgramDriver;
use crate::program::answers::AnswerDriver;
use std::test::Fail;
use wh_scenarios::check;
use wh_scenarios::program::shop::{NIGHT, SHOP};
use wh_scenarios::program::{
    answers, checked_commands, checks, deliveries, dumps, explained, explained_faults,
    explained_warnings, lists, queries, refused_reports, reports, sessions, trials, upgrades,
    views, voids, warehouses,
};

#[test]
fn answers(rt: HostRuntime) -> Result<(), Fail> {
    check::<AnswerDriver>(rt.alloc(), &[answers::ALL])
}

#[test]
fn checked_commands(rt: HostRuntime) -> Result<(), Fail> {
    check::<ProgramDriver>(rt.alloc(), &[SHOP, NIGHT, checked_commands::ALL])
}

#[test]
fn checks(rt: HostRuntime) -> Result<(), Fail> {
    check::<ProgramDriver>(rt.alloc(), &[SHOP, NIGHT, checks::ALL])
}

#[test]
fn deliveries(rt: HostRuntime) -> Result<(), Fail> {
    check::<ProgramDriver>(rt.alloc(), &[SHOP, deliveries::ALL])
}

#[test]
fn dumps(rt: HostRuntime) -> Result<(), Fail> {
    check::<ProgramDriver>(rt.alloc(), &[SHOP, dumps::ALL])
}

#[test]
fn explained(rt: HostRuntime) -> Result<(), Fail> {
    check::<ProgramDriver>(rt.alloc(), &[SHOP, explained::ALL])
}

#[test]
fn explained_faults(rt: HostRuntime) -> Result<(), Fail> {
    check::<ProgramDriver>(rt.alloc(), &[SHOP, explained_faults::ALL])
}

#[test]
fn explained_warnings(rt: HostRuntime) -> Result<(), Fail> {
    check::<ProgramDriver>(rt.alloc(), &[SHOP, explained_warnings::ALL])
}

#[test]
fn lists(rt: HostRuntime) -> Result<(), Fail> {
    check::<ProgramDriver>(rt.alloc(), &[SHOP, lists::ALL])
}

#[test]
fn queries(rt: HostRuntime) -> Result<(), Fail> {
    check::<ProgramDriver>(rt.alloc(), &[SHOP, queries::ALL])
}

#[test]
fn refused_reports(rt: HostRuntime) -> Result<(), Fail> {
    check::<ProgramDriver>(rt.alloc(), &[SHOP, refused_reports::ALL])
}

#[test]
fn reports(rt: HostRuntime) -> Result<(), Fail> {
    check::<ProgramDriver>(rt.alloc(), &[SHOP, reports::ALL])
}

#[test]
fn sessions(rt: HostRuntime) -> Result<(), Fail> {
    check::<ProgramDriver>(rt.alloc(), &[SHOP, sessions::ALL])
}

#[test]
fn trials(rt: HostRuntime) -> Result<(), Fail> {
    check::<ProgramDriver>(rt.alloc(), &[SHOP, trials::ALL])
}

#[test]
fn upgrades(rt: HostRuntime) -> Result<(), Fail> {
    check::<ProgramDriver>(rt.alloc(), &[SHOP, NIGHT, upgrades::ALL])
}

#[test]
fn views(rt: HostRuntime) -> Result<(), Fail> {
    check::<ProgramDriver>(rt.alloc(), &[SHOP, views::ALL])
}

#[test]
fn voids(rt: HostRuntime) -> Result<(), Fail> {
    check::<ProgramDriver>(rt.alloc(), &[SHOP, NIGHT, voids::ALL])
}

#[test]
fn warehouses(rt: HostRuntime) -> Result<(), Fail> {
    check::<ProgramDriver>(rt.alloc(), &[SHOP, warehouses::ALL])
}
