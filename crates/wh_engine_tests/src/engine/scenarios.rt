//! The scenarios of `wh_scenarios::engine`, a test for each of its modules. Those of files that stop take long, and have a test each.

use crate::engine::EngineDriver;
use std::test::Fail;
use wh_scenarios::check;
use wh_scenarios::engine::{
    bands, batches, carrying, deliveries, limits, migrations, opening, parts, plans, repeats,
    restarts, sales, stops, upgrades, voids, worked,
};

#[test]
fn bands(rt: HostRuntime) -> Result<(), Fail> {
    check::<EngineDriver>(rt.alloc(), &[bands::ALL])
}

#[test]
fn batches(rt: HostRuntime) -> Result<(), Fail> {
    check::<EngineDriver>(rt.alloc(), &[batches::ALL])
}

#[test]
fn carrying(rt: HostRuntime) -> Result<(), Fail> {
    check::<EngineDriver>(rt.alloc(), &[carrying::ALL])
}

#[test]
fn deliveries(rt: HostRuntime) -> Result<(), Fail> {
    check::<EngineDriver>(rt.alloc(), &[deliveries::ALL])
}

#[test]
fn stops_of_a_delivery(rt: HostRuntime) -> Result<(), Fail> {
    check::<EngineDriver>(rt.alloc(), &[deliveries::STOPS])
}

#[test]
fn limits(rt: HostRuntime) -> Result<(), Fail> {
    check::<EngineDriver>(rt.alloc(), &[limits::ALL])
}

#[test]
fn migrations(rt: HostRuntime) -> Result<(), Fail> {
    check::<EngineDriver>(rt.alloc(), &[migrations::ALL])
}

#[test]
fn opening(rt: HostRuntime) -> Result<(), Fail> {
    check::<EngineDriver>(rt.alloc(), &[opening::ALL])
}

#[test]
fn parts(rt: HostRuntime) -> Result<(), Fail> {
    check::<EngineDriver>(rt.alloc(), &[parts::ALL])
}

#[test]
fn plans(rt: HostRuntime) -> Result<(), Fail> {
    check::<EngineDriver>(rt.alloc(), &[plans::ALL])
}

#[test]
fn repeats(rt: HostRuntime) -> Result<(), Fail> {
    check::<EngineDriver>(rt.alloc(), &[repeats::ALL])
}

#[test]
fn restarts(rt: HostRuntime) -> Result<(), Fail> {
    check::<EngineDriver>(rt.alloc(), &[restarts::ALL])
}

#[test]
fn sales(rt: HostRuntime) -> Result<(), Fail> {
    check::<EngineDriver>(rt.alloc(), &[sales::ALL])
}

#[test]
fn stops_of_making(rt: HostRuntime) -> Result<(), Fail> {
    check::<EngineDriver>(rt.alloc(), &[stops::MAKING])
}

#[test]
fn stops_of_opening(rt: HostRuntime) -> Result<(), Fail> {
    check::<EngineDriver>(rt.alloc(), &[stops::OPENING])
}

#[test]
fn stops_of_products(rt: HostRuntime) -> Result<(), Fail> {
    check::<EngineDriver>(rt.alloc(), &[stops::PRODUCTS])
}

#[test]
fn stops_of_sales(rt: HostRuntime) -> Result<(), Fail> {
    check::<EngineDriver>(rt.alloc(), &[stops::SALES])
}

#[test]
fn stops_of_migrations(rt: HostRuntime) -> Result<(), Fail> {
    check::<EngineDriver>(rt.alloc(), &[stops::MIGRATIONS])
}

#[test]
fn stops_of_check(rt: HostRuntime) -> Result<(), Fail> {
    check::<EngineDriver>(rt.alloc(), &[stops::CHECK])
}

#[test]
fn stops_of_records(rt: HostRuntime) -> Result<(), Fail> {
    check::<EngineDriver>(rt.alloc(), &[stops::RECORDS])
}

#[test]
fn stops_of_query(rt: HostRuntime) -> Result<(), Fail> {
    check::<EngineDriver>(rt.alloc(), &[stops::QUERY])
}

#[test]
fn stops_of_night(rt: HostRuntime) -> Result<(), Fail> {
    check::<EngineDriver>(rt.alloc(), &[stops::NIGHT])
}

#[test]
fn stops_of_upgraded_night(rt: HostRuntime) -> Result<(), Fail> {
    check::<EngineDriver>(rt.alloc(), &[stops::UPGRADED_NIGHT])
}

#[test]
fn stops_of_upgraded_night_of_the_database(rt: HostRuntime) -> Result<(), Fail> {
    check::<EngineDriver>(rt.alloc(), &[stops::UPGRADED_NIGHT_OF_THE_DATABASE])
}

#[test]
fn stops_of_making_again(rt: HostRuntime) -> Result<(), Fail> {
    check::<EngineDriver>(rt.alloc(), &[stops::MAKING_AGAIN])
}

#[test]
fn stops_of_delivery_again(rt: HostRuntime) -> Result<(), Fail> {
    check::<EngineDriver>(rt.alloc(), &[stops::DELIVERY_AGAIN])
}

#[test]
fn upgrades(rt: HostRuntime) -> Result<(), Fail> {
    check::<EngineDriver>(rt.alloc(), &[upgrades::ALL])
}

#[test]
fn stops_of_an_upgrade(rt: HostRuntime) -> Result<(), Fail> {
    check::<EngineDriver>(rt.alloc(), &[upgrades::STOPS])
}

#[test]
fn stops_of_a_night_with_an_upgrade(rt: HostRuntime) -> Result<(), Fail> {
    check::<EngineDriver>(rt.alloc(), &[upgrades::NIGHTS])
}

#[test]
fn voids(rt: HostRuntime) -> Result<(), Fail> {
    check::<EngineDriver>(rt.alloc(), &[voids::ALL])
}

#[test]
fn stops_of_a_void(rt: HostRuntime) -> Result<(), Fail> {
    check::<EngineDriver>(rt.alloc(), &[voids::STOPS])
}

#[test]
fn worked(rt: HostRuntime) -> Result<(), Fail> {
    check::<EngineDriver>(rt.alloc(), &[worked::ALL])
}
