//! The scenarios of `wh_scenarios::reading`, a test for each of its modules.

use crate::batches::BatchDriver;
use crate::days::DayDriver;
use crate::histories::HistoryDriver;
use crate::policies::PolicyDriver;
use std::test::Fail;
use wh_scenarios::check;
use wh_scenarios::reading::{batches, days, histories, policies};

#[test]
fn batches(rt: HostRuntime) -> Result<(), Fail> {
    check::<BatchDriver>(rt.alloc(), &[batches::ALL])
}

#[test]
fn days(rt: HostRuntime) -> Result<(), Fail> {
    check::<DayDriver>(rt.alloc(), &[days::ALL])
}

#[test]
fn histories(rt: HostRuntime) -> Result<(), Fail> {
    check::<HistoryDriver>(rt.alloc(), &[histories::ALL])
}

#[test]
fn policies(rt: HostRuntime) -> Result<(), Fail> {
    check::<PolicyDriver>(rt.alloc(), &[policies::ALL])
}
