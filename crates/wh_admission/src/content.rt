//! What a command says.

ghost use Rattle.std.specs.Prelude.{◌≡◌, List, None, Result};
ghost use Rattle.wh_day.specs.Reading.{Gives};
ghost use Rattle.wh_history.specs.Accepted.{Accepted, format_of, governed, records_by, sold_by, withdrawn_by};
ghost use Rattle.wh_batch.specs.declared.fault.BatchFault.{BatchFault};
ghost use Rattle.wh_admission.specs.Admission.{changes_in, content_of, judged_policy, of_batch, upgrades_again};
ghost use Rattle.wh_admission.specs.Said.{says};

use crate::command::Refusal;
use std::alloc::Global;
use wh_batch::{
    BatchFault, BatchKind, CommandKind, DimensionRecords, SaleRecords, VoidRecords,
    dimension_records, sale_records, void_records,
};
use wh_day::ParseError;
use wh_policy::{Dim, Format, Policy, SaleRecord, VoidRecord};

/// What a command says.
#[derive(Debug, Drop)]
pub enum Content {
    /// This policy takes the place of the one in force.
    Governs(Policy),
    /// Records of members of a dimension.
    Describes(Dim, DimensionRecords),
    /// Lines of tickets that were sold.
    Sells(SaleRecords),
    /// The second format is made.
    Upgrades,
    /// Lines of tickets that are withdrawn.
    Withdraws(VoidRecords),
}

/// A fault of a batch is its command's.
fn of_batch<R: Drop>(read: Result<R, ParseError<BatchFault>>) -> Result<R, ParseError<Refusal>>
    ensures { (given : Result R BatchFault) → Gives (λ r. r) read given → Gives (λ r. r) result (of_batch given) }
{
    match read {
        Ok(records) => Ok(records),
        Err(ParseError::Fault(fault)) => Err(ParseError::Fault(Refusal::Batch(fault))),
        Err(ParseError::Memory) => Err(ParseError::Memory),
    }
}

/// The policy of a migration, where it fits the one in force.
fn newer_policy(alloc: Global, older: &Policy, bytes: &[u8]) -> Result<Policy, ParseError<Refusal>>
    ensures { Gives (λ newer. newer) result (judged_policy older.now bytes.now) }
{
    let newer = match Policy::read(alloc, bytes) {
        Ok(newer) => newer,
        Err(ParseError::Fault(fault)) => return Err(ParseError::Fault(Refusal::Policy(fault))),
        Err(ParseError::Memory) => return Err(ParseError::Memory),
    };
    if !older.fits(&newer) {
        return Err(ParseError::Fault(Refusal::Unfit));
    }
    Ok(newer)
}

impl Content {
    /// What the bytes of a command say in a format and under a policy, the one in force. `Memory` comes where a growth was refused, or where the CSV reader
    /// gave up.
    pub fn read(
        alloc: Global,
        kind: CommandKind,
        format: Format,
        policy: &Policy,
        bytes: &[u8],
    ) -> Result<Content, ParseError<Refusal>>
        ensures { Gives says result (content_of kind format policy.now bytes.now) }
    {
        match kind {
            CommandKind::Batch(BatchKind::Dimension(dim)) => {
                let records = of_batch(dimension_records(alloc, dim, policy, bytes))?;
                Ok(Content::Describes(dim, records))
            }
            CommandKind::Batch(BatchKind::Sales) => {
                let sales = of_batch(sale_records(alloc, policy, format, bytes))?;
                Ok(Content::Sells(sales))
            }
            CommandKind::Batch(BatchKind::Voids) => {
                let lines = of_batch(void_records(alloc, format, bytes))?;
                Ok(Content::Withdraws(lines))
            }
            CommandKind::Migration => Ok(Content::Governs(newer_policy(alloc, policy, bytes)?)),
            CommandKind::Upgrade => Ok(Content::Upgrades),
        }
    }

    /// How many records a batch has; 0 where it is no batch.
    pub fn records(&self) -> u64
        ensures { result ≡ records_by (says self.now) }
    {
        match self {
            Content::Describes(_, records) => records.as_slice().len() as u64,
            Content::Sells(sales) => sales.as_slice().len() as u64,
            Content::Withdraws(lines) => lines.as_slice().len() as u64,
            Content::Governs(_) | Content::Upgrades => 0,
        }
    }

    /// How many records of members.
    pub fn changes(&self) -> u64
        ensures { result ≡ changes_in (says self.now) }
    {
        match self {
            Content::Describes(_, records) => records.as_slice().len() as u64,
            _ => 0,
        }
    }

    /// The lines of tickets that are sold.
    pub fn sold(&self) -> &[SaleRecord]
        ensures { result.now ≡ sold_by (says self.now) }
    {
        match self {
            Content::Sells(sales) => sales.as_slice(),
            _ => &[],
        }
    }

    /// The lines of tickets that are withdrawn.
    pub fn withdrawn(&self) -> &[VoidRecord]
        ensures { result.now ≡ withdrawn_by (says self.now) }
    {
        match self {
            Content::Withdraws(lines) => lines.as_slice(),
            _ => &[],
        }
    }

    /// Whether it makes the second format of tables that have it.
    pub fn upgrades_again(&self, format: Format) -> bool
        ensures { (commands : List Accepted) → format ≡ format_of commands → result ≡ upgrades_again commands (says self.now) }
    {
        matches!(self, Content::Upgrades) && format == Format::Two
    }

    /// The policy of a migration.
    pub fn into_policy(self) -> Option<Policy>
        ensures { result ≡ governed None (says self) }
    {
        match self {
            Content::Governs(policy) => Some(policy),
            _ => None,
        }
    }
}
