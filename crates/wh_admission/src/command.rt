//! Commands, and what is answered to them.

ghost use Rattle.std.specs.Prelude.{◌≡◌, IfOk};
ghost use Rattle.wh_admission.specs.Admission.{kept_bytes};
ghost use Rattle.wh_admission.specs.Repeated.{receipt_of_known, row_of_command};

use sqlite_value::value::Bytes;
use std::alloc::{AllocError, Global};
use thiserror::Error;
use wh_batch::{BatchFault, CommandKind};
use wh_day::Value;
use wh_policy::PolicyFault;
use wh_rows::CommandRow;

/// A batch, a policy or an upgrade as it is sent, under a name that its sender gives it.
#[derive(Debug, Drop)]
pub struct Command {
    /// What the sender calls it. The same command may come again under the same id.
    pub id: Value,
    /// What the command is.
    pub kind: CommandKind,
    /// The batch, or the policy file. Of an upgrade none are kept, and none compared.
    pub bytes: Bytes,
}

impl Command {
    /// What is kept of its bytes.
    pub fn kept_bytes(&self) -> &[u8]
        ensures { result.now ≡ kept_bytes self.now.kind self.now.bytes }
    {
        match self.kind {
            CommandKind::Batch(_) | CommandKind::Migration => self.bytes.as_slice(),
            CommandKind::Upgrade => &[],
        }
    }

    /// Its row among the accepted commands. The row of one that brings placeholders has their number besides.
    pub fn row(&self, alloc: Global, number: u64, records: u64) -> Result<CommandRow, AllocError>
        ensures { IfOk result (λ row. row ≡ row_of_command self.now number records) }
    {
        Ok(CommandRow {
            number,
            id: self.id.copy()?,
            kind: Value::new(alloc, self.kind.word())?,
            bytes: Bytes::from_slice(alloc, self.kept_bytes())?,
            records,
            placeholders: 0,
        })
    }

    /// The receipt that was kept under its id, in this row. It came again where kind and bytes are the same too.
    pub fn receipt_again(&self, row: &CommandRow) -> Result<Receipt, Refusal>
        ensures { result ≡ receipt_of_known row.now self.now }
    {
        if row.kind.as_str() == self.kind.word() && row.bytes.as_slice() == self.kept_bytes() {
            return Ok(Receipt {
                number: row.number,
                records: row.records,
                placeholders: row.placeholders,
            });
        }
        Err(Refusal::Reused)
    }
}

/// What an accepted command is answered, now and whenever it comes again.
#[derive(Clone, Copy, Debug, PartialEq, Eq)]
pub struct Receipt {
    /// Its number among the accepted commands, from 1. The making has the number 1.
    pub number: u64,
    /// How many records its batch has; 0 where it is no batch.
    pub records: u64,
    /// How many members a sale of this command was the first to mention: each got a placeholder row.
    ///
    /// Kimball & Ross, *The Data Warehouse Toolkit*, 3rd edition, chapter 2, "Late Arriving Dimensions".
    pub placeholders: u64,
}

/// The answer to a command that is kept.
#[derive(Clone, Copy, Debug, PartialEq, Eq)]
pub enum Reply {
    /// The command was accepted now.
    Accepted(Receipt),
    /// The command came again; nothing was read or written further.
    Already(Receipt),
}

/// What a warehouse can be full of.
#[derive(Clone, Copy, Debug, PartialEq, Eq)]
pub enum Limit {
    /// The accepted commands, with the making.
    Commands,
    /// The accepted records of members.
    Changes,
    /// The accepted sales, with those that were withdrawn.
    Facts,
}

/// Why a command isn't accepted. It isn't kept, and may be sent again.
#[derive(Clone, Copy, Debug, PartialEq, Eq, Error)]
pub enum Refusal {
    /// The id isn't 1 to 40 letters, digits, `-`, `_` or `.`.
    #[error("the id is a bad one")]
    BadId,
    /// Another accepted command has this id.
    #[error("another command has the id")]
    Reused,
    /// The batch has this fault.
    #[error("the batch has a fault")]
    Batch(BatchFault),
    /// The policy has this fault.
    #[error("the policy has a fault")]
    Policy(PolicyFault),
    /// The policy doesn't fit the one in force: a name or a year is lost, or a name stands in another slot.
    #[error("the policy does not fit the one in force")]
    Unfit,
    /// The warehouse has the second format.
    #[error("the warehouse has the second format")]
    Upgraded,
    /// A table, an index or a view of somebody else's has a name that the second format needs. No list of commands says so: it is found in the file.
    #[error("a name of the second format is taken")]
    NameTaken,
    /// The first sale, from 1, whose line has a stored fact or was withdrawn.
    #[error("the line of the ticket was sold before")]
    LineThere(u64),
    /// The first void, from 1, whose ticket and line no stored fact has.
    #[error("no fact of the ticket and line is there")]
    NoLine(u64),
    /// A limit of the warehouse is reached, or would be passed.
    #[error("a limit of the warehouse is reached")]
    Full(Limit),
}
