//! What is wrong with a batch.

use thiserror::Error;

/// What is wrong with a batch or one of its records, in the order in which it is looked for; but the last is looked for before
/// all others.
#[derive(Clone, Copy, Debug, PartialEq, Eq, Error)]
pub enum FaultKind {
    /// Over 1,000,000 bytes, or over 5,000 records.
    #[error("over 1,000,000 bytes, or over 5,000 records")]
    TooLarge,
    /// The first row isn't the header of the kind.
    #[error("the first row is not the header of the kind")]
    WrongHeader,
    /// Another number of fields than the header has.
    #[error("another number of fields than the header has")]
    WrongLength,
    /// A natural key or a ticket that is none.
    #[error("not a natural key or a ticket")]
    BadKey,
    /// No day of the calendar, or one that is too early or too late.
    #[error("not a day of the calendar, or one that is too early or too late")]
    BadDay,
    /// Not the value of an attribute.
    #[error("not the value of an attribute")]
    BadValue,
    /// Not a line, a quantity or an amount of money.
    #[error("not a line, a quantity or an amount of money")]
    BadNumber,
    /// An earlier record has the same member and day, or the same ticket and line.
    #[error("an earlier record has the same key")]
    TwiceInBatch,
    /// A sale on a day outside the years of the policy.
    #[error("a sale on a day outside the years of the policy")]
    OutsideCalendar,
    /// The first format has no such batch.
    #[error("not in this format")]
    NotInFormat,
}

/// The first fault of a batch.
#[derive(Clone, Copy, Debug, PartialEq, Eq, Error)]
#[error("record {number}: {kind}")]
pub struct BatchFault {
    /// What is wrong.
    pub kind: FaultKind,
    /// The number of the record, from 1. The header, and the batch as a whole, have the number 0.
    pub number: u32,
}
