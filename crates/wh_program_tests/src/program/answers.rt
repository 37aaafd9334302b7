//! What the words of a step mean over the lines and the status of an answer.
//!
//! - `load ID REPLY`: the answer to a command that is sent. A REPLY is `accepted NUMBER RECORDS PLACEHOLDERS`, `already` with the same, or
//!   a FAULT.
//! - `status FAULT`, `counts FORMAT COMMANDS CHANGES FACTS PRODUCTS STORES CUSTOMERS`: the answer to a count.
//! - `made`, `making FAULT`: the answer to the making of a warehouse. `opening FAULT`: where none is opened.
//!
//! FAULTs are named as the variants of their types. The status stands after the lines as in `program`, where these don't say it.

use crate::program::printed::{push_ended, text_of};
use std::alloc::{AllocError, Global};
use wh_batch::{BatchFault, FaultKind};
use wh_engine::{Counts, Fault, InitFault, Limit, OpenFault, Receipt, Refusal, Reply};
use wh_policy::PolicyFault;
use wh_program::{
    Answer, made, making_answer, opening_answer, room_for_line, room_for_receipt, sent_answer,
    status_answer,
};
use wh_rows::{Cause, Table};
use wh_scenarios::{Driver, NotMade, Step, number, parted, push_line};

/// Makes the steps of scenarios of answers.
#[derive(Drop)]
pub struct AnswerDriver;

impl Driver for AnswerDriver {
    fn start(_alloc: Global) -> Result<AnswerDriver, NotMade> {
        Ok(AnswerDriver)
    }

    fn perform(
        self,
        alloc: Global,
        step: &Step<'_>,
        answer: &mut String,
    ) -> Result<AnswerDriver, NotMade> {
        let answered = answered(alloc, step.words)?;
        push_answer(answer, answered)?;
        Ok(self)
    }
}

fn push_answer(out: &mut String, answer: Result<Answer, AllocError>) -> Result<(), AllocError> {
    match answer {
        Ok(answer) => push_ended(out, text_of(answer.text()), answer.status().code()),
        Err(AllocError) => push_line(out, "no answer"),
    }
}

fn answered(alloc: Global, words: &str) -> Result<Result<Answer, AllocError>, NotMade> {
    let (verb, rest) = parted(words, ' ');
    match verb {
        "load" => loaded(alloc, rest),
        "made" => Ok(made(room_for_line(alloc)?)),
        "making" => Ok(making_answer(room_for_line(alloc)?, &making_fault(rest)?)),
        "opening" => Ok(opening_answer(alloc, opening_fault(rest)?)),
        "status" => Ok(status_answer(alloc, Err(fault(rest)?))),
        "counts" => Ok(status_answer(alloc, Ok(counts(rest)?))),
        _ => Err(NotMade),
    }
}

fn loaded(alloc: Global, words: &str) -> Result<Result<Answer, AllocError>, NotMade> {
    let (id, rest) = parted(words, ' ');
    let reply = reply(rest)?;
    let room = room_for_receipt(alloc, id)?;
    Ok(sent_answer(room, id, &reply))
}

fn reply(words: &str) -> Result<Result<Reply, Fault>, NotMade> {
    let (word, rest) = parted(words, ' ');
    match word {
        "accepted" => Ok(Ok(Reply::Accepted(receipt(rest)?))),
        "already" => Ok(Ok(Reply::Already(receipt(rest)?))),
        _ => Ok(Err(fault(words)?)),
    }
}

fn receipt(words: &str) -> Result<Receipt, NotMade> {
    let (place, words) = parted(words, ' ');
    let (records, placeholders) = parted(words, ' ');
    Ok(Receipt {
        number: number(place)?,
        records: number(records)?,
        placeholders: number(placeholders)?,
    })
}

fn counts(words: &str) -> Result<Counts, NotMade> {
    let (format, words) = parted(words, ' ');
    let (commands, words) = parted(words, ' ');
    let (changes, words) = parted(words, ' ');
    let (facts, words) = parted(words, ' ');
    let members = members(words)?;
    Ok(Counts {
        format: number(format)?,
        commands: number(commands)?,
        changes: number(changes)?,
        facts: number(facts)?,
        products: members.0,
        stores: members.1,
        customers: members.2,
    })
}

/// How many products, stores and customers.
fn members(words: &str) -> Result<(u64, u64, u64), NotMade> {
    let (products, words) = parted(words, ' ');
    let (stores, customers) = parted(words, ' ');
    Ok((number(products)?, number(stores)?, number(customers)?))
}

fn fault(words: &str) -> Result<Fault, NotMade> {
    let (word, rest) = parted(words, ' ');
    match word {
        "Damaged" => Ok(Fault::Damaged(table(rest)?)),
        "Memory" => Ok(Fault::Memory),
        "Store" => Ok(Fault::Store(cause(rest)?)),
        "Reopen" => Ok(Fault::Reopen),
        _ => Ok(Fault::Refused(refused(word, rest)?)),
    }
}

fn refused(word: &str, rest: &str) -> Result<Refusal, NotMade> {
    match word {
        "BadId" => Ok(Refusal::BadId),
        "Reused" => Ok(Refusal::Reused),
        "BadDay" => Ok(Refusal::Batch(BatchFault {
            kind: FaultKind::BadDay,
            number: record(rest)?,
        })),
        "BadYears" => Ok(Refusal::Policy(PolicyFault::BadYears)),
        "Unfit" => Ok(Refusal::Unfit),
        "Upgraded" => Ok(Refusal::Upgraded),
        "NameTaken" => Ok(Refusal::NameTaken),
        "LineThere" => Ok(Refusal::LineThere(number(rest)?)),
        "NoLine" => Ok(Refusal::NoLine(number(rest)?)),
        "NotInFormat" => Ok(Refusal::Batch(BatchFault {
            kind: FaultKind::NotInFormat,
            number: record(rest)?,
        })),
        "Full" => Ok(Refusal::Full(limit(rest)?)),
        _ => Err(NotMade),
    }
}

/// The number of a record of a batch.
fn record(word: &str) -> Result<u32, NotMade> {
    match word.parse::<u32>() {
        Ok(number) => Ok(number),
        Err(_) => Err(NotMade),
    }
}

fn limit(word: &str) -> Result<Limit, NotMade> {
    match word {
        "Commands" => Ok(Limit::Commands),
        "Changes" => Ok(Limit::Changes),
        "Facts" => Ok(Limit::Facts),
        _ => Err(NotMade),
    }
}

fn cause(word: &str) -> Result<Cause, NotMade> {
    match word {
        "Memory" => Ok(Cause::Memory),
        "Disk" => Ok(Cause::Disk),
        "Size" => Ok(Cause::Size),
        "Interrupted" => Ok(Cause::Interrupted),
        _ => Err(NotMade),
    }
}

fn table(word: &str) -> Result<Table, NotMade> {
    match Table::from_name(word) {
        Some(table) => Ok(table),
        None => Err(NotMade),
    }
}

fn making_fault(words: &str) -> Result<InitFault, NotMade> {
    let (word, rest) = parted(words, ' ');
    match word {
        "BadYears" => Ok(InitFault::Policy(PolicyFault::BadYears)),
        "NotEmpty" => Ok(InitFault::NotEmpty),
        "Memory" => Ok(InitFault::Memory),
        "Store" => Ok(InitFault::Store(cause(rest)?)),
        _ => Err(NotMade),
    }
}

fn opening_fault(words: &str) -> Result<OpenFault, NotMade> {
    let (word, rest) = parted(words, ' ');
    match word {
        "NotAWarehouse" => Ok(OpenFault::NotAWarehouse),
        "OldFormat" => Ok(OpenFault::OldFormat),
        "NewFormat" => Ok(OpenFault::NewFormat),
        "Damaged" => Ok(OpenFault::Damaged(table(rest)?)),
        "Memory" => Ok(OpenFault::Memory),
        "Store" => Ok(OpenFault::Store(cause(rest)?)),
        _ => Err(NotMade),
    }
}
