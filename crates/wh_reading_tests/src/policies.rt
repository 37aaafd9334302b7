//! Policies: what is wrong with a file, and what a good one says.
//!
//! Nearly each file is [`FLAT`] with CHANGES, as [`changed_flat`] has them: a text, `->` and the text in its place, and further changes
//! after ` and `; `|` stands for the end of a line. The verbs:
//!
//! - `with CHANGES`: the fault of FLAT with them, or `good`.
//! - `at TEXT`: the faults of three files that have this text at the products, the stores or the customers, for which it
//!   says `DIM`, and good tables at the other two.
//! - `stores VALUE`, `holidays VALUE`: the fault of FLAT with such a value in the place of those tables.
//! - `before BYTES`, `after BYTES`, `text BYTES`: the fault of FLAT with bytes beside it, or of the bytes alone.
//! - `blanks LENGTH`: the fault of FLAT with blanks after it, in all so many bytes. `letters LENGTH`: that of so many
//!   letters.
//! - `beginnings`: the lengths at which a beginning of FLAT is a policy.
//! - `slot FILE DIM NAME`: the slot and the type of an attribute; FILE is `flat`, or `trial` for the policy of a trial.
//! - `slots FILE DIM`: the types by slot.
//! - `calendar CHANGES`: the years and holidays of FLAT with them.
//! - `fits CHANGES`: whether FLAT with them fits FLAT, and whether FLAT fits it.
//! - `type NUMBER`: the type of attributes that has the number, and its number.

use crate::words::{attribute_type, dim, number, push_day, push_next, push_number};
use std::alloc::{AllocError, Global};
use std::fmt::Write;
use wh_day::{Holiday, ParseError};
use wh_policy::{Policy, PolicyFault};
use wh_scenarios::{Driver, FLAT, NotMade, Step, bytes_of, changed_flat, parted};

#[derive(Drop)]
pub struct PolicyDriver;

impl Driver for PolicyDriver {
    fn start(_alloc: Global) -> Result<PolicyDriver, NotMade> {
        Ok(PolicyDriver)
    }

    fn perform(
        self,
        alloc: Global,
        step: &Step<'_>,
        answer: &mut String,
    ) -> Result<PolicyDriver, NotMade> {
        policy_step(alloc, step.words, answer)?;
        Ok(self)
    }
}

fn policy_step(alloc: Global, words: &str, answer: &mut String) -> Result<(), AllocError> {
    let (verb, rest) = parted(words, ' ');
    match verb {
        "with" => push_fault(alloc, answer, changed_flat(alloc, rest)?.as_bytes()),
        "at" => push_faults_at(alloc, answer, rest),
        "stores" => push_fault(alloc, answer, with_stores(alloc, rest)?.as_bytes()),
        "holidays" => push_fault(alloc, answer, with_holidays(alloc, rest)?.as_bytes()),
        "type" => push_type(answer, rest),
        "slot" => push_slot(alloc, answer, rest),
        "slots" => push_slots(alloc, answer, rest),
        "calendar" => push_calendar(alloc, answer, rest),
        "fits" => push_fits(alloc, answer, rest),
        _ => bytes_step(alloc, verb, rest, answer),
    }
}

fn bytes_step(
    alloc: Global,
    verb: &str,
    rest: &str,
    answer: &mut String,
) -> Result<(), AllocError> {
    match verb {
        "before" => push_fault(
            alloc,
            answer,
            &joined(bytes_of(alloc, rest)?, FLAT.as_bytes())?,
        ),
        "after" => push_fault(
            alloc,
            answer,
            &joined(flat(alloc)?, &bytes_of(alloc, rest)?)?,
        ),
        "text" => push_fault(alloc, answer, &bytes_of(alloc, rest)?),
        "blanks" => push_fault(alloc, answer, &filled(flat(alloc)?, b' ', number(rest))?),
        "letters" => push_fault(alloc, answer, &filled(Vec::new(alloc), b'x', number(rest))?),
        "beginnings" => push_beginnings(alloc, answer),
        _ => answer.push_str("no such step"),
    }
}

/// The fault of a file, `None` where it is a policy.
fn fault_of(alloc: Global, text: &[u8]) -> Result<Option<PolicyFault>, AllocError> {
    match Policy::read(alloc, text) {
        Ok(_) => Ok(None),
        Err(ParseError::Memory) => Err(AllocError),
        Err(ParseError::Fault(fault)) => Ok(Some(fault)),
    }
}

fn push_fault(alloc: Global, answer: &mut String, text: &[u8]) -> Result<(), AllocError> {
    match fault_of(alloc, text)? {
        Some(fault) => write!(answer, "{fault:?}"),
        None => answer.push_str("good"),
    }
}

/// A file with this text at a dimension, and good tables at the other two.
fn file_at(
    alloc: Global,
    text: &str,
    dim: &str,
    others: (&str, &str),
) -> Result<String, AllocError> {
    let text = text.replace(alloc, "DIM", dim)?;
    let text = text.as_str().replace(alloc, "|", "\n")?;
    let (one, other) = others;
    let rest = "name = 'size'\ntype = 2\n";
    format!(in alloc;
        "first_year = 2023\nlast_year = 2026\n{text}\n[[{one}]]\n{rest}[[{other}]]\n{rest}"
    )
}

fn push_faults_at(alloc: Global, answer: &mut String, text: &str) -> Result<(), AllocError> {
    let places = [
        ("product", ("store", "customer")),
        ("store", ("product", "customer")),
        ("customer", ("product", "store")),
    ];
    for (dim, others) in places {
        answer.push_str(dim)?;
        answer.push_str(" ")?;
        push_fault(alloc, answer, file_at(alloc, text, dim, others)?.as_bytes())?;
        answer.push_str("\n")?;
    }
    Ok(())
}

/// FLAT without some lines, and with a line in front.
fn with_line(alloc: Global, gone: &str, key: &str, value: &str) -> Result<String, AllocError> {
    let text = FLAT.replace(alloc, gone, "")?;
    format!(in alloc; "{key} = {value}\n{text}")
}

fn with_stores(alloc: Global, value: &str) -> Result<String, AllocError> {
    let stores = "[[store]]\nname = \"city\"\ntype = 2\n";
    with_line(alloc, stores, "store", value)
}

fn with_holidays(alloc: Global, value: &str) -> Result<String, AllocError> {
    let holidays = "[[holiday]]\nday = \"2024-12-25\"\nname = \"Christmas Day\"\n";
    with_line(alloc, holidays, "holiday", value)
}

fn flat(alloc: Global) -> Result<Vec<u8>, AllocError> {
    Vec::from_slice(alloc, FLAT.as_bytes())
}

fn joined(mut first: Vec<u8>, second: &[u8]) -> Result<Vec<u8>, AllocError> {
    first.extend_from_slice(second)?;
    Ok(first)
}

/// The bytes, and further ones of one kind up to a length.
fn filled(mut text: Vec<u8>, byte: u8, length: u64) -> Result<Vec<u8>, AllocError> {
    for _ in text.len() as u64..length {
        text.push(byte)?;
    }
    Ok(text)
}

fn push_beginnings(alloc: Global, answer: &mut String) -> Result<(), AllocError> {
    let text = FLAT.as_bytes();
    for end in 0..text.len() + 1 {
        if fault_of(alloc, &text[..end])? == None {
            push_number(answer, end as i128)?;
            answer.push_str(", ")?;
        }
    }
    answer.push_str("of")?;
    push_next(answer, text.len() as i128)
}

fn push_type(answer: &mut String, rest: &str) -> Result<(), AllocError> {
    match attribute_type(rest) {
        Some(kind) => {
            write!(answer, "{kind:?}")?;
            push_next(answer, kind.number() as i128)
        }
        None => answer.push_str("none"),
    }
}

/// The policy of a text, if it is one.
fn policy_of(alloc: Global, text: &str) -> Result<Option<Policy>, AllocError> {
    match Policy::read(alloc, text.as_bytes()) {
        Ok(policy) => Ok(Some(policy)),
        Err(ParseError::Memory) => Err(AllocError),
        Err(ParseError::Fault(_)) => Ok(None),
    }
}

/// The policy of a trial, or FLAT.
fn policy_named(alloc: Global, name: &str) -> Result<Option<Policy>, AllocError> {
    match name {
        "trial" => Ok(Some(Policy::trial(alloc)?)),
        _ => policy_of(alloc, FLAT),
    }
}

fn push_slot(alloc: Global, answer: &mut String, rest: &str) -> Result<(), AllocError> {
    let (file, rest) = parted(rest, ' ');
    let (word, name) = parted(rest, ' ');
    let Some(policy) = policy_named(alloc, file)? else {
        return answer.push_str("no policy");
    };
    match policy.attribute(dim(word), name) {
        Some((slot, number)) => {
            push_number(answer, slot as i128)?;
            push_next(answer, number as i128)
        }
        None => answer.push_str("none"),
    }
}

fn push_slots(alloc: Global, answer: &mut String, rest: &str) -> Result<(), AllocError> {
    let (file, word) = parted(rest, ' ');
    let Some(policy) = policy_named(alloc, file)? else {
        return answer.push_str("no policy");
    };
    push_number(answer, policy.attributes(dim(word)).len() as i128)?;
    for kind in policy.types(alloc, dim(word))?.as_slice() {
        write!(answer, " {kind:?}")?;
    }
    Ok(())
}

fn push_holiday(answer: &mut String, holiday: &Holiday) -> Result<(), AllocError> {
    answer.push_str("\n")?;
    push_day(answer, Some(holiday.day))?;
    answer.push_str(" ")?;
    answer.push_str(holiday.name.as_str())
}

fn push_calendar(alloc: Global, answer: &mut String, changes: &str) -> Result<(), AllocError> {
    let text = changed_flat(alloc, changes)?;
    let Some(policy) = policy_of(alloc, text.as_str())? else {
        return answer.push_str("no policy");
    };
    push_number(answer, policy.years.first as i128)?;
    push_next(answer, policy.years.last as i128)?;
    for holiday in policy.holidays.as_slice() {
        push_holiday(answer, holiday)?;
    }
    Ok(())
}

fn push_fits(alloc: Global, answer: &mut String, changes: &str) -> Result<(), AllocError> {
    let text = changed_flat(alloc, changes)?;
    match policy_of(alloc, text.as_str())? {
        Some(newer) => push_fits_flat(alloc, answer, &newer),
        None => answer.push_str("no policy"),
    }
}

fn push_fits_flat(alloc: Global, answer: &mut String, newer: &Policy) -> Result<(), AllocError> {
    match policy_of(alloc, FLAT)? {
        Some(flat) => {
            push_fit(answer, &flat, newer)?;
            answer.push_str(", ")?;
            push_fit(answer, newer, &flat)
        }
        None => answer.push_str("no policy"),
    }
}

fn push_fit(answer: &mut String, policy: &Policy, newer: &Policy) -> Result<(), AllocError> {
    answer.push_str(if policy.fits(newer) {
        "fits"
    } else {
        "doesn't"
    })
}
