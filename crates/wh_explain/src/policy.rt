//! Why a policy isn't taken.

use crate::encoding::push_encoding_line;
use crate::policy_place::push_policy_place;
use crate::row::push_too_long;
use crate::shown::{Counted, push};
use std::alloc::{AllocError, Global};
use wh_day::VALUE_LIMIT;
use wh_policy::{
    Attribute, Dim, FIRST_YEAR, LAST_YEAR, MOST_ATTRIBUTES, MOST_YEARS, NAME_LIMIT, POLICY_LIMIT,
    Policy, PolicyFault,
};

const MISSING: &str =
    "wanted: first_year, last_year and at least one [[product]], [[store]] and [[customer]], each with name and type; a [[holiday]] with day and name\n";

const KEYS: &str =
    "the keys are first_year, last_year, product, store, customer and holiday, those of an attribute name and type, those of a holiday day and name\n";

const NAME: &str =
    " characters: a letter a to z, then letters a to z, digits or _; it is neither id nor day\n";

const HOLIDAY: &str =
    "a holiday's day is \"YYYY-MM-DD\" with quotes, within the years and on no other holiday's day, and its name has 1 to ";

fn push_years_rule(text: &mut Vec<u8>) -> Result<(), AllocError> {
    push!(text; "first_year and last_year are whole numbers from ", FIRST_YEAR, " to ", LAST_YEAR)?;
    push!(text; " without quotes, the first not after the last, and at most ", MOST_YEARS, " years\n")
}

/// What is allowed where a policy has this fault.
fn push_rule(text: &mut Vec<u8>, fault: PolicyFault) -> Result<(), AllocError> {
    match fault {
        PolicyFault::NotToml => push!(text; "a policy is a text in TOML\n"),
        PolicyFault::Missing => push!(text; MISSING),
        PolicyFault::UnknownKey => push!(text; KEYS),
        PolicyFault::BadName => push!(text; "a name has 1 to ", NAME_LIMIT, NAME),
        PolicyFault::BadType =>
            push!(text; "a type is a whole number from 0 to 7, without quotes\n"),
        PolicyFault::TooMany => {
            push!(text; "a dimension has at most ", MOST_ATTRIBUTES, " attributes\n")
        }
        PolicyFault::NamedTwice => {
            push!(text; "no two attributes of a dimension have the same name\n")
        }
        PolicyFault::ProfileOutside => {
            push!(text; "types 4 and 5 are for attributes of customer alone\n")
        }
        PolicyFault::ProfileMixed => {
            push!(text; "customer has attributes of type 4 or of type 5, not of both\n")
        }
        PolicyFault::BadYears => push_years_rule(text),
        PolicyFault::BadHoliday => {
            push!(text; HOLIDAY, VALUE_LIMIT, " bytes and doesn't begin with (\n")
        }
    }
}

/// The faults of a policy that is TOML.
const FAULTS: [PolicyFault; 10] = [
    PolicyFault::Missing,
    PolicyFault::UnknownKey,
    PolicyFault::BadName,
    PolicyFault::BadType,
    PolicyFault::TooMany,
    PolicyFault::NamedTwice,
    PolicyFault::ProfileOutside,
    PolicyFault::ProfileMixed,
    PolicyFault::BadYears,
    PolicyFault::BadHoliday,
];

/// How big the file of a policy may be.
pub(crate) fn push_size(text: &mut Vec<u8>) -> Result<(), AllocError> {
    push!(text; "a policy in TOML of at most ", POLICY_LIMIT, " bytes\n")
}

/// What any policy is: all rules.
pub(crate) fn push_rules(text: &mut Vec<u8>) -> Result<(), AllocError> {
    push_size(text)?;
    for fault in FAULTS {
        push_rule(text, fault)?;
    }
    Ok(())
}

/// Where the fault of a policy stands, what is allowed there, and, where it is no text at all, why.
pub(crate) fn push_bad_policy(
    text: &mut Vec<u8>,
    alloc: Global,
    fault: PolicyFault,
    bytes: &[u8],
) -> Result<(), AllocError> {
    if bytes.len() > POLICY_LIMIT {
        return push_too_long(text, POLICY_LIMIT);
    }
    push_policy_place(text, alloc, bytes)?;
    push_rule(text, fault)?;
    match fault {
        PolicyFault::NotToml => push_encoding_line(text, bytes, "TOML"),
        _ => Ok(()),
    }
}

/// A line on an attribute that has to stay in its place.
fn push_lost(
    text: &mut Vec<u8>,
    dim: Dim,
    place: usize,
    kept: &Attribute,
    newer: &[Attribute],
) -> Result<(), AllocError> {
    push!(text; dim.word(), ": attribute ", Counted(place), " \"", kept.name.as_str())?;
    push!(text; "\" has to stay in its place; ")?;
    match newer.get(place) {
        Some(found) => push!(text; "\"", found.name.as_str(), "\" stands there\n"),
        None => push!(text; "nothing stands there\n"),
    }
}

/// Whether an attribute stands in this place.
fn stands_at(newer: &[Attribute], place: usize, kept: &Attribute) -> bool {
    match newer.get(place) {
        Some(found) => found.name.is_same(&kept.name),
        None => false,
    }
}

/// A line for each attribute of a dimension that doesn't stay in its place.
fn push_all_lost(
    text: &mut Vec<u8>,
    dim: Dim,
    kept: &[Attribute],
    newer: &[Attribute],
) -> Result<(), AllocError> {
    for place in 0..kept.len() {
        if !stands_at(newer, place, &kept[place]) {
            push_lost(text, dim, place, &kept[place], newer)?;
        }
    }
    Ok(())
}

/// A line on years that don't stay.
fn push_lost_years(text: &mut Vec<u8>, policy: &Policy, newer: &Policy) -> Result<(), AllocError> {
    if newer.years.first <= policy.years.first && policy.years.last <= newer.years.last {
        return Ok(());
    }
    push!(text; "the years ", policy.years, " have to stay; ", newer.years, " stand there\n")
}

/// The lines on what has to stay and doesn't, where a newer policy doesn't fit.
pub(crate) fn push_unfit(
    text: &mut Vec<u8>,
    policy: &Policy,
    newer: &Policy,
) -> Result<(), AllocError> {
    for dim in [Dim::Product, Dim::Store, Dim::Customer] {
        push_all_lost(text, dim, policy.attributes(dim), newer.attributes(dim))?;
    }
    push_lost_years(text, policy, newer)
}
