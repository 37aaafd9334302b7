//! What the commands take that columns don't tell.

use crate::policy::push_size;
use crate::shown::push;
use std::alloc::AllocError;
use wh_batch::{BatchKind, CommandKind};
use wh_policy::{Attribute, Dim, Format, Policy};

/// Why there are no voids in format 1.
pub(crate) const NO_VOIDS: &str =
    "lines are withdrawn in format 2 alone; this warehouse has format 1\n";

/// The names of attributes.
fn push_attributes(text: &mut Vec<u8>, attributes: &[Attribute]) -> Result<(), AllocError> {
    let [first, others @ ..] = attributes else {
        return Ok(());
    };
    push!(text; first.name.as_str())?;
    for attribute in others {
        push!(text; ", ", attribute.name.as_str())?;
    }
    Ok(())
}

/// A line for each dimension: the attributes that have to stay.
fn push_kept(text: &mut Vec<u8>, policy: &Policy) -> Result<(), AllocError> {
    for dim in [Dim::Product, Dim::Store, Dim::Customer] {
        push!(text; dim.word(), " keeps in their places: ")?;
        push_attributes(text, policy.attributes(dim))?;
        push!(text; "; more may follow\n")?;
    }
    Ok(())
}

/// What a migration takes.
fn push_policy(text: &mut Vec<u8>, policy: &Policy) -> Result<(), AllocError> {
    push_size(text)?;
    push_kept(text, policy)?;
    push!(text; "the calendar keeps the years ", policy.years, "\n")
}

/// What a command of this kind takes, where columns don't tell it.
pub(crate) fn push_kind(
    text: &mut Vec<u8>,
    kind: CommandKind,
    policy: &Policy,
    format: Format,
) -> Result<(), AllocError> {
    match (kind, format) {
        (CommandKind::Migration, _) => push_policy(text, policy),
        (CommandKind::Upgrade, Format::One) => push!(text; "an upgrade takes no file\n"),
        (CommandKind::Upgrade, Format::Two) => push!(text; "the warehouse has format 2 already\n"),
        (CommandKind::Batch(BatchKind::Voids), Format::One) => push!(text; NO_VOIDS),
        _ => Ok(()),
    }
}
