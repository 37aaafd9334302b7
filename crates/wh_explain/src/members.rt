//! The members that a batch is the first to mention.

use crate::shown::push;
use std::alloc::AllocError;
use wh_history::Edit;
use wh_policy::Dim;
use wh_rows::{MemberKey, MemberRow};

/// The most members of a dimension whose keys are told.
const MOST_MEMBERS: u64 = 20;

/// The row of a member of this dimension.
fn member_of(edit: &Edit<MemberRow, MemberKey>, dim: Dim) -> Option<&MemberRow> {
    match edit {
        Edit::Put(row) if row.dim == dim => Some(row),
        _ => None,
    }
}

/// What stands before a dimension's member with this number.
fn push_before(text: &mut Vec<u8>, dim: Dim, number: u64) -> Result<(), AllocError> {
    if number > 0 {
        return push!(text; ", ");
    }
    push!(text; "mentioned for the first time: ", dim.word(), " ")
}

/// The natural keys of a dimension's first members, and how many there are.
fn push_keys(
    text: &mut Vec<u8>,
    members: &[Edit<MemberRow, MemberKey>],
    dim: Dim,
) -> Result<u64, AllocError> {
    let mut found: u64 = 0;
    for edit in members {
        let Some(member) = member_of(edit, dim) else {
            continue;
        };
        if found < MOST_MEMBERS {
            push_before(text, dim, found)?;
            push!(text; member.natural.as_str())?;
        }
        found = found.saturating_add(1);
    }
    Ok(found)
}

/// A line on the members of a dimension, if there are some.
fn push_members(
    text: &mut Vec<u8>,
    members: &[Edit<MemberRow, MemberKey>],
    dim: Dim,
) -> Result<(), AllocError> {
    let found = push_keys(text, members, dim)?;
    if found > MOST_MEMBERS {
        push!(text; " and ", found - MOST_MEMBERS, " more")?;
    }
    if found == 0 {
        return Ok(());
    }
    push!(text; "\n")
}

/// A line for each dimension: the members whose rows are new.
pub(crate) fn push_first_mentions(
    text: &mut Vec<u8>,
    members: &[Edit<MemberRow, MemberKey>],
) -> Result<(), AllocError> {
    for dim in [Dim::Product, Dim::Store, Dim::Customer] {
        push_members(text, members, dim)?;
    }
    Ok(())
}
