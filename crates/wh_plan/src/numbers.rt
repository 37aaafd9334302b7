//! The numbers of a dimension that are drawn already.

ghost use Rattle.std.specs.Prelude.{◌≡◌, ◌≤◌, length, IfOk};
ghost use Rattle.wh_history.specs.Accepted.{anchors, members};
ghost use Rattle.wh_history.specs.Keys.{greatest_number};
ghost use Rattle.wh_sql.specs.Answers.{ReadsOnlyIn};
ghost use Rattle.wh_plan.specs.Reads.{WhenOfCommands};

use crate::reading::last_member;
use sqlite::Alter;
use std::alloc::Global;
use wh_history::GREATEST_NUMBER;
use wh_policy::Dim;
use wh_store::{ReadFault, Tables};

/// How many numbers of a dimension are drawn.
#[derive(Clone, Copy)]
pub(crate) struct NumbersDrawn {
    /// How many members have durable keys.
    pub(crate) members: u64,
    /// How many anchors have surrogate keys.
    pub(crate) anchors: u64,
}

/// How many members and anchors of a dimension have numbers.
pub(crate) fn numbers_drawn<S: Alter>(
    tables: &mut Tables<S>,
    alloc: Global,
    dim: Dim,
) -> Result<NumbersDrawn, ReadFault>
    ensures reads { ReadsOnlyIn S.Store tables.old tables.new result }
    ensures drawn { WhenOfCommands S.Store tables.old tables.new (λ _ commands. length (members dim commands) ≤ greatest_number → length (anchors dim commands) ≤ greatest_number → IfOk result (λ drawn. drawn ≡ record { members = length (members dim commands); anchors = length (anchors dim commands) })) }
    ensures few { IfOk result (λ drawn. (drawn.members ≤ greatest_number) × (drawn.anchors ≤ greatest_number)) }
{
    let last = last_member(tables, alloc, dim)?;
    let anchor = tables.greatest_anchor(alloc, dim)?;
    Ok(NumbersDrawn {
        members: last.durable.min(GREATEST_NUMBER),
        anchors: last.opening.max(anchor).min(GREATEST_NUMBER),
    })
}
