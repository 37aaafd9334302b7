//! The members that a batch touches, as they are stored and as they are after it.

ghost use Rattle.std.specs.Prelude.{◌≡◌, ◌≤◌, ◌++◌, ◌∷◌, [], ℕ, List, map, flat_map, length, zip, unwrap_or, IfOk};
ghost use Rattle.std.specs.BTreeMap.{get_by};
ghost use Rattle.std.specs.Cmp.Lexicographic.{slice_cmp};
ghost use Rattle.std.specs.Ordering.{nat_cmp};
ghost use Rattle.std.specs.Option.{option_copied};
ghost use Rattle.wh_policy.specs.declared.attribute.Dim.{Dim};
ghost use Rattle.wh_history.specs.Accepted.{Accepted, Describes, anchors, members, member_of};
ghost use Rattle.wh_history.specs.Keys.{greatest_number};
ghost use Rattle.wh_history.specs.MovingDays.{moves_since};
ghost use Rattle.wh_history.specs.Shapes.{rendered_in, shape_of};
ghost use Rattle.wh_history.specs.Touched.{touched_by};
ghost use Rattle.wh_plan.specs.MovedFacts.{pair_of};
ghost use Rattle.wh_plan.specs.NewRows.{named, naturals_told};

use crate::by_natural::by_natural;
use crate::numbers::NumbersDrawn;
use std::alloc::{AllocError, Global};
use std::collections::BTreeMap;
use wh_day::{Day, ParseError, Value};
use wh_history::{
    DimRow, DimensionShape, Member, MemberSource, RenderedRows, TouchedMembers, moves_since,
    touch_all,
};
use wh_policy::DimensionRecord;

/// Members that were read from the tables, to be found by their natural keys.
#[derive(Drop)]
struct StoredMembers<'a> {
    list: &'a [Member],
    by_natural: BTreeMap<&'a str, &'a Member>,
    ghost found: { (natural : List ℕ) → option_copied (get_by (λ k. slice_cmp nat_cmp natural k.now) by_natural) ≡ named list.now natural },
}

impl MemberSource for StoredMembers<'_> {
    ghost use Rattle.std.specs.Prelude.{unwrap_or};
    ghost use Rattle.wh_history.specs.Touched.{nothing_stored};
    ghost use Rattle.wh_plan.specs.NewRows.{named};

    type Fault = AllocError;

    ghost stored = { λ s natural. unwrap_or (named s.list.now natural) (nothing_stored natural) };

    fn member(&self, alloc: Global, natural: &Value) -> Result<Member, ParseError<AllocError>> {
        match self.by_natural.get(natural.as_str()).copied() {
            Some(member) => Ok(member.copy(alloc)?),
            None => Ok(Member::absent(alloc, natural)?),
        }
    }
}

/// The members that a batch touches, as they are after it, from those members as they are stored.
pub(crate) fn touched_members(
    alloc: Global,
    stored: &[Member],
    drawn: NumbersDrawn,
    records: &[DimensionRecord],
) -> Result<TouchedMembers, AllocError>
    requires members { drawn.members ≤ greatest_number }
    requires anchors { drawn.anchors ≤ greatest_number }
    ensures { (dim : Dim) (commands : List Accepted) (c : Accepted) → c.content ≡ Describes dim records.now
        → stored.now ≡ map (member_of dim commands) (naturals_told records.now)
        → drawn.members ≡ length (members dim commands) → drawn.anchors ≡ length (anchors dim commands)
        → IfOk result (λ touched. touched ≡ touched_by dim commands (commands ++ c ∷ []) records.now) }
{
    let members = StoredMembers {
        list: stored,
        by_natural: by_natural(alloc, stored)?,
    };
    match touch_all(alloc, &members, drawn.members, drawn.anchors, records) {
        Ok(touched) => Ok(touched),
        Err(_) => Err(AllocError),
    }
}

/// A member that a batch touches: as it is stored, and with its rows as it is after the batch.
#[derive(Drop)]
pub(crate) struct TouchedMember<'a> {
    pub(crate) stored: &'a Member,
    pub(crate) after: RenderedRows<'a>,
}

impl TouchedMember<'_> {
    /// The first day of which the batch can move its facts.
    pub(crate) fn moves_since(&self) -> Day
        ensures { result ≡ moves_since self.now.stored.now.changes self.now.after.member.now.changes }
    {
        moves_since(
            self.stored.changes.as_slice(),
            self.after.member.changes.as_slice(),
        )
    }
}

/// Each member as it is stored beside the same as it is after the batch, with the rows that it has then.
pub(crate) fn touched_rows<'a>(
    alloc: Global,
    dimension: &DimensionShape,
    stored: &'a [Member],
    after: &'a [Member],
) -> Result<Vec<TouchedMember<'a>>, AllocError>
    ensures { IfOk result (λ touched. map pair_of touched.items ≡ zip stored.now (map (rendered_in (shape_of dimension.now)) after.now)) }
{
    let mut touched = Vec::new(alloc);
    for (place, after) in after.iter().enumerate() {
        if let Some(stored) = stored.get(place) {
            let after = dimension.rendered(alloc, after)?;
            touched.push(TouchedMember { stored, after })?;
        }
    }
    Ok(touched)
}

/// The rows of touched members after the batch, one member after the other.
pub(crate) fn rows_after(
    alloc: Global,
    touched: Vec<TouchedMember>,
) -> Result<Vec<DimRow>, AllocError>
    ensures { IfOk result (λ rows. rows.items ≡ flat_map (λ t. t.after.rows.items) touched.entry.items) }
{
    let mut found = Vec::new(alloc);
    for member in touched {
        let mut after = member.after;
        found.append(&mut after.rows)?;
    }
    Ok(found)
}
