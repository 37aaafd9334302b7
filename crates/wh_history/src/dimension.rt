//! How a dimension shows its members.

ghost use Rattle.std.specs.Prelude.{◌≡◌, IfOk};
ghost use Rattle.wh_history.specs.Laws.{EachDayHasOneRow, OneRowIsCurrent};
ghost use Rattle.wh_history.specs.Shapes.{shape_of, shape_rows, rendered_in, shown};

use crate::dated::dated;
use crate::member::{Change, Member};
use crate::profiles::Profiles;
use crate::rendering::render;
use crate::rows::DimRow;
use std::alloc::{AllocError, Global};
use wh_policy::{AttributeType, Dim};

/// What the rows of a dimension's members and the keys of their facts depend on beside the members: the types of the
/// slots, and what is known of profiles. A batch makes it once.
///
/// Kimball & Ross, *The Data Warehouse Toolkit*, 3rd edition, chapter 5: each type says how a slot follows its changes.
#[derive(Drop)]
pub struct DimensionShape<'a> {
    /// Which dimension it is.
    pub dim: Dim,
    /// The types of its attributes, by slot.
    pub types: &'a [AttributeType],
    /// The numbers of combinations of profile values. A combination that isn't there counts as number 0.
    pub profiles: &'a Profiles,
}

/// A member with its rows, and its changes in order of their days.
#[derive(Drop)]
pub struct RenderedRows<'a> {
    /// The member.
    pub member: &'a Member,
    /// Its rows, in order of their starts.
    pub rows: Vec<DimRow>,
    /// The last accepted change of each day, in order of the days.
    pub dated: Vec<&'a Change>,
}

impl DimensionShape<'_> {
    /// A member's rows, in order of their starts. The error comes where memory ran out.
    pub fn rows_of(&self, alloc: Global, member: &Member) -> Result<Vec<DimRow>, AllocError>
        ensures rows { IfOk result (λ found. found.items ≡ shape_rows (shape_of self.now) member.now) }
        // No two rows overlap, and no day is left out.
        ensures days { IfOk result (λ found. EachDayHasOneRow found.items) }
        ensures current { IfOk result (λ found. OneRowIsCurrent found.items) }
    {
        render(alloc, self.types, member, self.profiles)
    }

    /// A member with its rows and its changes by days. The error comes where memory ran out.
    pub fn rendered<'b>(
        &self,
        alloc: Global,
        member: &'b Member,
    ) -> Result<RenderedRows<'b>, AllocError>
        ensures { IfOk result (λ made. shown made ≡ rendered_in (shape_of self.now) member.now) }
    {
        Ok(RenderedRows {
            member,
            rows: self.rows_of(alloc, member)?,
            dated: dated(alloc, member.changes.as_slice())?,
        })
    }
}
