//! A member's rows under a policy, and what leads to them from those that are stored.

ghost use Rattle.std.specs.Prelude.{◌≡◌, IfOk, filter_map};
ghost use Rattle.wh_policy.specs.Policy.{policy_types};
ghost use Rattle.wh_history.specs.Facts.{rekeyed_fact};
ghost use Rattle.wh_history.specs.Known.{number_in};
ghost use Rattle.wh_history.specs.Plan.{IsRowPlan, row_of};
ghost use Rattle.wh_history.specs.Shapes.{shape_of, shape_rows, rendered_in};

use crate::dimension::DimensionShape;
use crate::facts::Fact;
use crate::member::Member;
use crate::plan::{Edit, plan_rows};
use crate::profiles::Profiles;
use crate::rows::DimRow;
use std::alloc::{AllocError, Global};
use wh_policy::{Dim, Policy};

/// The rows of a member under a policy, in order of their starts. Each day has one. The error comes where memory ran out.
///
/// Kimball & Ross, *The Data Warehouse Toolkit*, 3rd edition, chapter 5, types 0 to 7.
pub fn render(
    alloc: Global,
    policy: &Policy,
    dim: Dim,
    member: &Member,
    profiles: &Profiles,
) -> Result<Vec<DimRow>, AllocError>
    ensures { IfOk result (λ rows. rows.items ≡ shape_rows (record { dim = dim; kinds = policy_types policy.now dim; number = number_in profiles.now }) member.now) }
{
    let types = policy.types(alloc, dim)?;
    let shape = DimensionShape {
        dim,
        types: &types,
        profiles,
    };
    shape.rows_of(alloc, member)
}

/// What leads from the stored rows and facts of a member to those after a batch.
#[derive(Debug, Drop)]
pub struct MemberPlan {
    /// The edits of its rows, in order of their surrogate keys.
    pub rows: Vec<Edit<DimRow, u64>>,
    /// Those of its facts whose keys change, with their new keys, in their order.
    pub facts: Vec<Fact>,
}

impl DimensionShape<'_> {
    /// What leads from the rows and facts of a member that are stored to those that it has now. A record that comes late may split a
    /// row and move facts of its days. The error comes where memory ran out.
    ///
    /// Kimball & Ross, *The Data Warehouse Toolkit*, 3rd edition, chapter 2, "Late Arriving Dimensions".
    pub fn plan_member(
        &self,
        alloc: Global,
        stored: &[DimRow],
        facts: &[Fact],
        after: &Member,
    ) -> Result<MemberPlan, AllocError>
        ensures rows { IfOk result (λ plan. IsRowPlan (λ key. row_of key stored.now) (λ key. row_of key (shape_rows (shape_of self.now) after.now)) plan.rows.items) }
        ensures facts { IfOk result (λ plan. plan.facts.items ≡ filter_map (rekeyed_fact (shape_of self.now) (rendered_in (shape_of self.now) after.now)) facts.now) }
    {
        let rendered = self.rendered(alloc, after)?;
        Ok(MemberPlan {
            rows: plan_rows(alloc, stored, &rendered.rows)?,
            facts: self.rekeyed_facts(alloc, &rendered, facts)?,
        })
    }
}
