//! What a batch of sales has of one dimension.

ghost use Rattle.std.specs.Prelude.{◌≡◌, ◌≤◌, ◌++◌, ◌∷◌, [], List, map, length, filter_map, None, Some, IfOk};
ghost use Rattle.std.specs.List.{AllByRecursion};
ghost use Rattle.wh_history.specs.Accepted.{Accepted, Sells, anchors, members, member_of, policy_after, profiles_of};
ghost use Rattle.wh_history.specs.Keys.{greatest_number};
ghost use Rattle.wh_history.specs.Known.{number_in, KnowsEnough};
ghost use Rattle.wh_history.specs.Shapes.{shown};
ghost use Rattle.wh_history.specs.declared.plan.Edit.TheVariants.{Put};
ghost use Rattle.wh_policy.specs.Written.{IsSound};
ghost use Rattle.wh_plan.specs.Reading.{HaveNoEmptyValue};
ghost use Rattle.wh_sql.specs.Answers.{ReadsOnlyIn};
ghost use Rattle.wh_plan.specs.Reads.{WhenOfCommands};
ghost use Rattle.wh_plan.specs.SoldMembers.{naturals_sold, numbered, placeholder, FindsSold, IsSoldDimension};
ghost use Rattle.wh_model.specs.Sound.{AreTypes};

use crate::naturals::naturals_sold;
use crate::new_rows::new_member_rows;
use crate::numbers::{NumbersDrawn, numbers_drawn};
use crate::profiles::known_of;
use crate::reading::stored_member;
use crate::sales::sale_keys::{keys_of_sales, rendered_members};
use sqlite::Alter;
use std::alloc::{AllocError, Global};
use wh_day::Value;
use wh_history::{DimRow, DimensionShape, Edit, Member, MemberKeys, RenderedRows, give_numbers};
use wh_policy::{Dim, Policy, SaleRecord};
use wh_rows::MemberRow;
use wh_store::{ReadFault, Tables};

/// Members with these natural keys, with the numbers that they have after a batch of sales that mentions no others.
fn members_with_numbers<S: Alter>(
    tables: &mut Tables<S>,
    alloc: Global,
    dim: Dim,
    drawn: NumbersDrawn,
    naturals: &[Value],
) -> Result<Vec<Member>, ReadFault>
    requires members { drawn.members ≤ greatest_number }
    requires anchors { drawn.anchors ≤ greatest_number }
    ensures reads { ReadsOnlyIn S.Store tables.old tables.new result }
    ensures members { WhenOfCommands S.Store tables.old tables.new (λ _ commands. HaveNoEmptyValue commands → IfOk result (λ members. members.items ≡ numbered drawn.members drawn.anchors (map (member_of dim commands) naturals.now))) }
{
    let mut members = drawn.members;
    let mut anchors = drawn.anchors;
    let mut found = Vec::new(alloc);
    for natural in naturals {
        let mut member = stored_member(tables, alloc, dim, natural)?;
        give_numbers(&mut member, &mut members, &mut anchors);
        found.push(member)?;
    }
    Ok(found)
}

/// The row of a member that is new with the batch: its durable key comes after all before. No record describes it, so it
/// has one.
fn placeholder(
    alloc: Global,
    members_before: u64,
    member: &RenderedRows,
) -> Result<Option<DimRow>, AllocError>
    ensures { IfOk result (λ row. row ≡ placeholder members_before (shown member.now)) }
{
    if members_before < member.member.durable {
        if let Some(row) = member.rows.last() {
            return Ok(Some(row.copy(alloc)?));
        }
    }
    Ok(None)
}

/// The edits that put the rows of new members.
fn placeholders(
    alloc: Global,
    members_before: u64,
    members: &[RenderedRows],
) -> Result<Vec<Edit<DimRow, u64>>, AllocError>
    ensures { IfOk result (λ edits. edits.items ≡ map Put (filter_map (placeholder members_before) (map shown members.now))) }
{
    let mut edits = Vec::new(alloc);
    for member in members {
        if let Some(row) = placeholder(alloc, members_before, member)? {
            edits.push(Edit::Put(row))?;
        }
    }
    Ok(edits)
}

/// What a batch of sales needs of one dimension: the keys of each sale, and the members and rows that it is the first to bring.
#[derive(Drop)]
pub(crate) struct SoldDimension {
    /// What each sale's member gives its fact.
    pub(crate) keys: Vec<MemberKeys>,
    /// The rows of the members that it is the first to mention.
    pub(crate) members: Vec<MemberRow>,
    /// The edits of the dimension's table.
    pub(crate) rows: Vec<Edit<DimRow, u64>>,
}

/// What sales have of a dimension, by the members that they mention.
fn sold_dimension_of(
    alloc: Global,
    dimension: &DimensionShape,
    sales: &[SaleRecord],
    members_before: u64,
    mentioned: &[Member],
) -> Result<SoldDimension, AllocError>
    ensures sold { (commands : List Accepted) (c : Accepted) → c.content ≡ Sells sales.now → AreTypes commands dimension.now.dim dimension.now.types.now
        → AllByRecursion (KnowsEnough dimension.now.dim dimension.now.types.now (number_in dimension.now.profiles.now) (profiles_of commands)) mentioned.now
        → members_before ≡ length (members dimension.now.dim commands) → mentioned.now ≡ map (member_of dimension.now.dim (commands ++ c ∷ [])) (naturals_sold dimension.now.dim sales.now)
        → IfOk result (IsSoldDimension dimension.now.dim commands (commands ++ c ∷ []) sales.now) }
    ensures many { IfOk result (λ sold. length sold.keys.items ≡ length sales.now) }
{
    let rendered = rendered_members(alloc, dimension, mentioned)?;
    Ok(SoldDimension {
        keys: keys_of_sales(alloc, dimension, &rendered, sales)?,
        members: new_member_rows(alloc, dimension.dim, members_before, mentioned)?,
        rows: placeholders(alloc, members_before, &rendered)?,
    })
}

/// What sales have of a dimension, by reads of the members that they mention alone.
pub(crate) fn read_sold_dimension<S: Alter>(
    tables: &mut Tables<S>,
    alloc: Global,
    policy: &Policy,
    dim: Dim,
    sales: &[SaleRecord],
) -> Result<SoldDimension, ReadFault>
    ensures reads { ReadsOnlyIn S.Store tables.old tables.new result }
    ensures sold { WhenOfCommands S.Store tables.old tables.new (λ _ commands. FindsSold commands dim sales.now policy.now result) }
    ensures many { IfOk result (λ sold. length sold.keys.items ≡ length sales.now) }
{
    let naturals = naturals_sold(alloc, dim, sales)?;
    let drawn = numbers_drawn(tables, alloc, dim)?;
    let members = members_with_numbers(tables, alloc, dim, drawn, &naturals)?;
    let types = policy.types(alloc, dim)?;
    let profiles = known_of(tables, alloc, dim, &types, &members)?;
    let dimension = DimensionShape {
        dim,
        types: &types,
        profiles: &profiles,
    };
    Ok(sold_dimension_of(alloc, &dimension, sales, drawn.members, &members)?)
}
