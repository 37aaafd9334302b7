//! All members of a warehouse, with the types that a policy gives the slots of their dimensions.

ghost use Rattle.std.specs.Prelude.{◌≡◌, ◌≤◌, ◌++◌, ◌∷◌, [], drop, map, option_map, take, IfOk, OnOk};
ghost use Rattle.std.specs.Option.{option_to_list};
ghost use Rattle.wh_policy.specs.declared.attribute.Dim.TheVariants.{Product, Store, Customer};
ghost use Rattle.wh_history.specs.Accepted.{Accepted, Governs, members, member_of};
ghost use Rattle.wh_history.specs.Keys.{at_place};
ghost use Rattle.wh_plan.specs.Reading.{HaveNoEmptyValue};
ghost use Rattle.wh_plan.specs.Reads.{WhenOfCommands};
ghost use Rattle.wh_migration.specs.Migrated.{all_members, AreDimensionMembers, AreWarehouseMembers};
ghost use Rattle.wh_model.specs.Sound.{IsAccepted};
ghost use Rattle.wh_sql.specs.Answers.{ReadsOnlyIn};

use sqlite::Alter;
use std::alloc::{AllocError, Global};
use wh_history::Member;
use wh_plan::reading::{last_member, stored_changes};
use wh_policy::{AttributeType, Dim, Policy};
use wh_rows::{MemberKey, tables};
use wh_store::{ReadFault, Tables};

/// All members of a dimension, in order of their durable keys, and the types of its slots.
#[derive(Drop)]
pub(crate) struct DimensionMembers {
    pub(crate) dim: Dim,
    pub(crate) types: Vec<AttributeType>,
    pub(crate) members: Vec<Member>,
}

/// Those of the three dimensions.
#[derive(Drop)]
pub(crate) struct WarehouseMembers {
    pub(crate) products: DimensionMembers,
    pub(crate) stores: DimensionMembers,
    pub(crate) customers: DimensionMembers,
}

/// The member with a durable key, if there is one.
fn numbered_member<S: Alter>(
    tables: &mut Tables<S>,
    alloc: Global,
    dim: Dim,
    durable: u64,
) -> Result<Option<Member>, ReadFault>
    ensures reads { ReadsOnlyIn S.Store tables.old tables.new result }
    ensures member { WhenOfCommands S.Store tables.old tables.new (λ _ commands. HaveNoEmptyValue commands → IfOk result (λ member. member ≡ option_map (member_of dim commands) (at_place durable (members dim commands)))) }
{
    let key = MemberKey { dim, durable };
    let found = tables.get::<tables::Member>(alloc, &key)?;
    match found {
        Some(row) => Ok(Some(Member {
            durable: row.durable,
            natural: row.natural,
            opening: row.opening,
            changes: stored_changes(tables, alloc, dim, row.durable)?,
        })),
        None => Ok(None),
    }
}

fn add_member(found: &mut Vec<Member>, member: Option<Member>) -> Result<(), AllocError>
    ensures { OnOk result (found.new.items ≡ found.old.items ++ option_to_list member) }
{
    if let Some(member) = member {
        found.push(member)?;
    }
    Ok(())
}

/// The members of a dimension with the durable keys past a number and up to another, in their order. `Damaged`: a row of member, or one of change,
/// that is read is out of its type.
pub fn members_between<S: Alter>(
    tables: &mut Tables<S>,
    alloc: Global,
    dim: Dim,
    after: u64,
    last: u64,
) -> Result<Vec<Member>, ReadFault>
    requires { after ≤ last }
    ensures reads { ReadsOnlyIn S.Store tables.old tables.new result }
    ensures members { WhenOfCommands S.Store tables.old tables.new (λ _ commands. HaveNoEmptyValue commands → IfOk result (λ found. found.items ≡ map (member_of dim commands) (drop after (take last (members dim commands))))) }
{
    let mut found = Vec::new(alloc);
    let mut durable = after;
    while durable < last {
        durable += 1;
        let member = numbered_member(tables, alloc, dim, durable)?;
        add_member(&mut found, member)?;
    }
    Ok(found)
}

/// All members of a dimension, in order of their durable keys. `Damaged`: a row of member, or one of change, is out of its type.
fn all_members<S: Alter>(
    tables: &mut Tables<S>,
    alloc: Global,
    dim: Dim,
) -> Result<Vec<Member>, ReadFault>
    ensures reads { ReadsOnlyIn S.Store tables.old tables.new result }
    ensures members { WhenOfCommands S.Store tables.old tables.new (λ _ commands. HaveNoEmptyValue commands → IfOk result (λ found. found.items ≡ all_members dim commands)) }
{
    let last = last_member(tables, alloc, dim)?;
    members_between(tables, alloc, dim, 0, last.durable)
}

/// The members of a dimension, to be shown under a policy that takes the place of the one in force.
fn dimension_members<S: Alter>(
    tables: &mut Tables<S>,
    alloc: Global,
    newer: &Policy,
    dim: Dim,
) -> Result<DimensionMembers, ReadFault>
    ensures reads { ReadsOnlyIn S.Store tables.old tables.new result }
    ensures read { WhenOfCommands S.Store tables.old tables.new (λ limits commands. (c : Accepted) → IsAccepted limits (commands ++ c ∷ []) → c.content ≡ Governs newer.now → IfOk result (AreDimensionMembers dim (commands ++ c ∷ []))) }
{
    Ok(DimensionMembers {
        dim,
        types: newer.types(alloc, dim)?,
        members: all_members(tables, alloc, dim)?,
    })
}

/// The members of the three dimensions, to be shown under a policy that takes the place of the one in force.
pub(crate) fn read_dimensions<S: Alter>(
    tables: &mut Tables<S>,
    alloc: Global,
    newer: &Policy,
) -> Result<WarehouseMembers, ReadFault>
    ensures reads { ReadsOnlyIn S.Store tables.old tables.new result }
    ensures read { WhenOfCommands S.Store tables.old tables.new (λ limits commands. (c : Accepted) → IsAccepted limits (commands ++ c ∷ []) → c.content ≡ Governs newer.now → IfOk result (AreWarehouseMembers (commands ++ c ∷ []))) }
{
    let products = dimension_members(tables, alloc, newer, Dim::Product)?;
    let stores = dimension_members(tables, alloc, newer, Dim::Store)?;
    let customers = dimension_members(tables, alloc, newer, Dim::Customer)?;
    Ok(WarehouseMembers {
        products,
        stores,
        customers,
    })
}
