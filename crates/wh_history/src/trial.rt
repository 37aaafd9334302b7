//! The table of a dimension as it is after the making of a warehouse and one batch.

ghost use Rattle.std.specs.Prelude.{◌≡◌, ◌+◌, ◌*◌, ◌^◌, ◌<◌, ◌++◌, [], length, map, zero, IfOk, OnOk};
ghost use Rattle.std.specs.Option.{option_copied};
ghost use Rattle.wh_policy.specs.Policy.{policy_types};
ghost use Rattle.wh_history.specs.Slots.{six, columns_from};
ghost use Rattle.wh_history.specs.Profiles.{combinations_of};
ghost use Rattle.wh_history.specs.Known.{all_numbered};
ghost use Rattle.wh_history.specs.Shapes.{shape_of, shape_rows};
ghost use Rattle.wh_history.specs.Tables.{no_card_main, no_card_second, no_card_row, dimension_table, trial_commands};
ghost use Rattle.wh_history.specs.Touched.{touched, untouched, nothing_stored};
ghost use Rattle.wh_history.specs.Picked.{owned_row, picked_from, first_rows, profiles_in};

use crate::dimension::DimensionShape;
use crate::member::Member;
use crate::profiles::{Profiles, profile_texts};
use crate::rows::{DimRow, DimRows, row_of};
use crate::slots::fill_columns;
use crate::touched::{MemberSource, TouchedMembers, touch_all};
use std::alloc::{AllocError, Global};
use wh_day::{Day, ParseError, Value, Values};
use wh_policy::{AttributeType, Dim, DimensionRecord, MainColumn, Policy, SecondColumn};

/// A warehouse that holds no member yet.
struct NothingStored;

impl MemberSource for NothingStored {
    ghost use Rattle.wh_history.specs.Touched.{nothing_stored};

    type Fault = AllocError;

    ghost stored = { λ _. nothing_stored };

    fn member(&self, alloc: Global, natural: &Value) -> Result<Member, ParseError<AllocError>> {
        Ok(Member::absent(alloc, natural)?)
    }
}

/// The members of the records, which are the first that the dimension gets.
fn first_members(alloc: Global, records: &[DimensionRecord]) -> Result<TouchedMembers, AllocError>
    ensures { IfOk result (λ t. t ≡ touched nothing_stored (untouched 0 0) records.now) }
{
    match touch_all(alloc, &NothingStored, 0, 0, records) {
        Ok(members) => Ok(members),
        Err(_) => Err(AllocError),
    }
}

/// The combinations of profile values of the records of customers.
fn trial_profiles(
    alloc: Global,
    types: &[AttributeType],
    records: &[DimensionRecord],
) -> Result<Profiles, AllocError>
    ensures { IfOk result (λ found. found ≡ all_numbered (combinations_of types.now records.now)) }
{
    let mut found = Profiles::new(alloc);
    for incoming in records {
        found.add_next(profile_texts(alloc, types, incoming.values.as_slice())?)?;
    }
    Ok(found)
}

/// The profiles that a batch of a dimension brings: a batch of products or stores brings none.
fn profiles_in(
    alloc: Global,
    dim: Dim,
    types: &[AttributeType],
    records: &[DimensionRecord],
) -> Result<Profiles, AllocError>
    ensures { IfOk result (λ found. found ≡ all_numbered (profiles_in dim types.now records.now)) }
{
    match dim {
        Dim::Product | Dim::Store => Ok(Profiles::new(alloc)),
        Dim::Customer => trial_profiles(alloc, types, records),
    }
}

/// What the row of sales without a card shows of a slot in its main column.
fn no_card_main(alloc: Global, kind: AttributeType) -> Result<Value, AllocError>
    ensures { IfOk result (λ t. t ≡ no_card_main zero kind) }
{
    match kind.rule().main {
        MainColumn::Original | MainColumn::FirstDay | MainColumn::Latest => Value::no_card(alloc),
        MainColumn::Nothing => Ok(Value::empty(alloc)),
    }
}

/// And in its second column.
fn no_card_second(alloc: Global, kind: AttributeType) -> Result<Value, AllocError>
    ensures { IfOk result (λ t. t ≡ no_card_second zero kind) }
{
    match kind.rule().second {
        SecondColumn::Nothing => Ok(Value::empty(alloc)),
        SecondColumn::Prior | SecondColumn::Latest => Value::no_card(alloc),
    }
}

fn no_card_mains(alloc: Global, types: &[AttributeType]) -> Result<Values, AllocError>
    ensures { IfOk result (λ v. v ≡ six (columns_from no_card_main 0 types.now)) }
{
    let mut texts = Values::new(alloc);
    for kind in types {
        texts.push(no_card_main(alloc, *kind)?)?;
    }
    fill_columns(alloc, &mut texts)?;
    Ok(texts)
}

fn no_card_seconds(alloc: Global, types: &[AttributeType]) -> Result<Values, AllocError>
    ensures { IfOk result (λ v. v ≡ six (columns_from no_card_second 0 types.now)) }
{
    let mut texts = Values::new(alloc);
    for kind in types {
        texts.push(no_card_second(alloc, *kind)?)?;
    }
    fill_columns(alloc, &mut texts)?;
    Ok(texts)
}

/// The row of the customer table that stands for sales without a card. Its keys are 0.
///
/// Kimball & Ross, *The Data Warehouse Toolkit*, 3rd edition, chapter 3, "Null Foreign Keys, Attributes, and Facts".
pub fn no_card_row(alloc: Global, types: &[AttributeType]) -> Result<DimRow, AllocError>
    ensures { IfOk result (λ r. r ≡ no_card_row types.now) }
{
    Ok(DimRow {
        surrogate: 0,
        durable: 0,
        natural: Value::no_card(alloc)?,
        from_day: Day::first(),
        to_day: Day::last(),
        is_current: true,
        a: no_card_mains(alloc, types)?,
        b: no_card_seconds(alloc, types)?,
        profile_now: 0,
    })
}

/// The rows that a dimension's table has before the first key: among the customers the one for sales without a card.
pub fn first_rows(
    alloc: Global,
    dim: Dim,
    types: &[AttributeType],
) -> Result<Vec<DimRow>, AllocError>
    ensures { IfOk result (λ found. found.items ≡ first_rows dim types.now) }
{
    let mut found = Vec::new(alloc);
    match dim {
        Dim::Product | Dim::Store => {}
        Dim::Customer => found.push(no_card_row(alloc, types)?)?,
    }
    Ok(found)
}

/// The rows of each member.
fn rows_of_each(
    alloc: Global,
    dimension: &DimensionShape,
    members: &[Member],
) -> Result<Vec<DimRows>, AllocError>
    ensures { IfOk result (λ found. found.items ≡ map (shape_rows (shape_of dimension.now)) members.now) }
{
    let mut found = Vec::new(alloc);
    for member in members {
        found.push(DimRows::new(dimension.rows_of(alloc, member)?))?;
    }
    Ok(found)
}

/// The row under a key, of the member with a durable key.
fn owned_row(rows: &[DimRows], key: u64, owner: u64) -> Option<&DimRow>
    ensures { option_copied result ≡ owned_row rows.now key owner }
{
    if owner == 0 {
        return None;
    }
    match rows.get(owner as usize - 1) {
        Some(of_member) => row_of(of_member.as_slice(), key),
        None => None,
    }
}

/// Adds the rows of the keys from 1 on, whose owners are these.
fn pick(
    alloc: Global,
    table: &mut Vec<DimRow>,
    rows: &[DimRows],
    owners: &[u64],
) -> Result<(), AllocError>
    ensures { OnOk result (table.new.items ≡ table.old.items ++ picked_from rows.now 1 owners.now) }
{
    for (place, owner) in owners.iter().enumerate() {
        if let Some(row) = owned_row(rows, place as u64 + 1, *owner) {
            table.push(row.copy(alloc)?)?;
        }
    }
    Ok(())
}

/// The table of a dimension, in order of surrogate key, as it is after the making of a warehouse under a policy and one
/// batch of records.
pub fn trial_table(
    alloc: Global,
    policy: &Policy,
    dim: Dim,
    records: &[DimensionRecord],
) -> Result<Vec<DimRow>, AllocError>
    ensures { IfOk result (λ table. table.items ≡ dimension_table (trial_commands policy.now dim records.now) dim) }
{
    let types = policy.types(alloc, dim)?;
    let members = first_members(alloc, records)?;
    let profiles = profiles_in(alloc, dim, &types, records)?;
    let dimension = DimensionShape {
        dim,
        types: &types,
        profiles: &profiles,
    };
    let rows = rows_of_each(alloc, &dimension, members.as_slice())?;
    let mut table = first_rows(alloc, dim, &types)?;
    pick(alloc, &mut table, &rows, members.owners())?;
    Ok(table)
}
