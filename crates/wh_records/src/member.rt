//! What is carried of a member.

ghost use Rattle.std.specs.Prelude.{◌≡◌, ◌++◌, map, flat_map, take, if◌then◌else◌, Some, None, IfOk, OnOk};
ghost use Rattle.std.specs.Option.{option_to_list};
ghost use Rattle.wh_day.specs.NaturalKey.{is_key};
ghost use Rattle.wh_history.specs.Dated.{dated};
ghost use Rattle.wh_history.specs.Slots.{slot, columns_from};
ghost use Rattle.wh_records.specs.Carried.{record_as, first_value, first_values, first_among, kind_records, member_records};

use std::alloc::{AllocError, Global};
use wh_day::{KEY_LIMIT, NaturalKey, Value, Values};
use wh_history::dated::dated;
use wh_history::{Change, Member, original};
use wh_policy::{AttributeType, DimensionRecord};

/// The two kinds of records that carry a member.
#[derive(Clone, Copy, Debug, PartialEq, Eq)]
pub enum RecordKind {
    /// One more record of its first day, with its original values, where the dated ones alone would give others. It is accepted before them.
    First,
    /// Those of its dated list.
    Dated,
}

/// A member's natural key, if the text is one.
fn key_of(natural: &Value) -> Option<NaturalKey>
    ensures { result ≡ (if is_key 32 natural.now then Some natural.now else None) }
{
    NaturalKey::read(KEY_LIMIT, natural.as_str().as_bytes())
}

/// The values of the first slots.
fn values_of_slots(alloc: Global, values: &[Value], slots: usize) -> Result<Values, AllocError>
    ensures { IfOk result (λ taken. taken ≡ take slots values.now) }
{
    let mut taken = Values::new(alloc);
    for place in 0..values.len().min(slots) {
        taken.push(values[place].copy()?)?;
    }
    Ok(taken)
}

/// A change as a record.
fn record_as(
    alloc: Global,
    slots: usize,
    natural: &NaturalKey,
    change: &Change,
) -> Result<DimensionRecord, AllocError>
    ensures { IfOk result (λ carried. carried ≡ record_as slots natural.now change.now) }
{
    Ok(DimensionRecord {
        natural: natural.copy(),
        day: change.day,
        values: values_of_slots(alloc, change.values.as_slice(), slots)?,
    })
}

/// Adds changes as records. After an `Err` some may have been added.
fn push_changes(
    alloc: Global,
    found: &mut Vec<DimensionRecord>,
    slots: usize,
    natural: &NaturalKey,
    changes: &[Change],
) -> Result<(), AllocError>
    ensures { OnOk result (found.new.items ≡ found.old.items ++ map (record_as slots natural.now) changes.now) }
{
    for change in changes {
        found.push(record_as(alloc, slots, natural, change)?)?;
    }
    Ok(())
}

/// The same changes, in memory of their own.
fn copied(alloc: Global, changes: &[&Change]) -> Result<Vec<Change>, AllocError>
    ensures { IfOk result (λ copied. copied.items ≡ map (λ c. c.now) changes.now) }
{
    let mut copied = Vec::new(alloc);
    for change in changes {
        copied.push(change.copy(alloc)?)?;
    }
    Ok(copied)
}

/// The last accepted change of each day, in order of the days, in memory of their own.
fn dated_changes(alloc: Global, changes: &[Change]) -> Result<Vec<Change>, AllocError>
    ensures { IfOk result (λ found. found.items ≡ dated changes.now) }
{
    let found = dated(alloc, changes)?;
    copied(alloc, &found)
}

fn slot(alloc: Global, values: &[Value], place: usize) -> Result<Value, AllocError>
    ensures { IfOk result (λ text. text ≡ slot values.now place) }
{
    match values.get(place) {
        Some(text) => text.copy(),
        None => Value::none(alloc),
    }
}

/// What the first record says in a slot.
fn first_value(
    alloc: Global,
    changes: &[Change],
    first: &Change,
    place: usize,
    kind: AttributeType,
) -> Result<Value, AllocError>
    ensures { IfOk result (λ text. text ≡ first_value changes.now first.now place kind) }
{
    if kind.is_profile() {
        return slot(alloc, first.values.as_slice(), place);
    }
    original(alloc, changes, place)
}

fn first_values(
    alloc: Global,
    types: &[AttributeType],
    changes: &[Change],
    first: &Change,
) -> Result<Values, AllocError>
    ensures { IfOk result (λ values. values ≡ first_values types.now changes.now first.now) }
{
    let mut values = Values::new(alloc);
    for (place, kind) in types.iter().enumerate() {
        values.push(first_value(alloc, changes, first, place, *kind)?)?;
    }
    Ok(values)
}

/// The first record, where one is needed.
fn first_among(
    alloc: Global,
    types: &[AttributeType],
    natural: &NaturalKey,
    changes: &[Change],
    dated: &[Change],
) -> Result<Option<DimensionRecord>, AllocError>
    ensures { IfOk result (λ first_one. option_to_list first_one ≡ first_among types.now natural.now changes.now dated.now) }
{
    let [first, ..] = dated else {
        return Ok(None);
    };
    let values = first_values(alloc, types, changes, first)?;
    if first_values(alloc, types, dated, first)?.is_same(&values) {
        return Ok(None);
    }
    Ok(Some(DimensionRecord {
        natural: natural.copy(),
        day: first.day,
        values,
    }))
}

fn add_first(
    found: &mut Vec<DimensionRecord>,
    first: Option<DimensionRecord>,
) -> Result<(), AllocError>
    ensures { OnOk result (found.new.items ≡ found.old.items ++ option_to_list first) }
{
    if let Some(first) = first {
        found.push(first)?;
    }
    Ok(())
}

/// Adds the records of a kind of a member with these changes. After an `Err` some may have been added.
fn add_records(
    found: &mut Vec<DimensionRecord>,
    alloc: Global,
    kind: RecordKind,
    types: &[AttributeType],
    natural: &NaturalKey,
    changes: &[Change],
) -> Result<(), AllocError>
    ensures { OnOk result (found.new.items ≡ found.old.items ++ kind_records kind types.now natural.now changes.now) }
{
    let dated = dated_changes(alloc, changes)?;
    match kind {
        RecordKind::First => {
            let first = first_among(alloc, types, natural, changes, &dated)?;
            add_first(found, first)
        }
        RecordKind::Dated => push_changes(alloc, found, types.len(), natural, &dated),
    }
}

/// Adds those of a member that was read; of one whose name is no key none.
fn add_member(
    found: &mut Vec<DimensionRecord>,
    alloc: Global,
    kind: RecordKind,
    types: &[AttributeType],
    member: &Member,
) -> Result<(), AllocError>
    ensures { OnOk result (found.new.items ≡ found.old.items ++ member_records kind types.now member.now) }
{
    match key_of(&member.natural) {
        Some(natural) => add_records(
            found,
            alloc,
            kind,
            types,
            &natural,
            member.changes.as_slice(),
        ),
        None => Ok(()),
    }
}

/// The records of a kind that carry members of a dimension with these types, in their order.
pub fn carried_members(
    alloc: Global,
    kind: RecordKind,
    types: &[AttributeType],
    members: &[Member],
) -> Result<Vec<DimensionRecord>, AllocError>
    ensures { IfOk result (λ found. found.items ≡ flat_map (member_records kind types.now) members.now) }
{
    let mut found = Vec::new(alloc);
    for member in members {
        add_member(&mut found, alloc, kind, types, member)?;
    }
    Ok(found)
}
