//! The members that a batch touches, record by record.

ghost use Rattle.std.specs.Prelude.{◌≡◌, ◌+◌, ◌-◌, ◌*◌, ◌^◌, ◌<◌, ◌++◌, ◌∷◌, [], suc, map, length, replicate, drop, IfOk, OnOk, string_bytes, bytes_eq};
ghost use Rattle.std.specs.List.{position_or_len};
ghost use Rattle.wh_history.specs.Touched.{given_or, grown, anchor_of_day, with_numbers, with_record, anchors_with, current, with_stored, touch, touched, untouched};

use crate::member::{Change, Changes, Member};
use crate::slots::padded;
use indexmap::IndexSet;
use std::alloc::{AllocError, Global};
use std::marker::Model;
use wh_day::{Day, NaturalKey, ParseError, Value};
use wh_policy::DimensionRecord;

/// Where the members stand that a batch may touch.
pub trait MemberSource {
    ghost use Rattle.std.specs.Prelude.{ℕ, List};
    ghost use Rattle.wh_history.specs.declared.member.Member.{Member};

    /// Why a member can't be read.
    type Fault;

    ghost stored: { Self → List ℕ → Member };

    /// The stored member with a natural key; if there is none, one with zeros and no changes. The error says why it can't be read, or is
    /// `Memory`.
    fn member(&self, alloc: Global, natural: &Value) -> Result<Member, ParseError<Self::Fault>>
        ensures member { IfOk result (λ m. m ≡ stored self.now natural.now) }
        ensures natural { IfOk result (λ m. m.natural ≡ natural.now) };
}

/// The members that were touched, in order of first mention, and how many numbers are given.
#[derive(Debug, Drop)]
pub struct TouchedMembers {
    members: u64,
    anchors: u64,
    owners: Vec<u64>,
    list: Vec<Member>,
}

impl Model for TouchedMembers {
    ghost use Rattle.wh_history.specs.Touched.{TouchedMembers as Members};

    ghost Value = { Members };

    ghost view = { λ t. record { members = t.members; anchors = t.anchors; owners = t.owners.items; list = t.list.items } };
}

impl TouchedMembers {
    /// For each anchor that the batch gave a surrogate key, in their order, the durable key of its member.
    pub fn owners(&self) -> &[u64]
        ensures { result.now ≡ self.now.owners }
    {
        self.owners.as_slice()
    }

    /// The members, in order of first mention.
    pub fn as_slice(&self) -> &[Member]
        ensures { result.now ≡ self.now.list }
    {
        self.list.as_slice()
    }
}

/// What was touched so far. A natural key has the same place in the set as its member in the list.
#[derive(Drop)]
struct Touching {
    naturals: IndexSet<String>,
    members: u64,
    anchors: u64,
    owners: Vec<u64>,
    list: Vec<Member>,
}

/// The number that was given, or else the next one.
fn number_or_next(given: u64, count: &mut u64) -> u64
    requires { count.old + 1 < 2 ^ 64 }
    ensures given { result ≡ given_or given (suc count.old) }
    ensures counted { count.new ≡ grown given count.old }
{
    if given > 0 {
        return given;
    }
    *count += 1;
    *count
}

/// The number of a member's day, and 0 where none of its changes has the day.
pub fn anchor_of_day(changes: &[Change], day: Day) -> u64
    ensures { result ≡ anchor_of_day day changes.now }
{
    match changes.iter().find(|change| change.day == day) {
        Some(change) => change.anchor,
        None => 0,
    }
}

/// Gives a member the next numbers, unless it has some.
pub fn give_numbers(member: &mut Member, members: &mut u64, anchors: &mut u64)
    requires members { members.old + 1 < 2 ^ 64 }
    requires anchors { anchors.old + 1 < 2 ^ 64 }
    ensures member { member.new ≡ with_numbers members.old anchors.old member.old }
    ensures members { members.new ≡ grown member.old.durable members.old }
    ensures anchors { anchors.new ≡ grown member.old.opening anchors.old }
{
    member.durable = number_or_next(member.durable, members);
    member.opening = number_or_next(member.opening, anchors);
}

/// Adds a record to its member.
fn add_record(
    alloc: Global,
    member: &mut Member,
    members: &mut u64,
    anchors: &mut u64,
    incoming: &DimensionRecord,
) -> Result<(), AllocError>
    requires members { members.old + 1 < 2 ^ 64 }
    requires anchors { anchors.old + 2 < 2 ^ 64 }
    ensures member { OnOk result (member.new ≡ with_record members.old anchors.old member.old incoming.now) }
    ensures members { OnOk result (members.new ≡ grown member.old.durable members.old) }
    ensures anchors { OnOk result (anchors.new ≡ anchors_with anchors.old member.old incoming.now) }
{
    give_numbers(member, members, anchors);
    let given = anchor_of_day(member.changes.as_slice(), incoming.day);
    let anchor = number_or_next(given, anchors);
    let values = padded(alloc, &incoming.values)?;
    member.changes.push(Change {
        day: incoming.day,
        anchor,
        values,
    })?;
    Ok(())
}

fn source_member<S: MemberSource>(
    alloc: Global,
    stored: &S,
    natural: &NaturalKey,
) -> Result<Member, ParseError<S::Fault>>
    ensures member { IfOk result (λ m. m ≡ S.stored stored.now natural.now) }
    ensures natural { IfOk result (λ m. m.natural ≡ natural.now) }
{
    let natural = Value::new(alloc, natural.as_str())?;
    stored.member(alloc, &natural)
}

/// The place of the member with a natural key. One that was not touched before comes from where it is stored.
fn place_or_add<S: MemberSource>(
    alloc: Global,
    stored: &S,
    naturals: &mut IndexSet<String>,
    list: &mut Vec<Member>,
    natural: &NaturalKey,
) -> Result<usize, ParseError<S::Fault>>
    requires { map (λ n. string_bytes n) naturals.old.keys ≡ map (λ m. m.natural) list.old.items }
    ensures naturals { OnOk result (map (λ n. string_bytes n) naturals.new.keys ≡ map (λ m. m.natural) list.new.items) }
    ensures list { OnOk result (list.new.items ≡ with_stored (S.stored stored.now) list.old.items natural.now) }
    ensures place { IfOk result (λ place. place ≡ position_or_len (λ m. bytes_eq m.natural natural.now) list.old.items) }
    ensures natural { OnOk result ((current (S.stored stored.now) list.old.items natural.now).natural ≡ natural.now) }
{
    let (place, is_new) = naturals.insert_full(String::from_str(alloc, natural.as_str())?)?;
    if !is_new {
        return Ok(place);
    }
    list.push(source_member(alloc, stored, natural)?)?;
    Ok(place)
}

/// Notes the owner of so many anchors.
fn add_owners(owners: &mut Vec<u64>, count: u64, owner: u64) -> Result<(), AllocError>
    ensures { OnOk result (owners.new.items ≡ owners.old.items ++ replicate count owner) }
{
    for _place in 0..count {
        owners.push(owner)?;
    }
    Ok(())
}

/// Adds a record to its member, and notes the anchors that got surrogate keys.
fn touch<S: MemberSource>(
    alloc: Global,
    stored: &S,
    touching: &mut Touching,
    incoming: &DimensionRecord,
) -> Result<(), ParseError<S::Fault>>
    requires naturals { map (λ n. string_bytes n) touching.old.naturals.keys ≡ map (λ m. m.natural) touching.old.list.items }
    requires members { touching.old.members + 1 < 2 ^ 64 }
    requires anchors { touching.old.anchors + 2 < 2 ^ 64 }
    ensures naturals { OnOk result (map (λ n. string_bytes n) touching.new.naturals.keys ≡ map (λ m. m.natural) touching.new.list.items) }
    ensures touched { OnOk result (record { members = touching.new.members; anchors = touching.new.anchors; owners = touching.new.owners.items; list = touching.new.list.items } ≡ touch (S.stored stored.now) (record { members = touching.old.members; anchors = touching.old.anchors; owners = touching.old.owners.items; list = touching.old.list.items }) incoming.now) }
{
    let given = touching.anchors;
    let place = place_or_add(
        alloc,
        stored,
        &mut touching.naturals,
        &mut touching.list,
        &incoming.natural,
    )?;
    let member = &mut touching.list[place];
    add_record(
        alloc,
        member,
        &mut touching.members,
        &mut touching.anchors,
        incoming,
    )?;
    let durable = member.durable;
    add_owners(&mut touching.owners, touching.anchors - given, durable)?;
    Ok(())
}

/// The members that a batch touches, as they are after it. `members` and `anchors` are how many durable and surrogate keys are given before
/// it. The error is what [`MemberSource::member`] answers, or `Memory`.
pub fn touch_all<S: MemberSource>(
    alloc: Global,
    stored: &S,
    members: u64,
    anchors: u64,
    records: &[DimensionRecord],
) -> Result<TouchedMembers, ParseError<S::Fault>>
    requires members { members + length records.now < 2 ^ 64 }
    requires anchors { anchors + 2 * length records.now < 2 ^ 64 }
    ensures { IfOk result (λ t. t ≡ touched (S.stored stored.now) (untouched members anchors) records.now) }
{
    let mut touching = Touching {
        naturals: IndexSet::new(alloc),
        members,
        anchors,
        owners: Vec::new(alloc),
        list: Vec::new(alloc),
    };
    for incoming in records {
        touch(alloc, stored, &mut touching, incoming)?;
    }
    Ok(TouchedMembers {
        members: touching.members,
        anchors: touching.anchors,
        owners: touching.owners,
        list: touching.list,
    })
}
