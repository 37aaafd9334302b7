//! The stored facts that a batch of dimension records moves.

ghost use Rattle.std.specs.Prelude.{◌≡◌, ℕ, ◌==◌, nat_lt, ◌&&◌, if◌then◌else◌, Some, filter_map, map, option_map, IfOk, OnOk};
ghost use Rattle.wh_history.specs.Accepted.{format_of};
ghost use Rattle.wh_history.specs.Facts.{rekeyed_fact};
ghost use Rattle.wh_history.specs.Shapes.{shape_of, shown};
ghost use Rattle.wh_rows.specs.Questions.{durable_of};
ghost use Rattle.wh_plan.specs.MovedFacts.{pair_of};
ghost use Rattle.wh_plan.specs.OnePass.{first_moving, moved_fact, mover, moving_of, on_day, owner_in, seen, first_with};
ghost use Rattle.wh_plan.specs.RecordPlan.{MovesFacts};
ghost use Rattle.wh_sql.specs.Answers.{ReadsOnlyIn};
ghost use Rattle.wh_plan.specs.Reads.{WhenOfCommands};

use crate::records::touched::TouchedMember;
use sqlite::Alter;
use std::alloc::{AllocError, Global};
use std::collections::BTreeMap;
use wh_day::Day;
use wh_history::{DimensionShape, Fact, RenderedRows};
use wh_policy::{Dim, Format};
use wh_store::{ReadFault, SomeMembers, Tables};

/// A stored member as it is after a batch, and the keys of the first and the last day of which the batch can move its facts.
#[derive(Drop)]
struct MovingMember<'a> {
    rows: &'a RenderedRows<'a>,
    since: u64,
    until: u64,
}

/// The stored members that a batch touches, by their durable keys.
#[derive(Drop)]
struct MovingMembers<'a> {
    by_durable: BTreeMap<u64, MovingMember<'a>>,
}

impl SomeMembers for MovingMembers<'_> {
    ghost use Rattle.wh_plan.specs.OnePass.{mover, moves_on};

    ghost among = { λ m. moves_on (mover m) };

    fn has(&self, durable: u64, day: u64) -> bool {
        self.mover(durable, day).is_some()
    }
}

impl<'a> MovingMembers<'a> {
    /// The member of a durable key, if the batch can move its facts of the day.
    fn mover(&self, durable: u64, day: u64) -> Option<&RenderedRows<'a>>
        ensures { option_map (λ rows. shown rows.now) result ≡ on_day (mover self.now durable) day }
    {
        match self.by_durable.get(&durable) {
            Some(member) if member.since <= day && day <= member.until => Some(member.rows),
            _ => None,
        }
    }

    /// Adds a touched member, if it is stored, in the place of another one of its durable key.
    fn add(
        &mut self,
        alloc: Global,
        dimension: &DimensionShape,
        touched: &'a TouchedMember<'a>,
    ) -> Result<(), AllocError>
        ensures { OnOk result ((durable : ℕ) → mover self.new durable ≡ (if nat_lt 0 touched.now.stored.now.durable && (touched.now.after.member.now.durable == durable) then Some (moving_of (shape_of dimension.now) (pair_of touched.now)) else mover self.old durable)) }
    {
        if touched.stored.durable == 0 {
            return Ok(());
        }
        let member = moving_member(alloc, dimension, touched)?;
        self.by_durable
            .insert(touched.after.member.durable, member)?;
        Ok(())
    }
}

/// A touched member with its days.
fn moving_member<'a>(
    alloc: Global,
    dimension: &DimensionShape,
    touched: &'a TouchedMember<'a>,
) -> Result<MovingMember<'a>, AllocError>
    ensures { IfOk result (λ m. seen m ≡ moving_of (shape_of dimension.now) (pair_of touched.now)) }
{
    let since = touched.moves_since();
    let until = dimension.moves_until(alloc, touched.stored, &touched.after)?;
    Ok(MovingMember {
        rows: &touched.after,
        since: u64::from(since.key()),
        until: u64::from(until.key()),
    })
}

/// The touched members that are stored. Of two with one durable key the first counts.
fn moving_members<'a>(
    alloc: Global,
    dimension: &DimensionShape,
    touched: &'a [TouchedMember<'a>],
) -> Result<MovingMembers<'a>, AllocError>
    ensures { IfOk result (λ m. (durable : ℕ) → mover m durable ≡ option_map (moving_of (shape_of dimension.now)) (owner_in (map pair_of touched.now) durable)) }
{
    let mut members = MovingMembers {
        by_durable: BTreeMap::new(alloc),
    };
    let mut left = touched.len();
    while left > 0 {
        left -= 1;
        members.add(alloc, dimension, &touched[left])?;
    }
    Ok(members)
}

/// The first day of which a fact can move, with one more touched member.
fn first_with(first: Option<Day>, touched: &TouchedMember) -> Option<Day>
    ensures { result ≡ first_with (pair_of touched.now) first }
{
    if touched.stored.durable == 0 {
        return first;
    }
    let since = touched.moves_since();
    match first {
        Some(day) if day < since => Some(day),
        _ => Some(since),
    }
}

/// The first day of which a fact can move. `None`: no touched member is stored.
fn first_moving(touched: &[TouchedMember]) -> Option<Day>
    ensures { result ≡ first_moving (map pair_of touched.now) }
{
    let mut first = None;
    let mut left = touched.len();
    while left > 0 {
        left -= 1;
        first = first_with(first, &touched[left]);
    }
    first
}

/// The durable key of a fact's member of the dimension.
fn durable_of(dim: Dim, fact: &Fact) -> u64
    ensures { result ≡ durable_of dim fact.now }
{
    match dim {
        Dim::Product => fact.product_durable,
        Dim::Store => fact.store_durable,
        Dim::Customer => fact.customer_durable,
    }
}

/// A fact with its new keys, if the batch moves it.
fn moved_fact(
    alloc: Global,
    dimension: &DimensionShape,
    members: &MovingMembers,
    fact: &Fact,
) -> Result<Option<Fact>, AllocError>
    ensures { IfOk result (λ moved. moved ≡ moved_fact (shape_of dimension.now) (mover members.now) fact.now) }
{
    let durable = durable_of(dimension.dim, fact);
    match members.mover(durable, u64::from(fact.day.key())) {
        Some(rows) => dimension.rekeyed_fact(alloc, rows, fact),
        None => Ok(None),
    }
}

/// Of some facts those that the batch moves, with their new keys, in their order.
fn moved_facts(
    alloc: Global,
    dimension: &DimensionShape,
    members: &MovingMembers,
    facts: &[Fact],
) -> Result<Vec<Fact>, AllocError>
    ensures { IfOk result (λ moved. moved.items ≡ filter_map (moved_fact (shape_of dimension.now) (mover members.now)) facts.now) }
{
    let mut moved = Vec::new(alloc);
    for fact in facts {
        if let Some(fact) = moved_fact(alloc, dimension, members, fact)? {
            moved.push(fact)?;
        }
    }
    Ok(moved)
}

/// The facts of the touched members whose keys change with a batch of records, with their new keys. Members that aren't stored have
/// none.
pub(crate) fn facts_to_move<S: Alter>(
    tables: &mut Tables<S>,
    alloc: Global,
    format: Format,
    dimension: &DimensionShape,
    touched: &[TouchedMember],
) -> Result<Vec<Fact>, ReadFault>
    ensures reads { ReadsOnlyIn S.Store tables.old tables.new result }
    // They are what leads from the facts of the commands so far to those with the batch.
    ensures moved { WhenOfCommands S.Store tables.old tables.new (λ limits commands. format ≡ format_of commands → MovesFacts limits commands dimension.now touched.now result) }
{
    let Some(from) = first_moving(touched) else {
        return Ok(Vec::new(alloc));
    };
    let members = moving_members(alloc, dimension, touched)?;
    let found = tables.facts_of_members(alloc, format, dimension.dim, &members, from)?;
    Ok(moved_facts(alloc, dimension, &members, &found)?)
}
