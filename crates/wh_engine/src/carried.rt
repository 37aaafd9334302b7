//! The batches that carry a dimension's members to the next file.

ghost use Rattle.std.specs.Prelude.{◌≡◌, ◌≤◌, ℕ, [], List, IfErr, IfOk, OnOk};
ghost use Rattle.wh_policy.specs.declared.attribute.Attribute.{Attribute};
ghost use Rattle.wh_admission.specs.Admission.{AreAdmitted, current_policy};
ghost use Rattle.wh_policy.specs.Policy.{policy_attributes};
ghost use Rattle.wh_records.specs.Carried.{carried_between, carried_of};
ghost use Rattle.wh_records.specs.Filled.{IsFilled};
ghost use Rattle.wh_records.specs.Parts.{IsPartAt};
ghost use Rattle.wh_sql.specs.Answers.{ReadsOnlyIn};
ghost use Rattle.wh_engine.specs.Carried.{IsSourceOf};
ghost use Rattle.wh_engine.specs.Scanned.{EngineReads, IsServing, IsWanting, Reads, WhenAtRest, WhenOfCommands, WhenReady};

use crate::engine::Engine;
use crate::fault::{Fault, stops};
use sqlite::Alter;
use std::alloc::Global;
use wh_migration::members_between;
use wh_plan::reading::last_member;
use wh_policy::{AttributeType, Dim, DimensionRecord, Policy};
use wh_records::{Filling, Part, RecordKind, carried_members};
use wh_store::{ReadFault, Tables};

/// How many members are in memory at once.
const RANGE: u64 = 1000;

/// The records of a kind of a dimension, whose slots have these types.
#[derive(Drop)]
struct Source {
    dim: Dim,
    kind: RecordKind,
    types: Vec<AttributeType>,
}

/// Its records of the members whose durable keys are past a number and up to another.
fn records_between<S: Alter>(
    tables: &mut Tables<S>,
    alloc: Global,
    source: &Source,
    after: u64,
    last: u64,
) -> Result<Vec<DimensionRecord>, ReadFault>
    requires { after ≤ last }
    ensures reads { ReadsOnlyIn S.Store tables.old tables.new result }
    ensures records { WhenOfCommands S.Store tables.old tables.new (λ limits commands. AreAdmitted limits commands → IsSourceOf commands source.now → IfOk result (λ found. found.items ≡ carried_between source.now.kind source.now.dim commands after last)) }
{
    let members = members_between(tables, alloc, source.dim, after, last)?;
    let found = carried_members(alloc, source.kind, &source.types, &members)?;
    Ok(found)
}

/// Fills a part further from the members whose durable keys are past a number and up to another.
fn fill_between<S: Alter>(
    tables: &mut Tables<S>,
    alloc: Global,
    source: &Source,
    after: u64,
    last: u64,
    filling: &mut Filling,
) -> Result<(), ReadFault>
    requires { after ≤ last }
    ensures reads { ReadsOnlyIn S.Store tables.old tables.new result }
    ensures filled { WhenOfCommands S.Store tables.old tables.new (λ limits commands. AreAdmitted limits commands → IsSourceOf commands source.now → OnOk result ((attributes : List Attribute) (place : ℕ) → IsFilled attributes place (carried_between source.now.kind source.now.dim commands 0 after) filling.old → IsFilled attributes place (carried_between source.now.kind source.now.dim commands 0 last) filling.new)) }
{
    let found = records_between(tables, alloc, source, after, last)?;
    filling.add(alloc, &found)?;
    Ok(())
}

/// Fills a part from the members up to a durable key, a range at a time, until it is full.
fn fill<S: Alter>(
    tables: &mut Tables<S>,
    alloc: Global,
    source: &Source,
    last: u64,
    filling: &mut Filling,
) -> Result<(), ReadFault>
    ensures reads { ReadsOnlyIn S.Store tables.old tables.new result }
    ensures filled { WhenOfCommands S.Store tables.old tables.new (λ limits commands. AreAdmitted limits commands → IsSourceOf commands source.now → OnOk result ((attributes : List Attribute) (place : ℕ) → IsFilled attributes place [] filling.old → IsFilled attributes place (carried_between source.now.kind source.now.dim commands 0 last) filling.new)) }
{
    let mut after = 0;
    while after < last {
        if filling.is_full() {
            return Ok(());
        }
        let upto = after + (last - after).min(RANGE);
        fill_between(tables, alloc, source, after, upto, filling)?;
        after = upto;
    }
    Ok(())
}

/// The part of the records of a kind that begins at a place among them.
fn filled_part<S: Alter>(
    tables: &mut Tables<S>,
    alloc: Global,
    policy: &Policy,
    dim: Dim,
    kind: RecordKind,
    place: usize,
) -> Result<Filling, ReadFault>
    ensures reads { ReadsOnlyIn S.Store tables.old tables.new result }
    ensures filled { WhenOfCommands S.Store tables.old tables.new (λ limits commands. AreAdmitted limits commands → policy.now ≡ current_policy commands → IfOk result (IsFilled (policy_attributes policy.now dim) place (carried_of kind dim commands))) }
{
    let types = policy.types(alloc, dim)?;
    let source = Source { dim, kind, types };
    let mut filling = Filling::new(alloc, policy.attributes(dim), place)?;
    let last = last_member(tables, alloc, dim)?;
    fill(tables, alloc, &source, last.durable, &mut filling)?;
    Ok(filling)
}

/// The part of all that is carried of a dimension that begins at a place.
fn part_at<S: Alter>(
    tables: &mut Tables<S>,
    alloc: Global,
    policy: &Policy,
    dim: Dim,
    place: usize,
) -> Result<Part, ReadFault>
    ensures reads { ReadsOnlyIn S.Store tables.old tables.new result }
    ensures part { WhenOfCommands S.Store tables.old tables.new (λ limits commands. AreAdmitted limits commands → policy.now ≡ current_policy commands → IfOk result (IsPartAt policy.now commands dim place)) }
{
    let firsts = filled_part(tables, alloc, policy, dim, RecordKind::First, place)?;
    if firsts.is_begun() {
        return Ok(firsts.into_part());
    }
    let dated = filled_part(
        tables,
        alloc,
        policy,
        dim,
        RecordKind::Dated,
        firsts.before(),
    )?;
    Ok(dated.into_part())
}

/// The same, as the engine answers.
fn carried_batch<S: Alter>(
    tables: &mut Tables<S>,
    alloc: Global,
    policy: &Policy,
    dim: Dim,
    from: usize,
) -> Result<Part, Fault>
    ensures reads { Reads S.Store tables.old tables.new result }
    ensures sound { WhenAtRest S.Store tables.old tables.new (λ _. IfErr result IsWanting) }
    ensures part { WhenOfCommands S.Store tables.old tables.new (λ limits commands. AreAdmitted limits commands → policy.now ≡ current_policy commands → IfOk result (IsPartAt policy.now commands dim from)) }
{
    let part = part_at(tables, alloc, policy, dim, from)?;
    Ok(part)
}

impl<S: Alter> Engine<S> {
    /// The batch of the records that carry a dimension's members to the next file, from one of them on, counted from 0 through the first records
    /// and then the dated ones. It has as many of its kind as a batch can hold, and past the last one none. Members are read a range at a time, those
    /// before the batch too. `Damaged`: a row of member, or one of change, that is read is out of its type. After a refusal of the database it
    /// answers `Reopen`.
    pub fn carried_batch(&mut self, alloc: Global, dim: Dim, from: usize) -> Result<Part, Fault>
        ensures reads { EngineReads S.Store self.old self.new result }
        ensures serves { WhenReady S.Store self.old self.new (λ limits commands. IsServing limits commands result) }
        // It is a part of the whole list.
        ensures part { WhenReady S.Store self.old self.new (λ limits commands _ _. IfOk result (IsPartAt (current_policy commands) commands dim from)) }
    {
        if self.session.must_reopen {
            return Err(Fault::Reopen);
        }
        let found = carried_batch(&mut self.tables, alloc, &self.session.policy, dim, from);
        self.session.must_reopen = stops(&found);
        found
    }
}
