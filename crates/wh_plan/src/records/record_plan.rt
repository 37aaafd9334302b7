//! What a batch of dimension records writes, by reads of what it touches.

ghost use Rattle.std.specs.Prelude.{◌≡◌, ◌≤◌, ◌++◌, ◌∷◌, [], suc, ℕ, List, map, length, Some, IfOk};
ghost use Rattle.wh_history.specs.Accepted.{Accepted, Describes, format_of, member_of};
ghost use Rattle.wh_history.specs.Keys.{greatest_number};
ghost use Rattle.wh_history.specs.Laws.{RecordsHaveDays};
ghost use Rattle.wh_history.specs.Plan.{IsRowPlan, row_of};
ghost use Rattle.wh_history.specs.Shapes.{Shape};
ghost use Rattle.wh_history.specs.Tables.{dimension_row};
ghost use Rattle.wh_model.specs.Defined.{command_at};
ghost use Rattle.wh_plan.specs.BatchRows.{AreBatchRows};
ghost use Rattle.wh_plan.specs.NewRows.{Records, members_among, naturals_told, rows_of_members};
ghost use Rattle.wh_plan.specs.Reading.{HaveNoEmptyValue};
ghost use Rattle.wh_sql.specs.Answers.{ReadsOnlyIn};
ghost use Rattle.wh_plan.specs.Reads.{WhenOfCommands};
ghost use Rattle.wh_plan.specs.RecordPlan.{AreTouched, IsFound, IsPlanned, PlansRecords};
ghost use Rattle.wh_model.specs.Sound.{AreTypes, IsAccepted};

use crate::batch_rows::{BatchRows, edits_of_batch};
use crate::edits::Edits;
use crate::fact_edits::fact_rekeys;
use crate::naturals::naturals_told;
use crate::new_rows::{new_change_rows, new_member_rows};
use crate::numbers::{NumbersDrawn, numbers_drawn};
use crate::profiles::learned_of;
use crate::reading::{stored_member, stored_rows};
use crate::records::batch::Batch;
use crate::records::moved_facts::facts_to_move;
use crate::records::touched::{TouchedMember, rows_after, touched_members, touched_rows};
use crate::terms::Terms;
use sqlite::Alter;
use std::alloc::{AllocError, Global};
use wh_day::Value;
use wh_history::{DimRow, DimensionShape, Edit, Fact, Member, plan_rows};
use wh_policy::{Dim, DimensionRecord};
use wh_rows::{CommandRow, ProfileRow};
use wh_store::{ReadFault, Tables};

/// Members with these natural keys, as they are stored.
fn stored_members<S: Alter>(
    tables: &mut Tables<S>,
    alloc: Global,
    dim: Dim,
    naturals: &[Value],
) -> Result<Vec<Member>, ReadFault>
    ensures reads { ReadsOnlyIn S.Store tables.old tables.new result }
    ensures members { WhenOfCommands S.Store tables.old tables.new (λ _ commands. HaveNoEmptyValue commands → IfOk result (λ members. members.items ≡ map (member_of dim commands) naturals.now)) }
{
    let mut found = Vec::new(alloc);
    for natural in naturals {
        found.push(stored_member(tables, alloc, dim, natural)?)?;
    }
    Ok(found)
}

/// The rows of a member that was read. One without a durable key has none.
fn rows_of_member<S: Alter>(
    tables: &mut Tables<S>,
    alloc: Global,
    dim: Dim,
    member: &Member,
) -> Result<Vec<DimRow>, ReadFault>
    ensures reads { ReadsOnlyIn S.Store tables.old tables.new result }
    ensures rows { WhenOfCommands S.Store tables.old tables.new (λ _ commands. RecordsHaveDays commands → (natural : List ℕ) → member.now ≡ member_of dim commands natural → IfOk result (λ rows. (key : ℕ) → row_of key rows.items ≡ row_of key (rows_of_members commands dim (members_among commands dim (natural ∷ []))))) }
{
    if member.durable == 0 {
        return Ok(Vec::new(alloc));
    }
    Ok(stored_rows(tables, alloc, dim, member.durable)?)
}

/// The rows of members that were read, one member after the other.
fn rows_of_stored<S: Alter>(
    tables: &mut Tables<S>,
    alloc: Global,
    dim: Dim,
    members: &[Member],
) -> Result<Vec<DimRow>, ReadFault>
    ensures reads { ReadsOnlyIn S.Store tables.old tables.new result }
    ensures rows { WhenOfCommands S.Store tables.old tables.new (λ _ commands. RecordsHaveDays commands → (naturals : List (List ℕ)) → members.now ≡ map (member_of dim commands) naturals → IfOk result (λ rows. (key : ℕ) → row_of key rows.items ≡ row_of key (rows_of_members commands dim (members_among commands dim naturals)))) }
{
    let mut found = Vec::new(alloc);
    for member in members {
        let mut rows = rows_of_member(tables, alloc, dim, member)?;
        found.append(&mut rows)?;
    }
    Ok(found)
}

/// What is read for a batch.
#[derive(Drop)]
pub(crate) struct StoredBefore {
    /// The members that it touches, as they are stored.
    pub(crate) members: Vec<Member>,
    /// Their rows.
    pub(crate) rows: Vec<DimRow>,
    pub(crate) drawn: NumbersDrawn,
}

/// Reads what is kept of the members that a batch touches.
fn read_touched<S: Alter>(
    tables: &mut Tables<S>,
    alloc: Global,
    dim: Dim,
    records: &[DimensionRecord],
) -> Result<StoredBefore, ReadFault>
    ensures reads { ReadsOnlyIn S.Store tables.old tables.new result }
    ensures found { WhenOfCommands S.Store tables.old tables.new (λ limits commands. (c : Accepted) → IsAccepted limits (commands ++ c ∷ []) → c.content ≡ Describes dim records.now → IfOk result (IsFound dim commands records.now)) }
    ensures few { IfOk result (λ found. (found.drawn.members ≤ greatest_number) × (found.drawn.anchors ≤ greatest_number)) }
{
    let naturals = naturals_told(alloc, records)?;
    let members = stored_members(tables, alloc, dim, &naturals)?;
    let rows = rows_of_stored(tables, alloc, dim, &members)?;
    let drawn = numbers_drawn(tables, alloc, dim)?;
    Ok(StoredBefore {
        members,
        rows,
        drawn,
    })
}

/// The edits that lead from the rows of the touched members, as they are stored, to those that they have after the batch.
fn row_edits(
    alloc: Global,
    touched: Vec<TouchedMember>,
    stored: &[DimRow],
) -> Result<Vec<Edit<DimRow, u64>>, AllocError>
    ensures { (shape : Shape) (commands : List Accepted) (c : Accepted) (records : Records) → c.content ≡ Describes shape.dim records → AreTypes commands shape.dim shape.kinds
        → RecordsHaveDays commands → RecordsHaveDays (commands ++ c ∷ [])
        → AreTouched shape commands (commands ++ c ∷ []) records touched.entry.items
        → ((key : ℕ) → row_of key stored.now ≡ row_of key (rows_of_members commands shape.dim (members_among commands shape.dim (naturals_told records))))
        → IfOk result (λ edits. IsRowPlan (dimension_row commands shape.dim) (dimension_row (commands ++ c ∷ []) shape.dim) edits.items) }
{
    let after = rows_after(alloc, touched)?;
    Ok(plan_rows(alloc, stored, &after)?)
}

/// What was read and planned for a batch before its own rows.
#[derive(Drop)]
pub(crate) struct BatchPlan<'a> {
    pub(crate) found: &'a StoredBefore,
    /// The members that it touches, with their rows after it.
    pub(crate) touched: Vec<TouchedMember<'a>>,
    /// The rows of the profiles that it is the first to show.
    pub(crate) profiles: Vec<ProfileRow>,
    /// The facts that it moves.
    pub(crate) facts: Vec<Fact>,
}

/// The rows that a batch of records brings, from what was read and planned for it and its members as they are after it.
fn rows_of_batch(
    alloc: Global,
    command: CommandRow,
    records: &[DimensionRecord],
    dimension: &DimensionShape,
    after: &[Member],
    planned: BatchPlan,
) -> Result<BatchRows, AllocError>
    ensures { (commands : List Accepted) (c : Accepted) → c.content ≡ Describes dimension.now.dim records.now → AreTypes commands dimension.now.dim dimension.now.types.now
        → RecordsHaveDays commands → RecordsHaveDays (commands ++ c ∷ []) → command_at (commands ++ c ∷ []) (suc (length commands)) ≡ Some command
        → IsPlanned dimension.now records.now commands (commands ++ c ∷ []) after.now planned.entry → IfOk result (AreBatchRows commands c) }
{
    let dim = dimension.dim;
    let members = new_member_rows(alloc, dim, planned.found.drawn.members, after)?;
    let changes = new_change_rows(alloc, dim, command.number, after, records)?;
    let edits = row_edits(alloc, planned.touched, &planned.found.rows)?;
    let facts = fact_rekeys(alloc, planned.facts)?;
    let mut rows = BatchRows {
        command,
        members,
        changes,
        profiles: planned.profiles,
        facts,
        products: Vec::new(alloc),
        stores: Vec::new(alloc),
        customers: Vec::new(alloc),
    };
    rows.set_rows(dim, edits);
    Ok(rows)
}

/// What a batch of dimension records writes, from reads of the members that it touches alone: its own row and its edits of
/// the other tables. Records that come late may split rows and move facts. The error is a read's: `Memory`, `Damaged` with the table
/// whose row is out of its type, or `Store`.
///
/// Kimball & Ross, *The Data Warehouse Toolkit*, 3rd edition, chapter 5, "Slowly Changing Dimension Basics"; chapter 2, "Late Arriving
/// Dimensions".
pub fn plan_batch<S: Alter>(
    tables: &mut Tables<S>,
    alloc: Global,
    terms: &Terms,
    dim: Dim,
    command: CommandRow,
    records: &[DimensionRecord],
) -> Result<Edits, ReadFault>
    ensures reads { ReadsOnlyIn S.Store tables.old tables.new result }
    ensures edits { WhenOfCommands S.Store tables.old tables.new (λ limits commands. terms.now.format ≡ format_of commands → PlansRecords limits commands dim records.now terms.now.policy.now command result) }
    // Whatever is stored, a command that is planned writes its own row.
    ensures own { IfOk result (λ edits. length edits.commands ≡ 1) }
{
    let format = terms.format;
    let types = terms.policy.types(alloc, dim)?;
    let batch = Batch {
        dim,
        types: &types,
        records,
    };
    let found = read_touched(tables, alloc, dim, records)?;
    let touched = touched_members(alloc, &found.members, found.drawn, records)?;
    let after = touched.as_slice();
    let learned = learned_of(tables, alloc, &batch, after)?;
    let profiles = learned.fresh;
    let dimension = DimensionShape {
        dim,
        types: &types,
        profiles: &learned.known,
    };
    let members = touched_rows(alloc, &dimension, &found.members, after)?;
    let facts = facts_to_move(tables, alloc, format, &dimension, &members)?;
    let planned = BatchPlan {
        found: &found,
        touched: members,
        profiles,
        facts,
    };
    let rows = rows_of_batch(alloc, command, records, &dimension, after, planned)?;
    Ok(edits_of_batch(alloc, format, rows)?)
}
