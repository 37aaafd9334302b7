//! What is read of the accepted commands out of the tables.

ghost use Rattle.std.specs.Prelude.{◌≡◌, ◌<◌, ℕ, List, map, filter, length, IfOk};
ghost use Rattle.std.specs.FinMap.{values};
ghost use Rattle.wh_history.specs.Accepted.{Accepted, members, durable_key, member_of, changes_of};
ghost use Rattle.wh_history.specs.Laws.{RecordsHaveDays};
ghost use Rattle.wh_history.specs.Plan.{row_of};
ghost use Rattle.wh_history.specs.Tables.{member_rows};
ghost use Rattle.wh_plan.specs.Reading.{HaveDistinctIds, HaveNoEmptyValue, command_with, given_text, change_in, last_opening, rows_with};
ghost use Rattle.wh_rows.specs.declared.table.Table.TheVariants.{Command};
ghost use Rattle.wh_rows.specs.Questions.{has_id};
ghost use Rattle.wh_rows.specs.Raw.{IsLastOf};
ghost use Rattle.wh_rows.specs.Rows as row;
ghost use Rattle.wh_sql.specs.Answers.{ReadsOnlyIn, WhenStored};
ghost use Rattle.wh_plan.specs.Reads.{Tells, WhenOfCommands};

use sqlite::Alter;
use std::alloc::{AllocError, Global};
use wh_day::{Value, Values};
use wh_history::{Change, Changes, DimRow, Member};
use wh_policy::Dim;
use wh_rows::{ChangeRow, CommandRow, tables};
use wh_store::{CommandOf, GreatestOf, MemberOf, ReadFault, RecordsOf, RowsOf, Tables};

/// The row of the command of an id, if one was accepted. `Damaged`: it is out of its type.
pub fn command_with<S: Alter>(
    tables: &mut Tables<S>,
    alloc: Global,
    id: &Value,
) -> Result<Option<CommandRow>, ReadFault>
    ensures reads { ReadsOnlyIn S.Store tables.old tables.new result }
    ensures command { WhenOfCommands S.Store tables.old tables.new (λ _ commands. HaveDistinctIds commands → IfOk result (λ row. row ≡ command_with commands id.now)) }
    // The same of any stored rows.
    ensures stored { WhenStored S.Store tables.old tables.new (λ stored. IfOk result (IsLastOf row.command (filter (has_id id.now) (stored.rows Command)))) }
{
    let mut found = tables.ask::<tables::Command, CommandOf<'_>>(alloc, &CommandOf { id })?;
    Ok(found.pop())
}

/// The text of a slot that a record gave. It is stored empty where the record gave none.
fn given_text(alloc: Global, text: &Value) -> Result<Value, AllocError>
    ensures { IfOk result (λ given. given ≡ given_text text.now) }
{
    if text.as_str().is_empty() {
        return Ok(Value::none(alloc)?);
    }
    Ok(text.copy()?)
}

/// The texts of all slots that a record gave.
pub fn given_texts(alloc: Global, texts: &[Value]) -> Result<Values, AllocError>
    ensures { IfOk result (λ given. given ≡ map given_text texts.now) }
{
    let mut given = Values::new(alloc);
    for text in texts {
        given.push(given_text(alloc, text)?)?;
    }
    Ok(given)
}

/// The change that a row gives.
fn change_in(alloc: Global, row: &ChangeRow) -> Result<Change, AllocError>
    ensures { IfOk result (λ change. change ≡ change_in row.now) }
{
    Ok(Change {
        day: row.day,
        anchor: row.anchor,
        values: given_texts(alloc, row.values.as_slice())?,
    })
}

fn changes_of_rows(alloc: Global, rows: &[ChangeRow]) -> Result<Changes, AllocError>
    ensures { IfOk result (λ changes. changes ≡ map change_in rows.now) }
{
    let mut changes = Changes::new(alloc);
    for row in rows {
        changes.push(change_in(alloc, row)?)?;
    }
    Ok(changes)
}

/// All that was accepted of the member with a durable key, in order of acceptance. `Damaged`: a row of change of it is out of its type.
pub fn stored_changes<S: Alter>(
    tables: &mut Tables<S>,
    alloc: Global,
    dim: Dim,
    durable: u64,
) -> Result<Changes, ReadFault>
    ensures reads { ReadsOnlyIn S.Store tables.old tables.new result }
    ensures changes { WhenOfCommands S.Store tables.old tables.new (λ _ commands. HaveNoEmptyValue commands → (natural : List ℕ) → 0 < durable → durable ≡ durable_key dim commands natural → IfOk result (λ changes. changes ≡ changes_of dim commands natural)) }
{
    let rows = tables.ask::<tables::Change, RecordsOf>(alloc, &RecordsOf { dim, durable })?;
    Ok(changes_of_rows(alloc, &rows)?)
}

/// The stored member; if there is none, one with zeros and no changes. `Damaged`: its row of member, or one of its rows of change, is out of its
/// type.
pub fn stored_member<S: Alter>(
    tables: &mut Tables<S>,
    alloc: Global,
    dim: Dim,
    natural: &Value,
) -> Result<Member, ReadFault>
    ensures reads { ReadsOnlyIn S.Store tables.old tables.new result }
    ensures member { WhenOfCommands S.Store tables.old tables.new (λ _ commands. HaveNoEmptyValue commands → IfOk result (λ member. member ≡ member_of dim commands natural.now)) }
{
    let mut found = tables.ask::<tables::Member, MemberOf<'_>>(alloc, &MemberOf { dim, natural })?;
    match found.pop() {
        Some(row) => Ok(Member {
            durable: row.durable,
            natural: row.natural,
            opening: row.opening,
            changes: stored_changes(tables, alloc, dim, row.durable)?,
        }),
        None => Ok(Member::absent(alloc, natural)?),
    }
}

/// The rows of a dimension's table that have a durable key. `Damaged`: one of them is out of its type.
pub fn stored_rows<S: Alter>(
    tables: &mut Tables<S>,
    alloc: Global,
    dim: Dim,
    durable: u64,
) -> Result<Vec<DimRow>, ReadFault>
    ensures reads { ReadsOnlyIn S.Store tables.old tables.new result }
    ensures rows { WhenOfCommands S.Store tables.old tables.new (λ _ commands. IfOk result (λ rows. rows.items ≡ rows_with dim commands durable)) }
    // Those with a member's durable key are the member's.
    ensures member { WhenOfCommands S.Store tables.old tables.new (λ _ commands. RecordsHaveDays commands → (natural : List ℕ) → 0 < durable → durable ≡ durable_key dim commands natural → IfOk result (λ rows. (key : ℕ) → row_of key rows.items ≡ row_of key (member_rows commands dim natural))) }
{
    let question = RowsOf { durable };
    match dim {
        Dim::Product => tables.ask::<tables::Product, RowsOf>(alloc, &question),
        Dim::Store => tables.ask::<tables::Store, RowsOf>(alloc, &question),
        Dim::Customer => tables.ask::<tables::Customer, RowsOf>(alloc, &question),
    }
}

/// The last member of a dimension, which has the greatest durable key. All is 0 where there is no member.
#[derive(Clone, Copy, Debug, PartialEq, Eq)]
pub struct LastMember {
    /// How many members have durable keys.
    pub durable: u64,
    /// The surrogate key of its opening.
    pub opening: u64,
}

/// The numbers of the last member of a dimension. `Damaged`: its row is out of its type.
pub fn last_member<S: Alter>(
    tables: &mut Tables<S>,
    alloc: Global,
    dim: Dim,
) -> Result<LastMember, ReadFault>
    ensures reads { ReadsOnlyIn S.Store tables.old tables.new result }
    ensures last { WhenOfCommands S.Store tables.old tables.new (λ _ commands. IfOk result (λ last. last ≡ record { durable = length (members dim commands); opening = last_opening dim commands })) }
{
    let mut found = tables.ask::<tables::Member, GreatestOf>(alloc, &GreatestOf { dim })?;
    match found.pop() {
        Some(row) => Ok(LastMember {
            durable: row.durable,
            opening: row.opening,
        }),
        None => Ok(LastMember {
            durable: 0,
            opening: 0,
        }),
    }
}
