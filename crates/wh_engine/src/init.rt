//! What the making of a warehouse writes, inside a transaction.

ghost use Rattle.std.specs.Prelude.{◌≡◌, None, Some, [], ◌∷◌, IfOk, OnOk};
ghost use Rattle.sqlite.specs.State.{HasCleanDisk};
ghost use Rattle.wh_rows.specs.AtRest.{IsWriting, Leaves};
ghost use Rattle.wh_rows.specs.Tables.{Tables as TypedTables};
ghost use Rattle.wh_sql.specs.Answers.{state_of};
ghost use Rattle.wh_engine.specs.Scanned.{WasClean};
ghost use Rattle.wh_engine.specs.Writing.{WritesIn, MakesIn};
ghost use Rattle.wh_model.specs.Defined.{AreOf};
ghost use Rattle.wh_plan.specs.FirstRows.{IsGoodPolicy, making_row, calendar_rows, with_first_rows, MayBeFirst};
ghost use Rattle.wh_model.specs.Sound.{init_of};

use sqlite::Alter;
use sqlite::types::Bytes;
use std::alloc::{AllocError, Global};
use wh_day::{DateRow, Day, Value, date_row};
use wh_history::{DimRow, no_card_row};
use wh_plan::first_profiles::first_profiles;
use wh_policy::{Dim, Policy};
use wh_rows::{Cause, CommandRow, Limits, ProfileRow, tables};
use wh_store::Writing;

/// The row of the making among the commands.
fn making_row(alloc: Global, bytes: &[u8]) -> Result<CommandRow, AllocError>
    ensures { IfOk result (λ row. row ≡ making_row bytes.now) }
{
    Ok(CommandRow {
        number: 1,
        id: Value::new(alloc, "init")?,
        kind: Value::new(alloc, "init")?,
        bytes: Bytes::from_slice(alloc, bytes)?,
        records: 0,
        placeholders: 0,
    })
}

/// The calendar's rows: one for each day of the policy's years, in their order.
fn calendar_rows(alloc: Global, policy: &Policy) -> Result<Vec<DateRow>, AllocError>
    ensures { IfOk result (λ rows. rows.items ≡ calendar_rows policy.now) }
{
    let keys = policy.years.keys();
    let mut rows = Vec::new(alloc);
    for number in keys.start..keys.end {
        if let Some(day) = Day::from_key(number as i64) {
            rows.push(date_row(alloc, day, &policy.holidays)?)?;
        }
    }
    Ok(rows)
}

/// Puts the rows of a making into the tables.
fn put_first<S: Alter>(
    writing: &mut Writing<'_, S>,
    alloc: Global,
    command: &CommandRow,
    customer: &DimRow,
    profiles: &[ProfileRow],
    calendar: &[DateRow],
) -> Result<(), Cause>
    ensures same_reference { writing.new.tables.ghost_name ≡ writing.old.tables.ghost_name }
    ensures writes { WritesIn S.Store writing.old writing.new (MayBeFirst command.now customer.now profiles.now calendar.now) }
    ensures put { MakesIn S.Store writing.old writing.new result (MayBeFirst command.now customer.now profiles.now calendar.now) (with_first_rows command.now customer.now profiles.now calendar.now) }
{
    writing.put::<tables::Command>(alloc, command)?;
    writing.put::<tables::Customer>(alloc, customer)?;
    writing.put_all::<tables::Profile>(alloc, profiles)?;
    writing.put_all::<tables::Calendar>(alloc, calendar)
}

/// Makes the tables of a warehouse with these limits whose one command is a making, with this policy and these bytes.
pub fn write_init<S: Alter>(
    writing: &mut Writing<'_, S>,
    alloc: Global,
    limits: Limits,
    policy: &Policy,
    bytes: &[u8],
) -> Result<(), Cause>
    ensures same_reference { writing.new.tables.ghost_name ≡ writing.old.tables.ghost_name }
    ensures clean { WasClean S.Store writing.old.tables.now writing.new.tables.now }
    ensures made { HasCleanDisk (state_of S.Store writing.new.tables.now) → IsWriting None None (state_of S.Store writing.old.tables.now) → IsGoodPolicy policy.now
        → OnOk result ((t : TypedTables) × AreOf limits (init_of policy.now bytes.now ∷ []) t × IsWriting None (Some t) (state_of S.Store writing.new.tables.now)) }
    ensures left { HasCleanDisk (state_of S.Store writing.new.tables.now) → IsWriting None None (state_of S.Store writing.old.tables.now) → IsGoodPolicy policy.now
        → Leaves None (state_of S.Store writing.new.tables.now) }
{
    let types = policy.types(alloc, Dim::Customer)?;
    let command = making_row(alloc, bytes)?;
    let customer = no_card_row(alloc, &types)?;
    let profiles = first_profiles(alloc, &types)?;
    let calendar = calendar_rows(alloc, policy)?;
    writing.init(alloc, limits)?;
    put_first(writing, alloc, &command, &customer, &profiles, &calendar)
}
