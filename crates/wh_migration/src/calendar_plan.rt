//! What a migration changes of the calendar.

ghost use Rattle.std.specs.Prelude.{◌≡◌, true, IfOk};
ghost use Rattle.wh_policy.specs.Names.{fits};
ghost use Rattle.wh_rows.specs.Rows as row;
ghost use Rattle.wh_model.specs.Defined.{day_at};
ghost use Rattle.wh_plan.specs.Edits.{IsTablePlan};
ghost use Rattle.wh_migration.specs.Migration.{edit_on};

use std::alloc::{AllocError, Global};
use wh_day::{DateRow, Day, date_row};
use wh_history::{Edit, edit_between};
use wh_policy::Policy;

/// The row of a day in the calendar of a policy, if it lies in its years.
fn day_at(alloc: Global, policy: &Policy, day: Day) -> Result<Option<DateRow>, AllocError>
    ensures { IfOk result (λ row. row ≡ day_at policy.now day) }
{
    if policy.years.contains(day) {
        Ok(Some(date_row(alloc, day, &policy.holidays)?))
    } else {
        Ok(None)
    }
}

/// The edit of the day of a number, where one policy takes the place of another.
fn edit_on(
    alloc: Global,
    older: &Policy,
    newer: &Policy,
    number: u32,
) -> Result<Option<Edit<DateRow, Day>>, AllocError>
    ensures { IfOk result (λ edit. edit ≡ edit_on older.now newer.now number) }
{
    match Day::from_key(number as i64) {
        Some(day) => {
            let old = day_at(alloc, older, day)?;
            let new = day_at(alloc, newer, day)?;
            let edit = edit_between(alloc, day, old.as_ref(), new.as_ref())?;
            Ok(edit)
        }
        None => Ok(None),
    }
}

/// The edits of the calendar where one policy takes the place of another that it fits: each day whose row differs, in order.
pub(crate) fn calendar_edits(
    alloc: Global,
    older: &Policy,
    newer: &Policy,
) -> Result<Vec<Edit<DateRow, Day>>, AllocError>
    ensures { fits older.now newer.now ≡ true → IfOk result (λ edits. IsTablePlan row.calendar (day_at older.now) (day_at newer.now) edits.items) }
{
    let keys = newer.years.keys();
    let mut edits = Vec::new(alloc);
    for number in keys.start..keys.end {
        if let Some(edit) = edit_on(alloc, older, newer, number)? {
            edits.push(edit)?;
        }
    }
    Ok(edits)
}
