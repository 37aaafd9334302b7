//! What a migration changes of the profiles: they are numbered anew over all accepted records of customers, under the types
//! that it brings.

ghost use Rattle.std.specs.Prelude.{◌≡◌, ◌++◌, ◌∷◌, [], true, IfOk, OnOk, flat_map};
ghost use Rattle.std.specs.FinMap.{values};
ghost use Rattle.wh_policy.specs.declared.attribute.Dim.TheVariants.{Customer};
ghost use Rattle.wh_history.specs.Accepted.{Accepted, described};
ghost use Rattle.wh_history.specs.Known.{all_numbered};
ghost use Rattle.wh_history.specs.Laws.{governs};
ghost use Rattle.wh_history.specs.Profiles.{combinations_of};
ghost use Rattle.wh_sql.specs.Answers.{state_of, ReadsOnlyIn};
ghost use Rattle.wh_migration.specs.Migration.{stored_by, profiles_shown, edits_of_profiles, IsRenumbered};
ghost use Rattle.wh_plan.specs.Profiles.{with_combinations};
ghost use Rattle.wh_plan.specs.Reading.{HaveNoEmptyValue};
ghost use Rattle.wh_plan.specs.Reads.{Tells, WhenOfCommands};
ghost use Rattle.wh_model.specs.Sound.{AreTypes, IsAccepted};

use sqlite::Alter;
use std::alloc::{AllocError, Global};
use wh_day::Values;
use wh_history::{Edit, Profiles, edit_between, profile_texts};
use wh_plan::first_profiles::first_profiles;
use wh_plan::profiles::{FIRST, add_combination, add_fresh};
use wh_plan::reading::given_texts;
use wh_policy::{AttributeType, Dim, Format};
use wh_rows::{Cause, ChangeRow, ProfileRow, tables};
use wh_store::{Cursor, ReadFault, Tables, next_row};

/// The profiles under a new policy.
#[derive(Drop)]
pub(crate) struct RenumberedProfiles {
    /// The numbers of all combinations.
    pub(crate) known: Profiles,
    /// The edits of their table.
    pub(crate) edits: Vec<Edit<ProfileRow, u64>>,
}

/// Adds the combination of a stored record, if it is one of a customer.
fn add_stored(
    alloc: Global,
    types: &[AttributeType],
    found: &mut Vec<Values>,
    row: &ChangeRow,
) -> Result<(), AllocError>
    ensures { OnOk result (found.new.items ≡ with_combinations found.old.items (stored_by types.now row.now)) }
{
    match row.dim {
        Dim::Product | Dim::Store => Ok(()),
        Dim::Customer => {
            let values = given_texts(alloc, row.values.as_slice())?;
            add_combination(found, profile_texts(alloc, types, values.as_slice())?)
        }
    }
}

/// The combinations of the stored records of customers, each once. The records are read a part at a time. `Size`: they are more
/// than can be counted.
fn combinations_stored<S: Alter>(
    tables: &mut Tables<S>,
    alloc: Global,
    format: Format,
    types: &[AttributeType],
) -> Result<Vec<Values>, ReadFault>
    ensures reads { ReadsOnlyIn S.Store tables.old tables.new result }
    ensures stored { Tells (state_of S.Store tables.old) (state_of S.Store tables.new) result (λ t found. found.items ≡ with_combinations [] (flat_map (stored_by types.now) (values t.change))) }
{
    let mut cursor = Cursor::new(alloc);
    let mut found = Vec::new(alloc);
    'records: for _ in 0..u64::MAX {
        match next_row::<tables::Change, S>(tables, alloc, format, &mut cursor)? {
            Some(row) => add_stored(alloc, types, &mut found, &row)?,
            None => return Ok(found),
        }
    }
    Err(ReadFault::Store(Cause::Size))
}

/// The combinations of all records of customers that were accepted, in order of acceptance, each once.
fn customer_combinations<S: Alter>(
    tables: &mut Tables<S>,
    alloc: Global,
    format: Format,
    types: &[AttributeType],
) -> Result<Vec<Values>, ReadFault>
    ensures reads { ReadsOnlyIn S.Store tables.old tables.new result }
    ensures combinations { WhenOfCommands S.Store tables.old tables.new (λ _ commands. HaveNoEmptyValue commands → IfOk result (λ found. found.items ≡ combinations_of types.now (described Customer commands))) }
{
    let combinations = combinations_stored(tables, alloc, format, types)?;
    Ok(combinations)
}

/// The rows of the profiles: those that no record says, and the combinations, which get their numbers.
fn profiles_shown(
    alloc: Global,
    types: &[AttributeType],
    known: &mut Profiles,
    combinations: &[Values],
) -> Result<Vec<ProfileRow>, AllocError>
    ensures { IfOk result (λ rows. (rows.items ≡ profiles_shown types.now combinations.now) × (known.new ≡ known.old ++ all_numbered combinations.now)) }
{
    let mut rows = first_profiles(alloc, types)?;
    let mut fresh = add_fresh(alloc, known, FIRST, combinations)?;
    rows.append(&mut fresh)?;
    Ok(rows)
}

/// The edits that lead from some rows to others, where each row's number is its place.
fn edits_of_profiles(
    alloc: Global,
    stored: &[ProfileRow],
    rows: &[ProfileRow],
) -> Result<Vec<Edit<ProfileRow, u64>>, AllocError>
    ensures { IfOk result (λ edits. edits.items ≡ edits_of_profiles stored.now rows.now) }
{
    let end = stored.len().max(rows.len());
    let mut edits = Vec::new(alloc);
    for place in 0..end {
        if let Some(edit) = edit_between(alloc, place as u64, stored.get(place), rows.get(place))? {
            edits.push(edit)?;
        }
    }
    Ok(edits)
}

/// The profiles under the types of a policy that comes into force.
pub(crate) fn renumbered_profiles<S: Alter>(
    tables: &mut Tables<S>,
    alloc: Global,
    format: Format,
    types: &[AttributeType],
) -> Result<RenumberedProfiles, ReadFault>
    ensures reads { ReadsOnlyIn S.Store tables.old tables.new result }
    ensures renumbered { WhenOfCommands S.Store tables.old tables.new (λ limits commands. (c : Accepted) → IsAccepted limits (commands ++ c ∷ []) → governs c.content ≡ true → AreTypes (commands ++ c ∷ []) Customer types.now → IfOk result (IsRenumbered commands (commands ++ c ∷ []))) }
{
    let combinations = customer_combinations(tables, alloc, format, types)?;
    let mut known = Profiles::new(alloc);
    let rows = profiles_shown(alloc, types, &mut known, &combinations)?;
    let stored = tables.all::<tables::Profile>(alloc)?;
    let edits = edits_of_profiles(alloc, &stored, &rows)?;
    Ok(RenumberedProfiles { known, edits })
}
