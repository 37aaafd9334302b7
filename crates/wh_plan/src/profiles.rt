//! What a batch has to know of profiles: the numbers of the combinations of its customers' changes, each looked up once, and
//! the combinations that it is the first to bring.

ghost use Rattle.std.specs.Prelude.{◌≡◌, ◌≤◌, ◌++◌, ◌∷◌, [], ℕ, suc, nat_le, length, map, find, option_map, IfOk, OnOk};
ghost use Rattle.std.specs.List.{list_any, AllByRecursion};
ghost use Rattle.std.specs.Option.{option_to_list};
ghost use Rattle.wh_policy.specs.declared.attribute.Dim.TheVariants.{Customer};
ghost use Rattle.wh_history.specs.Accepted.{Accepted, Describes, profiles_of};
ghost use Rattle.wh_history.specs.Keys.{greatest_number};
ghost use Rattle.wh_history.specs.Known.{number_in, numbered_from, KnowsEnough};
ghost use Rattle.wh_history.specs.Slots.{are_same};
ghost use Rattle.wh_plan.specs.Profiles.{with_combination, with_combinations, told_of, said_of, said_by, number_kept, learned, is_none, unknown, row_of_profile, IsLearned};
ghost use Rattle.wh_sql.specs.Answers.{state_of, ReadsOnlyIn};
ghost use Rattle.wh_plan.specs.Reads.{Tells, WhenOfCommands};
ghost use Rattle.wh_model.specs.Sound.{AreTypes, IsAccepted};

use crate::records::batch::Batch;
use sqlite::Alter;
use std::alloc::{AllocError, Global};
use wh_day::Values;
use wh_history::{Change, GREATEST_NUMBER, Member, Profiles, profile_texts, six_texts};
use wh_policy::{AttributeType, Dim, DimensionRecord};
use wh_rows::{ProfileRow, tables};
use wh_store::{Greatest, ProfileOf, ReadFault, Tables};

/// The number of the first combination; before it stand no card and unknown.
pub const FIRST: u64 = 2;

/// What is read of profiles for a batch of records.
#[derive(Drop)]
pub(crate) struct KnownProfiles {
    /// What is known of the combinations of the members that it touches.
    pub(crate) known: Profiles,
    /// The rows of the profiles that it is the first to show.
    pub(crate) fresh: Vec<ProfileRow>,
}

/// Whether a combination is there.
fn contains(combinations: &[Values], texts: &Values) -> bool
    ensures { result ≡ list_any (λ c. are_same c texts.now) combinations.now }
{
    combinations.iter().any(|c| c.is_same(texts))
}

/// Adds a combination, unless it is there.
pub fn add_combination(found: &mut Vec<Values>, texts: Values) -> Result<(), AllocError>
    ensures { OnOk result (found.new.items ≡ with_combination found.old.items texts) }
{
    if !contains(found.as_slice(), &texts) {
        found.push(texts)?;
    }
    Ok(())
}

/// The combinations of records, each once.
fn combinations_told(
    alloc: Global,
    types: &[AttributeType],
    records: &[DimensionRecord],
) -> Result<Vec<Values>, AllocError>
    ensures { IfOk result (λ found. found.items ≡ with_combinations [] (told_of types.now records.now)) }
{
    let mut found = Vec::new(alloc);
    for incoming in records {
        add_combination(
            &mut found,
            profile_texts(alloc, types, incoming.values.as_slice())?,
        )?;
    }
    Ok(found)
}

/// Adds the combinations of changes.
fn add_said(
    alloc: Global,
    types: &[AttributeType],
    found: &mut Vec<Values>,
    changes: &[Change],
) -> Result<(), AllocError>
    ensures { OnOk result (found.new.items ≡ with_combinations found.old.items (said_of types.now changes.now)) }
{
    for change in changes {
        add_combination(
            found,
            profile_texts(alloc, types, change.values.as_slice())?,
        )?;
    }
    Ok(())
}

/// Adds the combinations of the changes of members.
fn add_said_by(
    alloc: Global,
    types: &[AttributeType],
    found: &mut Vec<Values>,
    members: &[Member],
) -> Result<(), AllocError>
    ensures { OnOk result (found.new.items ≡ with_combinations found.old.items (said_by types.now members.now)) }
{
    for member in members {
        add_said(alloc, types, found, member.changes.as_slice())?;
    }
    Ok(())
}

/// The number of the one among rows of the same values that is not of no card or unknown.
fn number_among(rows: &[ProfileRow]) -> Option<u64>
    ensures { result ≡ option_map (λ r. r.number) (find (λ r. nat_le 2 r.number) rows.now) }
{
    match rows.iter().find(|row| FIRST <= row.number) {
        Some(row) => Some(row.number),
        None => None,
    }
}

/// The number that a combination has in the table, if it is there.
fn number_kept<S: Alter>(
    tables: &mut Tables<S>,
    alloc: Global,
    texts: &Values,
) -> Result<Option<u64>, ReadFault>
    ensures reads { ReadsOnlyIn S.Store tables.old tables.new result }
    ensures number { Tells (state_of S.Store tables.old) (state_of S.Store tables.new) result (λ t number. number ≡ number_kept t.profile texts.now) }
{
    let question = ProfileOf { values: texts };
    let rows = tables.ask::<tables::Profile, ProfileOf<'_>>(alloc, &question)?;
    Ok(number_among(&rows))
}

/// Adds a combination to what is known, if it has a number.
fn add_numbered(
    alloc: Global,
    known: &mut Profiles,
    texts: &Values,
    number: Option<u64>,
) -> Result<(), AllocError>
    ensures { OnOk result (known.new ≡ known.old ++ option_to_list (option_map (λ n. record { texts = texts.now; number = n }) number)) }
{
    match number {
        Some(number) => known.add(texts.copy(alloc)?, number),
        None => Ok(()),
    }
}

/// What the table says of combinations.
fn looked_up<S: Alter>(
    tables: &mut Tables<S>,
    alloc: Global,
    combinations: &[Values],
) -> Result<Profiles, ReadFault>
    ensures reads { ReadsOnlyIn S.Store tables.old tables.new result }
    ensures known { Tells (state_of S.Store tables.old) (state_of S.Store tables.new) result (λ t known. known ≡ learned (number_kept t.profile) combinations.now) }
{
    let mut known = Profiles::new(alloc);
    for texts in combinations {
        let number = number_kept(tables, alloc, texts)?;
        add_numbered(alloc, &mut known, texts, number)?;
    }
    Ok(known)
}

fn is_unknown(known: &Profiles, texts: &Values) -> bool
    ensures { result ≡ is_none (number_in known.now texts.now) }
{
    match known.number(texts.as_slice()) {
        Some(_) => false,
        None => true,
    }
}

/// The combinations that aren't known.
fn unknown(
    alloc: Global,
    known: &Profiles,
    combinations: &[Values],
) -> Result<Vec<Values>, AllocError>
    ensures { IfOk result (λ found. found.items ≡ unknown known.now combinations.now) }
{
    let mut found = Vec::new(alloc);
    for texts in combinations {
        if is_unknown(known, texts) {
            found.push(texts.copy(alloc)?)?;
        }
    }
    Ok(found)
}

/// Gives combinations the next numbers, and makes their rows.
pub fn add_fresh(
    alloc: Global,
    known: &mut Profiles,
    next: u64,
    combinations: &[Values],
) -> Result<Vec<ProfileRow>, AllocError>
    requires few { next ≤ suc greatest_number }
    ensures { IfOk result (λ rows. (rows.items ≡ map row_of_profile (numbered_from next combinations.now)) × (known.new ≡ known.old ++ numbered_from next combinations.now)) }
{
    let mut rows = Vec::new(alloc);
    for (place, texts) in combinations.iter().enumerate() {
        let number = next + place as u64;
        known.add(texts.copy(alloc)?, number)?;
        rows.push(ProfileRow {
            number,
            values: six_texts(alloc, texts)?,
        })?;
    }
    Ok(rows)
}

/// The greatest number of a profile.
fn profiles_given<S: Alter>(tables: &mut Tables<S>, alloc: Global) -> Result<u64, ReadFault>
    ensures reads { ReadsOnlyIn S.Store tables.old tables.new result }
    ensures given { WhenOfCommands S.Store tables.old tables.new (λ _ commands. suc (length (profiles_of commands)) ≤ greatest_number → IfOk result (λ given. given ≡ suc (length (profiles_of commands)))) }
    ensures few { IfOk result (λ given. given ≤ greatest_number) }
{
    let mut found = tables.ask::<tables::Profile, Greatest>(alloc, &Greatest)?;
    match found.pop() {
        Some(row) => Ok(row.number.min(GREATEST_NUMBER)),
        None => Ok(0),
    }
}

/// What is known of the combinations of customers that are stored.
fn known_of_customers<S: Alter>(
    tables: &mut Tables<S>,
    alloc: Global,
    types: &[AttributeType],
    members: &[Member],
) -> Result<Profiles, ReadFault>
    ensures reads { ReadsOnlyIn S.Store tables.old tables.new result }
    ensures known { Tells (state_of S.Store tables.old) (state_of S.Store tables.new) result (λ t known. known ≡ learned (number_kept t.profile) (with_combinations [] (said_by types.now members.now))) }
{
    let mut combinations = Vec::new(alloc);
    add_said_by(alloc, types, &mut combinations, members)?;
    looked_up(tables, alloc, &combinations)
}

/// What is known of profiles for members that are stored. Only customers have profiles.
pub(crate) fn known_of<S: Alter>(
    tables: &mut Tables<S>,
    alloc: Global,
    dim: Dim,
    types: &[AttributeType],
    members: &[Member],
) -> Result<Profiles, ReadFault>
    ensures reads { ReadsOnlyIn S.Store tables.old tables.new result }
    ensures enough { WhenOfCommands S.Store tables.old tables.new (λ _ commands. AreTypes commands dim types.now → IfOk result (λ known. AllByRecursion (KnowsEnough dim types.now (number_in known) (profiles_of commands)) members.now)) }
{
    match dim {
        Dim::Customer => known_of_customers(tables, alloc, types, members),
        _ => Ok(Profiles::new(alloc)),
    }
}

/// The combinations of records and of members, each once.
fn combinations_touched(
    alloc: Global,
    types: &[AttributeType],
    records: &[DimensionRecord],
    members: &[Member],
) -> Result<Vec<Values>, AllocError>
    ensures { IfOk result (λ found. found.items ≡ with_combinations (with_combinations [] (told_of types.now records.now)) (said_by types.now members.now)) }
{
    let mut found = combinations_told(alloc, types, records)?;
    add_said_by(alloc, types, &mut found, members)?;
    Ok(found)
}

/// What is read of profiles for records of customers.
fn learned_of_customers<S: Alter>(
    tables: &mut Tables<S>,
    alloc: Global,
    batch: &Batch,
    touched: &[Member],
) -> Result<KnownProfiles, ReadFault>
    ensures reads { ReadsOnlyIn S.Store tables.old tables.new result }
    ensures learned { WhenOfCommands S.Store tables.old tables.new (λ limits commands. (c : Accepted) → IsAccepted limits (commands ++ c ∷ []) → c.content ≡ Describes Customer batch.now.records.now → AreTypes commands Customer batch.now.types.now → IfOk result (IsLearned Customer batch.now.types.now commands (commands ++ c ∷ []) touched.now)) }
{
    let brought = combinations_told(alloc, batch.types, batch.records)?;
    let all = combinations_touched(alloc, batch.types, batch.records, touched)?;
    let mut known = looked_up(tables, alloc, &all)?;
    let given = profiles_given(tables, alloc)?;
    let combinations = unknown(alloc, &known, &brought)?;
    let fresh = add_fresh(alloc, &mut known, given + 1, &combinations)?;
    Ok(KnownProfiles { known, fresh })
}

/// What is read of profiles for a batch of records. Only customers have profiles.
pub(crate) fn learned_of<S: Alter>(
    tables: &mut Tables<S>,
    alloc: Global,
    batch: &Batch,
    touched: &[Member],
) -> Result<KnownProfiles, ReadFault>
    ensures reads { ReadsOnlyIn S.Store tables.old tables.new result }
    ensures learned { WhenOfCommands S.Store tables.old tables.new (λ limits commands. (c : Accepted) → IsAccepted limits (commands ++ c ∷ []) → c.content ≡ Describes batch.now.dim batch.now.records.now → AreTypes commands batch.now.dim batch.now.types.now → IfOk result (IsLearned batch.now.dim batch.now.types.now commands (commands ++ c ∷ []) touched.now)) }
{
    match batch.dim {
        Dim::Customer => learned_of_customers(tables, alloc, batch, touched),
        _ => Ok(KnownProfiles {
            known: Profiles::new(alloc),
            fresh: Vec::new(alloc),
        }),
    }
}
