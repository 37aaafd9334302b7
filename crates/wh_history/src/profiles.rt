//! The profile mini-dimension: combinations of the values of types 4 and 5, and their numbers.

ghost use Rattle.std.specs.Prelude.{◌≡◌, ◌++◌, ◌∷◌, [], ℕ, List, IfOk, OnOk, OnErr, find, if◌then◌else◌, unwrap_or};
ghost use Rattle.std.specs.List.{list_any};
ghost use Rattle.std.specs.Option.{option_copied};
ghost use Rattle.wh_policy.specs.Types.{is_profile, is_outrigger};
ghost use Rattle.wh_history.specs.Slots.{picks, are_same};
ghost use Rattle.wh_history.specs.Profiles.{current_by};
ghost use Rattle.wh_history.specs.Known.{number_in, all_numbered};

use crate::dated::slot_text;
use crate::member::Change;
use std::alloc::{AllocError, Global};
use std::marker::Model;
use wh_day::{Value, Values, are_same};
use wh_policy::AttributeType;

/// A combination of profile values with its number.
#[derive(Debug, Drop)]
pub struct NumberedProfile {
    /// The values, each in its slot.
    pub texts: Values,
    /// The number of its row in the table profile.
    pub number: u64,
}

/// What is known of combinations of profile values: some, with their numbers. Combinations begin with 2: profile 0 is for sales
/// without a card, and 1 for customers without a record.
///
/// Kimball & Ross, *The Data Warehouse Toolkit*, 3rd edition, chapter 5, "Type 4: Add Mini-Dimension" and "Type 5: Mini-Dimension and
/// Type 1 Outrigger".
#[derive(Debug, Drop)]
pub struct Profiles {
    known: Vec<NumberedProfile>,
}

impl Model for Profiles {
    ghost use Rattle.std.specs.Prelude.{List};
    ghost use Rattle.wh_history.specs.declared.profiles.NumberedProfile.{NumberedProfile};

    ghost Value = { List NumberedProfile };

    ghost view = { λ a. a.known.items };
}

/// A combination with its number, if it is known.
fn known_as<'a>(known: &'a [NumberedProfile], texts: &[Value]) -> Option<&'a NumberedProfile>
    ensures { option_copied result ≡ find (λ k. are_same k.texts texts.now) known.now }
{
    known.iter().find(|k| are_same(k.texts.as_slice(), texts))
}

/// The number that is known of a combination.
fn number_in(known: &[NumberedProfile], texts: &[Value]) -> Option<u64>
    ensures { result ≡ number_in known.now texts.now }
{
    match known_as(known, texts) {
        Some(numbered) => Some(numbered.number),
        None => None,
    }
}

impl Profiles {
    /// Nothing is known yet.
    pub fn new(alloc: Global) -> Profiles
        ensures { result ≡ [] }
    {
        Profiles {
            known: Vec::new(alloc),
        }
    }

    /// The number of a combination, if it is known.
    pub fn number(&self, texts: &[Value]) -> Option<u64>
        ensures { result ≡ number_in self.now texts.now }
    {
        number_in(self.known.as_slice(), texts)
    }

    /// Adds a combination with its number. After an `Err` all is as before.
    pub fn add(&mut self, texts: Values, number: u64) -> Result<(), AllocError>
        ensures ok { OnOk result (self.new ≡ self.old ++ record { texts = texts; number = number } ∷ []) }
        ensures err { OnErr result (self.new ≡ self.old) }
    {
        self.known.push(NumberedProfile { texts, number })?;
        Ok(())
    }

    /// Where all combinations so far are known, adds one with the next number, unless it is there. The first has 2.
    pub fn add_next(&mut self, texts: Values) -> Result<(), AllocError>
        ensures ok { OnOk result ((combinations : List (List (List ℕ))) → self.old ≡ all_numbered combinations
            → self.new ≡ all_numbered (if list_any (λ c. are_same c texts) combinations then combinations else combinations ++ texts ∷ [])) }
        ensures err { OnErr result (self.new ≡ self.old) }
    {
        match self.number(texts.as_slice()) {
            Some(_) => Ok(()),
            None => {
                let number = self.known.len() as u64 + 2;
                self.add(texts, number)
            }
        }
    }
}

/// The values in the slots of types 4 and 5, and no text in another slot's place.
pub fn profile_texts(
    alloc: Global,
    types: &[AttributeType],
    values: &[Value],
) -> Result<Values, AllocError>
    ensures { IfOk result (λ v. v ≡ picks is_profile types.now values.now) }
{
    let mut texts = Values::new(alloc);
    for (place, kind) in types.iter().enumerate() {
        if kind.is_profile() {
            texts.push(slot_text(alloc, values, place)?)?;
        } else {
            texts.push(Value::empty(alloc))?;
        }
    }
    Ok(texts)
}

/// The number of the combination among a record's values, and 0 where it has none.
fn known_number(
    alloc: Global,
    types: &[AttributeType],
    profiles: &Profiles,
    values: &[Value],
) -> Result<u64, AllocError>
    ensures { IfOk result (λ n. n ≡ unwrap_or (number_in profiles.now (picks is_profile types.now values.now)) 0) }
{
    let texts = profile_texts(alloc, types, values)?;
    Ok(profiles.number(texts.as_slice()).unwrap_or(0))
}

/// Whether rows show the profile's number.
fn has_outrigger(types: &[AttributeType]) -> bool
    ensures { result ≡ list_any is_outrigger types.now }
{
    types.iter().any(|kind| kind.is_outrigger())
}

/// The number of the combination that a change says, and 1 where none says one.
pub(crate) fn current_by(
    alloc: Global,
    types: &[AttributeType],
    profiles: &Profiles,
    change: Option<&Change>,
) -> Result<u64, AllocError>
    ensures { IfOk result (λ n. n ≡ current_by types.now (number_in profiles.now) (option_copied change.entry)) }
{
    match change {
        None => Ok(1),
        Some(change) => known_number(alloc, types, profiles, change.values.as_slice()),
    }
}

/// The profile's number that a member's rows show.
pub(crate) fn newest_profile(
    alloc: Global,
    types: &[AttributeType],
    profiles: &Profiles,
    newest: Option<&Change>,
) -> Result<u64, AllocError>
    ensures { IfOk result (λ n. n ≡ (if list_any is_outrigger types.now then current_by types.now (number_in profiles.now) (option_copied newest.entry) else 0)) }
{
    if !has_outrigger(types) {
        return Ok(0);
    }
    current_by(alloc, types, profiles, newest)
}
