//! The profiles that no record says.

ghost use Rattle.std.specs.Prelude.{◌≡◌, IfOk};
ghost use Rattle.wh_plan.specs.FirstRows.{in_profile, profile_of, first_profiles};

use std::alloc::{AllocError, Global};
use wh_day::{Value, Values};
use wh_history::fill_columns;
use wh_policy::AttributeType;
use wh_rows::ProfileRow;

/// A text in each slot of the profile.
fn in_profile(alloc: Global, types: &[AttributeType], text: &Value) -> Result<Values, AllocError>
    ensures { IfOk result (λ texts. texts ≡ in_profile text.now types.now) }
{
    let mut texts = Values::new(alloc);
    for kind in types {
        if kind.is_profile() {
            texts.push(text.copy()?)?;
        } else {
            texts.push(Value::empty(alloc))?;
        }
    }
    Ok(texts)
}

/// The profile with this number that shows one text.
fn profile_of(
    alloc: Global,
    types: &[AttributeType],
    number: u64,
    text: &Value,
) -> Result<ProfileRow, AllocError>
    ensures { IfOk result (λ row. row ≡ profile_of number text.now types.now) }
{
    let mut values = in_profile(alloc, types, text)?;
    fill_columns(alloc, &mut values)?;
    Ok(ProfileRow { number, values })
}

/// The profiles that no record says: for sales without a card, and for customers that no record describes.
pub fn first_profiles(alloc: Global, types: &[AttributeType]) -> Result<Vec<ProfileRow>, AllocError>
    ensures { IfOk result (λ rows. rows.items ≡ first_profiles types.now) }
{
    let no_card = Value::no_card(alloc)?;
    let unknown = Value::unknown(alloc)?;
    let mut rows = Vec::new(alloc);
    rows.push(profile_of(alloc, types, 0, &no_card)?)?;
    rows.push(profile_of(alloc, types, 1, &unknown)?)?;
    Ok(rows)
}
