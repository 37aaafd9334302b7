//! The six slots of a dimension's attributes.

ghost use Rattle.std.specs.Prelude.{◌≡◌, IfOk, OnOk};
ghost use Rattle.wh_day.specs.Value.{none_text};
ghost use Rattle.wh_history.specs.Slots.{padded, six};

use std::alloc::{AllocError, Global};
use wh_day::{Value, Values};

const SLOTS: usize = 6;

/// Fills values up to the six slots with a text.
#[tactic(auto, using(crate::proofs::Columns::padded_more))]
fn pad(values: &mut Values, text: &Value) -> Result<(), AllocError>
    ensures { OnOk result (values.new ≡ padded text.now values.old) }
{
    'slots: while values.as_slice().len() < SLOTS {
        values.push(text.copy()?)?;
    }
    Ok(())
}

/// Fills texts up to the six columns of a table with empty ones. After an `Err` some may have been added.
pub fn fill_columns(alloc: Global, texts: &mut Values) -> Result<(), AllocError>
    ensures { OnOk result (texts.new ≡ six texts.old) }
{
    pad(texts, &Value::empty(alloc))
}

/// The texts of six columns, empty where the policy has no attribute.
pub fn six_texts(alloc: Global, values: &Values) -> Result<Values, AllocError>
    ensures { IfOk result (λ texts. texts ≡ six values.now) }
{
    let mut texts = values.copy(alloc)?;
    fill_columns(alloc, &mut texts)?;
    Ok(texts)
}

/// A record's values, with the text for none in the slots that it has not.
pub(crate) fn padded(alloc: Global, values: &Values) -> Result<Values, AllocError>
    ensures { IfOk result (λ all. all ≡ padded none_text values.now) }
{
    let mut all = values.copy(alloc)?;
    pad(&mut all, &Value::none(alloc)?)?;
    Ok(all)
}
