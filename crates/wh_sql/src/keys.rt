//! Keys as the parameters of statements.

ghost use Rattle.std.specs.Prelude.{◌≡◌, ◌≢◌, ◌⊎◌, [], ◌∷◌, false, pos, IfOk, IfErr};
ghost use Rattle.sqlite_value.specs.declared.value.Value.TheVariants.{Int, Text};
ghost use Rattle.sqlite.specs.Values.{bound};
ghost use Rattle.wh_rows.specs.declared.cause.Cause.TheVariants.{Memory, Size};
ghost use Rattle.wh_rows.specs.Types.{is_number, dim_number};
ghost use Rattle.wh_rows.specs.Rekey.{bind_rekey, are_keys};

use sqlite::types::ValueRef;
use std::alloc::Global;
use wh_day::{Day, Value};
use wh_history::FactKeys;
use wh_policy::Dim;
use wh_rows::{Cause, ChangeKey, LineKey, bound};

/// A key that is a number.
pub(crate) fn number_key(alloc: Global, key: &u64) -> Result<Vec<ValueRef<'static>>, Cause>
    ensures ok { IfOk result (λ values. bound values.items ≡ Int (pos key.now) ∷ []) }
    ensures err { IfErr result (λ cause. cause ≢ Memory → (cause ≡ Size) × (is_number key.now ≡ false)) }
{
    let number = bound::number(*key)?;
    let values = Vec::from_array(alloc, [number])?;
    Ok(values)
}

/// A key that is a text.
pub(crate) fn text_key<'a>(alloc: Global, key: &'a Value) -> Result<Vec<ValueRef<'a>>, Cause>
    ensures ok { IfOk result (λ values. bound values.items ≡ Text key.now ∷ []) }
    ensures err { IfErr result (λ cause. cause ≡ Memory) }
{
    let values = Vec::from_array(alloc, [bound::text(key)])?;
    Ok(values)
}

/// A key that is a day.
pub(crate) fn day_key(alloc: Global, key: &Day) -> Result<Vec<ValueRef<'static>>, Cause>
    ensures ok { IfOk result (λ values. bound values.items ≡ Int (pos key.now) ∷ []) }
    ensures err { IfErr result (λ cause. cause ≡ Memory) }
{
    let values = Vec::from_array(alloc, [bound::day(*key)])?;
    Ok(values)
}

/// A dimension and a number.
pub(crate) fn dim_and_number(
    alloc: Global,
    dim: Dim,
    number: u64,
) -> Result<Vec<ValueRef<'static>>, Cause>
    ensures ok { IfOk result (λ values. bound values.items ≡ Int (pos (dim_number dim)) ∷ Int (pos number) ∷ []) }
    ensures err { IfErr result (λ cause. cause ≢ Memory → (cause ≡ Size) × (is_number number ≡ false)) }
{
    let number = bound::number(number)?;
    let values = Vec::from_array(alloc, [bound::dim(dim), number])?;
    Ok(values)
}

/// A dimension and a text.
pub(crate) fn dim_and_text<'a>(
    alloc: Global,
    dim: Dim,
    text: &'a Value,
) -> Result<Vec<ValueRef<'a>>, Cause>
    ensures ok { IfOk result (λ values. bound values.items ≡ Int (pos (dim_number dim)) ∷ Text text.now ∷ []) }
    ensures err { IfErr result (λ cause. cause ≡ Memory) }
{
    let values = Vec::from_array(alloc, [bound::dim(dim), bound::text(text)])?;
    Ok(values)
}

/// A dimension alone: the first column of the keys of its members.
pub(crate) fn dim_key(alloc: Global, dim: Dim) -> Result<Vec<ValueRef<'static>>, Cause>
    ensures ok { IfOk result (λ values. bound values.items ≡ Int (pos (dim_number dim)) ∷ []) }
    ensures err { IfErr result (λ cause. cause ≡ Memory) }
{
    let values = Vec::from_array(alloc, [bound::dim(dim)])?;
    Ok(values)
}

/// The key of change.
pub(crate) fn change_key(alloc: Global, key: &ChangeKey) -> Result<Vec<ValueRef<'static>>, Cause>
    ensures ok { IfOk result (λ values. bound values.items ≡ Int (pos key.now.command) ∷ Int (pos key.now.place) ∷ []) }
    ensures err { IfErr result (λ cause. cause ≢ Memory → (cause ≡ Size) × ((is_number key.now.command ≡ false) ⊎ (is_number key.now.place ≡ false))) }
{
    let command = bound::number(key.command)?;
    let place = bound::number(key.place)?;
    let values = Vec::from_array(alloc, [command, place])?;
    Ok(values)
}

/// The key of fact.
pub(crate) fn line_key<'a>(alloc: Global, key: &'a LineKey) -> Result<Vec<ValueRef<'a>>, Cause>
    ensures ok { IfOk result (λ values. bound values.items ≡ Text key.now.ticket ∷ Int (pos key.now.line) ∷ []) }
    ensures err { IfErr result (λ cause. cause ≡ Memory) }
{
    let line = ValueRef::Int(key.line as i64);
    let values = Vec::from_array(alloc, [bound::text(&key.ticket), line])?;
    Ok(values)
}

/// The key of fact, and keys for that fact.
pub(crate) fn bind_rekey<'a>(
    alloc: Global,
    line: &'a LineKey,
    keys: &FactKeys,
) -> Result<Vec<ValueRef<'a>>, Cause>
    ensures ok { IfOk result (λ values. bound values.items ≡ bind_rekey (line.now, keys.now)) }
    ensures err { IfErr result (λ cause. cause ≢ Memory → (cause ≡ Size) × (are_keys keys.now ≡ false)) }
{
    let number = ValueRef::Int(line.line as i64);
    let store_key = bound::number(keys.store_key)?;
    let product_key = bound::number(keys.product_key)?;
    let customer_key = bound::number(keys.customer_key)?;
    let profile = bound::number(keys.profile)?;
    let values = Vec::from_array(
        alloc,
        [
            bound::text(&line.ticket),
            number,
            store_key,
            product_key,
            customer_key,
            profile,
        ],
    )?;
    Ok(values)
}
