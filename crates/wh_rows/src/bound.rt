//! Rows as the values of their columns, to be bound to the parameters of a statement.

ghost use Rattle.std.specs.Prelude.{◌≡◌, ◌≢◌, false, pos, IfOk, IfErr};
ghost use Rattle.sqlite_value.specs.Value.{owned};
ghost use Rattle.sqlite_value.specs.declared.value.Value.TheVariants.{Int, Text};
ghost use Rattle.sqlite.specs.Values.{bound};
ghost use Rattle.wh_rows.specs.declared.cause.Cause.TheVariants.{Memory, Size};
ghost use Rattle.wh_rows.specs.Types.{is_number, dim_number, is_discount};
ghost use Rattle.wh_rows.specs.Rows.{flag, slot_column, slot_columns, encode_meta, encode_command, encode_member, encode_change, encode_dimension, encode_profile, encode_date, encode_fact, encode_fact2, encode_void, is_command, is_member, is_change, is_dimension, is_profile, has_good_columns, is_fact, is_fact2, is_void};

use crate::cause::Cause;
use crate::key::dim_number;
use crate::rows::{ChangeRow, CommandRow, MemberRow, MetaRow, ProfileRow, VoidRow};
use sqlite::types::ValueRef;
use std::alloc::Global;
use wh_day::{DateRow, Day, Value, Values};
use wh_history::{DimRow, Fact};
use wh_policy::Dim;

/// A key, a number or a count. `Size` comes only where it is above 9,999,999.
pub fn number(number: u64) -> Result<ValueRef<'static>, Cause>
    ensures ok { IfOk result (λ value. owned value ≡ Int (pos number)) }
    ensures err { IfErr result (λ cause. (cause ≡ Size) × (is_number number ≡ false)) }
{
    match i64::try_from(number) {
        Ok(number) => Ok(ValueRef::Int(number)),
        Err(_) => Err(Cause::Size),
    }
}

/// A discount, in hundredths. `Size` comes only where it is above 999,999,999.
fn discount(discount: u64) -> Result<ValueRef<'static>, Cause>
    ensures ok { IfOk result (λ value. owned value ≡ Int (pos discount)) }
    ensures err { IfErr result (λ cause. (cause ≡ Size) × (is_discount discount ≡ false)) }
{
    match i64::try_from(discount) {
        Ok(discount) => Ok(ValueRef::Int(discount)),
        Err(_) => Err(Cause::Size),
    }
}

/// A day, as the number YYYYMMDD.
pub fn day(day: Day) -> ValueRef<'static>
    ensures { owned result ≡ Int (pos day) }
{
    ValueRef::Int(day.key() as i64)
}

/// The number of a dimension, as a column: [`dim_number`].
pub fn dim(dim: Dim) -> ValueRef<'static>
    ensures { owned result ≡ Int (pos (dim_number dim)) }
{
    ValueRef::Int(dim_number(dim) as i64)
}

/// A text.
pub fn text<'a>(text: &'a Value) -> ValueRef<'a>
    ensures { owned result ≡ Text text.now }
{
    ValueRef::Text(text.as_str().as_bytes())
}

fn flag(is: bool) -> ValueRef<'static>
    ensures { owned result ≡ flag is }
{
    ValueRef::Int(if is { 1 } else { 0 })
}

/// The text of a slot, from 0.
fn slot_column<'a>(texts: &'a Values, slot: usize) -> ValueRef<'a>
    ensures { owned result ≡ slot_column texts.now slot }
{
    match texts.as_slice().get(slot) {
        Some(text) => ValueRef::Text(text.as_str().as_bytes()),
        None => ValueRef::Text(b""),
    }
}

/// The texts of the six slots; a slot that isn't there is empty. `Memory`: a growth was refused.
pub fn slot_columns<'a>(alloc: Global, texts: &'a Values) -> Result<Vec<ValueRef<'a>>, Cause>
    ensures ok { IfOk result (λ values. bound values.items ≡ slot_columns texts.now) }
    ensures err { IfErr result (λ cause. cause ≡ Memory) }
{
    let values = Vec::from_array(
        alloc,
        [
            slot_column(texts, 0),
            slot_column(texts, 1),
            slot_column(texts, 2),
            slot_column(texts, 3),
            slot_column(texts, 4),
            slot_column(texts, 5),
        ],
    )?;
    Ok(values)
}

/// A row of meta. `Memory`: a growth was refused; nothing else is an error.
pub fn encode_meta<'a>(alloc: Global, row: &'a MetaRow) -> Result<Vec<ValueRef<'a>>, Cause>
    ensures ok { IfOk result (λ values. bound values.items ≡ encode_meta row.now) }
    ensures err { IfErr result (λ cause. cause ≡ Memory) }
{
    let values = Vec::from_array(alloc, [text(&row.name), ValueRef::Int(row.value)])?;
    Ok(values)
}

/// A row of command. `Size`: its number, its records or its placeholders are above 9,999,999. `Memory`: a growth was refused.
pub fn encode_command<'a>(alloc: Global, row: &'a CommandRow) -> Result<Vec<ValueRef<'a>>, Cause>
    ensures ok { IfOk result (λ values. bound values.items ≡ encode_command row.now) }
    ensures err { IfErr result (λ cause. cause ≢ Memory → (cause ≡ Size) × (is_command row.now ≡ false)) }
{
    let key = number(row.number)?;
    let records = number(row.records)?;
    let placeholders = number(row.placeholders)?;
    let values = Vec::from_array(
        alloc,
        [
            key,
            text(&row.id),
            text(&row.kind),
            ValueRef::Blob(row.bytes.as_slice()),
            records,
            placeholders,
        ],
    )?;
    Ok(values)
}

/// A row of member. `Size`: its durable key or its opening is above 9,999,999. `Memory`: a growth was refused.
pub fn encode_member<'a>(alloc: Global, row: &'a MemberRow) -> Result<Vec<ValueRef<'a>>, Cause>
    ensures ok { IfOk result (λ values. bound values.items ≡ encode_member row.now) }
    ensures err { IfErr result (λ cause. cause ≢ Memory → (cause ≡ Size) × (is_member row.now ≡ false)) }
{
    let durable = number(row.durable)?;
    let opening = number(row.opening)?;
    let values = Vec::from_array(alloc, [dim(row.dim), durable, text(&row.natural), opening])?;
    Ok(values)
}

/// A row of change. `Size`: its command, its place, its durable key or its anchor is above 9,999,999. `Memory`: a growth was refused.
pub fn encode_change<'a>(alloc: Global, row: &'a ChangeRow) -> Result<Vec<ValueRef<'a>>, Cause>
    ensures ok { IfOk result (λ values. bound values.items ≡ encode_change row.now) }
    ensures err { IfErr result (λ cause. cause ≢ Memory → (cause ≡ Size) × (is_change row.now ≡ false)) }
{
    let command = number(row.command)?;
    let place = number(row.place)?;
    let durable = number(row.durable)?;
    let anchor = number(row.anchor)?;
    let values = Vec::from_array(
        alloc,
        [
            command,
            place,
            dim(row.dim),
            durable,
            day(row.day),
            anchor,
            slot_column(&row.values, 0),
            slot_column(&row.values, 1),
            slot_column(&row.values, 2),
            slot_column(&row.values, 3),
            slot_column(&row.values, 4),
            slot_column(&row.values, 5),
        ],
    )?;
    Ok(values)
}

/// A row of product, store or customer. `Size`: one of its keys or the number of its profile is above 9,999,999. `Memory`: a growth was
/// refused.
pub fn encode_dimension<'a>(
    alloc: Global,
    of: Dim,
    row: &'a DimRow,
) -> Result<Vec<ValueRef<'a>>, Cause>
    ensures ok { IfOk result (λ values. bound values.items ≡ encode_dimension row.now) }
    ensures err { IfErr result (λ cause. cause ≢ Memory → (cause ≡ Size) × (is_dimension of row.now ≡ false)) }
{
    let surrogate = number(row.surrogate)?;
    let durable = number(row.durable)?;
    let profile_now = number(row.profile_now)?;
    let values = Vec::from_array(
        alloc,
        [
            surrogate,
            durable,
            text(&row.natural),
            day(row.from_day),
            day(row.to_day),
            flag(row.is_current),
            slot_column(&row.a, 0),
            slot_column(&row.a, 1),
            slot_column(&row.a, 2),
            slot_column(&row.a, 3),
            slot_column(&row.a, 4),
            slot_column(&row.a, 5),
            slot_column(&row.b, 0),
            slot_column(&row.b, 1),
            slot_column(&row.b, 2),
            slot_column(&row.b, 3),
            slot_column(&row.b, 4),
            slot_column(&row.b, 5),
            profile_now,
        ],
    )?;
    Ok(values)
}

/// A row of profile. `Size`: its number is above 9,999,999. `Memory`: a growth was refused.
pub fn encode_profile<'a>(alloc: Global, row: &'a ProfileRow) -> Result<Vec<ValueRef<'a>>, Cause>
    ensures ok { IfOk result (λ values. bound values.items ≡ encode_profile row.now) }
    ensures err { IfErr result (λ cause. cause ≢ Memory → (cause ≡ Size) × (is_profile row.now ≡ false)) }
{
    let key = number(row.number)?;
    let values = Vec::from_array(
        alloc,
        [
            key,
            slot_column(&row.values, 0),
            slot_column(&row.values, 1),
            slot_column(&row.values, 2),
            slot_column(&row.values, 3),
            slot_column(&row.values, 4),
            slot_column(&row.values, 5),
        ],
    )?;
    Ok(values)
}

/// A row of calendar. `Memory`: a growth was refused; nothing else is an error.
pub fn encode_date<'a>(alloc: Global, row: &'a DateRow) -> Result<Vec<ValueRef<'a>>, Cause>
    ensures ok { IfOk result (λ values. bound values.items ≡ encode_date row.now) }
    ensures err { IfErr result (λ cause. cause ≡ Memory) }
{
    let values = Vec::from_array(
        alloc,
        [
            day(row.date_key),
            text(&row.iso),
            ValueRef::Int(row.year),
            ValueRef::Int(row.quarter),
            ValueRef::Int(row.month),
            ValueRef::Int(row.day),
            ValueRef::Int(row.day_of_year),
            ValueRef::Int(row.weekday),
            text(&row.weekday_name),
            flag(row.weekend),
            text(&row.holiday),
        ],
    )?;
    Ok(values)
}

/// The columns of a fact that each format has.
fn common_columns<'a>(alloc: Global, row: &'a Fact) -> Result<Vec<ValueRef<'a>>, Cause>
    ensures ok { IfOk result (λ values. bound values.items ≡ encode_fact row.now) }
    ensures err { IfErr result (λ cause. cause ≢ Memory → (cause ≡ Size) × (has_good_columns row.now ≡ false)) }
{
    let store_key = number(row.keys.store_key)?;
    let product_key = number(row.keys.product_key)?;
    let customer_key = number(row.keys.customer_key)?;
    let store_durable = number(row.store_durable)?;
    let product_durable = number(row.product_durable)?;
    let customer_durable = number(row.customer_durable)?;
    let profile = number(row.keys.profile)?;
    let values = Vec::from_array(
        alloc,
        [
            text(&row.ticket),
            ValueRef::Int(row.line as i64),
            day(row.day),
            store_key,
            product_key,
            customer_key,
            store_durable,
            product_durable,
            customer_durable,
            profile,
            ValueRef::Int(row.quantity),
            ValueRef::Int(row.amount),
            ValueRef::Int(row.cost),
        ],
    )?;
    Ok(values)
}

/// A row of fact, whose table has no column for the discount. `Size`: one of its keys or the number of its profile is above 9,999,999.
/// `Memory`: a growth was refused.
pub fn encode_fact<'a>(alloc: Global, row: &'a Fact) -> Result<Vec<ValueRef<'a>>, Cause>
    ensures ok { IfOk result (λ values. bound values.items ≡ encode_fact row.now) }
    ensures err { IfErr result (λ cause. cause ≢ Memory → (cause ≡ Size) × (is_fact row.now ≡ false)) }
{
    common_columns(alloc, row)
}

/// A row of fact2. `Size`: one of its keys or the number of its profile is above 9,999,999, or the discount above 999,999,999 hundredths.
/// `Memory`: a growth was refused.
pub fn encode_fact2<'a>(alloc: Global, row: &'a Fact) -> Result<Vec<ValueRef<'a>>, Cause>
    ensures ok { IfOk result (λ values. bound values.items ≡ encode_fact2 row.now) }
    ensures err { IfErr result (λ cause. cause ≢ Memory → (cause ≡ Size) × (is_fact2 row.now ≡ false)) }
{
    let discount = discount(row.discount)?;
    let mut values = common_columns(alloc, row)?;
    values.push(discount)?;
    Ok(values)
}

/// A row of void. `Size`: the number of its command is above 9,999,999. `Memory`: a growth was refused.
pub fn encode_void<'a>(alloc: Global, row: &'a VoidRow) -> Result<Vec<ValueRef<'a>>, Cause>
    ensures ok { IfOk result (λ values. bound values.items ≡ encode_void row.now) }
    ensures err { IfErr result (λ cause. cause ≢ Memory → (cause ≡ Size) × (is_void row.now ≡ false)) }
{
    let command = number(row.command)?;
    let values = Vec::from_array(
        alloc,
        [text(&row.ticket), ValueRef::Int(row.line as i64), command],
    )?;
    Ok(values)
}
