//! Reading the fields of a record.

ghost use Rattle.std.specs.Prelude.{◌≡◌, ◌≤◌, map, IfOk, ok_or, Some, None, option_map, if◌then◌else◌};
ghost use Rattle.std.specs.Str.{is_utf8};
ghost use Rattle.csv.specs.Records.{fields_of};
ghost use Rattle.wh_day.specs.Reading.{Gives};
ghost use Rattle.wh_batch.specs.Fields.{key_of, customer_of, day_of, effective_day_of, value_of, values_of};

use crate::fault::FaultKind;
use csv::ByteRecord;
use std::alloc::{AllocError, Global};
use wh_day::{Day, KEY_LIMIT, NaturalKey, ParseError, Value, Values};

/// The fields of a row.
pub(crate) fn fields_of(alloc: Global, row: &ByteRecord) -> Result<Vec<&[u8]>, AllocError>
    ensures { IfOk result (λ fields. map (λ f. f.now) fields.items ≡ fields_of row.now) }
{
    let mut fields = Vec::with_capacity(alloc, row.len())?;
    for i in 0..row.len() {
        if let Some(field) = row.get(i) {
            fields.push(field)?;
        }
    }
    Ok(fields)
}

/// The text that a field is, if it is one.
pub(crate) fn as_text(field: &[u8]) -> Option<&str>
    ensures { option_map (λ text. text.now) result ≡ (if is_utf8 field.now then Some field.now else None) }
{
    match std::str::from_utf8(field) {
        Ok(text) => Some(text),
        Err(_) => None,
    }
}

/// What was read, or this fault.
pub(crate) fn or_fault<T: Drop>(
    read: Option<T>,
    kind: FaultKind,
) -> Result<T, ParseError<FaultKind>>
    ensures { Gives (λ x. x) result (ok_or read kind) }
{
    match read {
        Some(x) => Ok(x),
        None => Err(ParseError::Fault(kind)),
    }
}

/// The key of at most so many bytes that a field is.
#[tactic(auto, unfolding(crate::specs::Fields::key_of))]
pub(crate) fn key_of(most: usize, field: &[u8]) -> Result<NaturalKey, ParseError<FaultKind>>
    requires { most ≤ 32 }
    ensures { Gives (λ key. key) result (key_of most field.now) }
{
    or_fault(NaturalKey::read(most, field), FaultKind::BadKey)
}

/// The key of the customer, whom a sale needn't have.
#[tactic(auto, unfolding(crate::specs::Fields::customer_of))]
pub(crate) fn customer_of(field: &[u8]) -> Result<Option<NaturalKey>, ParseError<FaultKind>>
    ensures { Gives (λ customer. customer) result (customer_of field.now) }
{
    match field {
        [] => Ok(None),
        _ => Ok(Some(key_of(KEY_LIMIT, field)?)),
    }
}

#[tactic(auto, unfolding(crate::specs::Fields::day_of))]
pub(crate) fn day_of(field: &[u8]) -> Result<Day, ParseError<FaultKind>>
    ensures { Gives (λ day. day) result (day_of field.now) }
{
    or_fault(Day::read(field), FaultKind::BadDay)
}

#[tactic(auto, unfolding(crate::specs::Fields::effective_day_of))]
pub(crate) fn effective_day_of(field: &[u8]) -> Result<Day, ParseError<FaultKind>>
    ensures { Gives (λ day. day) result (effective_day_of field.now) }
{
    let day = day_of(field)?;
    if day.key() <= 21_991_231 {
        Ok(day)
    } else {
        Err(ParseError::Fault(FaultKind::BadDay))
    }
}

#[tactic(auto, unfolding(crate::specs::Fields::value_of))]
pub(crate) fn value_of(alloc: Global, field: &[u8]) -> Result<Value, ParseError<FaultKind>>
    ensures { Gives (λ value. value) result (value_of field.now) }
{
    or_fault(Value::read(alloc, field)?, FaultKind::BadValue)
}

pub(crate) fn values_of(alloc: Global, fields: &[&[u8]]) -> Result<Values, ParseError<FaultKind>>
    ensures { Gives (λ values. values) result (values_of (map (λ f. f.now) fields.now)) }
{
    let mut values = Values::new(alloc);
    for field in fields {
        values.push(value_of(alloc, field)?)?;
    }
    Ok(values)
}
