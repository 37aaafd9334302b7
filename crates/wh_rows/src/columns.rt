//! Reads the columns of a stored row, each by its type.

ghost use Rattle.std.specs.Prelude.{◌≡◌, ◌<◌, if◌then◌else◌, Some, None, option_map};
ghost use Rattle.std.specs.Str.{is_utf8};
ghost use Rattle.sqlite_value.specs.Value.{owned};
ghost use Rattle.sqlite_value.specs.Order.{column};
ghost use Rattle.wh_day.specs.Reading.{Gives};
ghost use Rattle.wh_rows.specs.Types.{is_key, is_kind, is_special};
ghost use Rattle.wh_rows.specs.Rows.{is_natural};
ghost use Rattle.wh_rows.specs.Columns.{integer_of, number_of, discount_of, line_of, measure_of, day_of, flag_of, dim_of, blob_of, text_of, tested_of, slot_of, slots_of};

use sqlite::Row;
use sqlite::types::{Bytes, ValueRef};
use std::alloc::Global;
use thiserror::Error;
use wh_day::{Day, KEY_LIMIT, ParseError, Value, Values, is_key};
use wh_history::GREATEST_NUMBER;
use wh_policy::Dim;

/// A stored value is not of the type of its column.
#[derive(Clone, Copy, Debug, PartialEq, Eq, Error)]
#[error("a stored value is not of the type of its column")]
pub struct Damaged;

/// The value in a column; past the last there is none.
fn column<'a>(row: &'a Row, at: usize) -> ValueRef<'a>
    ensures { owned result ≡ column row.now at }
{
    match row.get_ref(at) {
        Ok(value) => value,
        Err(_) => ValueRef::Null,
    }
}

#[tactic(auto, unfolding(crate::specs::Columns::integer_of))]
pub(crate) fn integer_of(row: &Row, at: usize) -> Result<i64, ParseError<Damaged>>
    ensures { Gives (λ n. n) result (integer_of (column row.now at)) }
{
    match column(row, at) {
        ValueRef::Int(n) => Ok(n),
        _ => Err(ParseError::Fault(Damaged)),
    }
}

#[tactic(auto, unfolding(crate::specs::Columns::number_of))]
pub(crate) fn number_of(row: &Row, at: usize) -> Result<u64, ParseError<Damaged>>
    ensures { Gives (λ n. n) result (number_of (column row.now at)) }
{
    match column(row, at) {
        ValueRef::Int(n) if 0 <= n && n <= GREATEST_NUMBER as i64 => Ok(n as u64),
        _ => Err(ParseError::Fault(Damaged)),
    }
}

#[tactic(auto, unfolding(crate::specs::Columns::line_of))]
pub(crate) fn line_of(row: &Row, at: usize) -> Result<u32, ParseError<Damaged>>
    ensures { Gives (λ n. n) result (line_of (column row.now at)) }
{
    match column(row, at) {
        ValueRef::Int(n) if 1 <= n && n <= 9999 => Ok(n as u32),
        _ => Err(ParseError::Fault(Damaged)),
    }
}

#[tactic(auto, unfolding(crate::specs::Columns::discount_of))]
pub(crate) fn discount_of(row: &Row, at: usize) -> Result<u64, ParseError<Damaged>>
    ensures { Gives (λ n. n) result (discount_of (column row.now at)) }
{
    match column(row, at) {
        ValueRef::Int(n) if 0 <= n && n <= 999_999_999 => Ok(n as u64),
        _ => Err(ParseError::Fault(Damaged)),
    }
}

/// A number from `-most` to `most`.
#[tactic(auto, unfolding(crate::specs::Columns::measure_of))]
pub(crate) fn measure_of(most: u64, row: &Row, at: usize) -> Result<i64, ParseError<Damaged>>
    ensures { Gives (λ n. n) result (measure_of most (column row.now at)) }
{
    match column(row, at) {
        ValueRef::Int(n) if n.unsigned_abs() <= most => Ok(n),
        _ => Err(ParseError::Fault(Damaged)),
    }
}

#[tactic(auto, unfolding(crate::specs::Columns::day_of))]
pub(crate) fn day_of(row: &Row, at: usize) -> Result<Day, ParseError<Damaged>>
    ensures { Gives (λ n. n) result (day_of (column row.now at)) }
{
    let ValueRef::Int(key) = column(row, at) else {
        return Err(ParseError::Fault(Damaged));
    };
    match Day::from_key(key) {
        Some(day) => Ok(day),
        None => Err(ParseError::Fault(Damaged)),
    }
}

#[tactic(auto, unfolding(crate::specs::Columns::flag_of))]
pub(crate) fn flag_of(row: &Row, at: usize) -> Result<bool, ParseError<Damaged>>
    ensures { Gives (λ n. n) result (flag_of (column row.now at)) }
{
    match column(row, at) {
        ValueRef::Int(0) => Ok(false),
        ValueRef::Int(1) => Ok(true),
        _ => Err(ParseError::Fault(Damaged)),
    }
}

#[tactic(auto, unfolding(crate::specs::Columns::dim_of))]
pub(crate) fn dim_of(row: &Row, at: usize) -> Result<Dim, ParseError<Damaged>>
    ensures { Gives (λ n. n) result (dim_of (column row.now at)) }
{
    match column(row, at) {
        ValueRef::Int(1) => Ok(Dim::Product),
        ValueRef::Int(2) => Ok(Dim::Store),
        ValueRef::Int(3) => Ok(Dim::Customer),
        _ => Err(ParseError::Fault(Damaged)),
    }
}

#[tactic(auto, unfolding(crate::specs::Columns::blob_of))]
pub(crate) fn blob_of(alloc: Global, row: &Row, at: usize) -> Result<Bytes, ParseError<Damaged>>
    ensures { Gives (λ n. n) result (blob_of (column row.now at)) }
{
    match column(row, at) {
        ValueRef::Blob(bytes) => Ok(Bytes::from_slice(alloc, bytes)?),
        _ => Err(ParseError::Fault(Damaged)),
    }
}

#[tactic(auto, unfolding(crate::specs::Columns::text_of))]
fn words<'a>(row: &'a Row, at: usize) -> Result<&'a str, ParseError<Damaged>>
    ensures { Gives (λ text. text.now) result (text_of (column row.now at)) }
{
    let ValueRef::Text(bytes) = column(row, at) else {
        return Err(ParseError::Fault(Damaged));
    };
    match as_text(bytes) {
        Some(text) => Ok(text),
        None => Err(ParseError::Fault(Damaged)),
    }
}

fn as_text(bytes: &[u8]) -> Option<&str>
    ensures { option_map (λ text. text.now) result ≡ (if is_utf8 bytes.now then Some bytes.now else None) }
{
    match std::str::from_utf8(bytes) {
        Ok(text) => Some(text),
        Err(_) => None,
    }
}

/// Any text.
#[tactic(auto, unfolding(crate::specs::Columns::text_of))]
pub(crate) fn text_of(alloc: Global, row: &Row, at: usize) -> Result<Value, ParseError<Damaged>>
    ensures { Gives (λ text. text) result (text_of (column row.now at)) }
{
    let text = words(row, at)?;
    Ok(Value::new(alloc, text)?)
}

/// A key of up to `most` bytes.
#[tactic(auto, unfolding(crate::specs::Columns::tested_of))]
pub(crate) fn key(
    alloc: Global,
    most: usize,
    row: &Row,
    at: usize,
) -> Result<Value, ParseError<Damaged>>
    ensures { Gives (λ text. text) result (tested_of (is_key most) (column row.now at)) }
{
    let text = words(row, at)?;
    if is_key(most, text.as_bytes()) {
        Ok(Value::new(alloc, text)?)
    } else {
        Err(ParseError::Fault(Damaged))
    }
}

fn is_kind(text: &str) -> bool
    ensures { result ≡ is_kind text.now }
{
    matches!(text, "init" | "migrate" | "upgrade" | "sales" | "void")
        || Dim::from_word(text).is_some()
}

/// What a command is.
#[tactic(auto, unfolding(crate::specs::Columns::tested_of))]
pub(crate) fn kind(alloc: Global, row: &Row, at: usize) -> Result<Value, ParseError<Damaged>>
    ensures { Gives (λ text. text) result (tested_of is_kind (column row.now at)) }
{
    let text = words(row, at)?;
    if is_kind(text) {
        Ok(Value::new(alloc, text)?)
    } else {
        Err(ParseError::Fault(Damaged))
    }
}

#[tactic(auto, unfolding(wh_day::specs::Value::no_card_text))]
fn is_natural(dim: Dim, surrogate: u64, text: &str) -> bool
    ensures { result ≡ is_natural dim surrogate text.now }
{
    match dim {
        Dim::Product | Dim::Store => is_key(KEY_LIMIT, text.as_bytes()),
        Dim::Customer => {
            is_key(KEY_LIMIT, text.as_bytes()) || surrogate == 0 && text == "(no card)"
        }
    }
}

/// The natural key in the row of a dimension with a surrogate key.
#[tactic(auto, unfolding(crate::specs::Columns::tested_of))]
pub(crate) fn natural(
    alloc: Global,
    dim: Dim,
    surrogate: u64,
    row: &Row,
    at: usize,
) -> Result<Value, ParseError<Damaged>>
    ensures { Gives (λ text. text) result (tested_of (is_natural dim surrogate) (column row.now at)) }
{
    let text = words(row, at)?;
    if is_natural(dim, surrogate, text) {
        Ok(Value::new(alloc, text)?)
    } else {
        Err(ParseError::Fault(Damaged))
    }
}

#[tactic(auto, unfolding(crate::specs::Types::is_special, wh_day::specs::Value::none_text, wh_day::specs::Value::unknown_text, wh_day::specs::Value::no_card_text))]
fn is_special(text: &str) -> bool
    ensures { result ≡ is_special text.now }
{
    match text {
        "" | "(none)" | "(unknown)" | "(no card)" => true,
        _ => false,
    }
}

#[tactic(auto, unfolding(crate::specs::Columns::slot_of))]
fn slot_of(alloc: Global, row: &Row, at: usize) -> Result<Value, ParseError<Damaged>>
    ensures { Gives (λ text. text) result (slot_of (column row.now at)) }
{
    let text = words(row, at)?;
    if is_special(text) {
        return Ok(Value::new(alloc, text)?);
    }
    match Value::read(alloc, text.as_bytes())? {
        Some(value) => Ok(value),
        None => Err(ParseError::Fault(Damaged)),
    }
}

/// The texts of the six slots from a column on.
#[tactic(auto, unfolding(crate::specs::Columns::slots_of))]
pub(crate) fn slots_of(alloc: Global, row: &Row, from: usize) -> Result<Values, ParseError<Damaged>>
    requires { from < 100 }
    ensures { Gives (λ texts. texts) result (slots_of row.now from) }
{
    let mut texts = Values::new(alloc);
    texts.push(slot_of(alloc, row, from)?)?;
    texts.push(slot_of(alloc, row, from + 1)?)?;
    texts.push(slot_of(alloc, row, from + 2)?)?;
    texts.push(slot_of(alloc, row, from + 3)?)?;
    texts.push(slot_of(alloc, row, from + 4)?)?;
    texts.push(slot_of(alloc, row, from + 5)?)?;
    Ok(texts)
}
