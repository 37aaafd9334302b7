//! Texts of rows.

ghost use Rattle.std.specs.Prelude.{◌≡◌, List, [], ℕ, if◌then◌else◌, Some, None, IfOk, option_map, string_bytes, bytes_eq};
ghost use Rattle.wh_day.specs.Value.{is_plain, is_printed, none_text, unknown_text, no_card_text, read_value};
ghost use Rattle.std.specs.List.{list_all};
ghost use Rattle.std.specs.Str.{is_utf8};

use std::alloc::{AllocError, Global};
use std::marker::Model;

/// The most bytes of a value that a source gives.
pub const VALUE_LIMIT: usize = 60;

/// A text of a row: an attribute's value, a natural key or a name. A contract sees its bytes.
///
/// No attribute is null. Where there is no value a row says so in words: Kimball & Ross, *The Data Warehouse Toolkit*,
/// 3rd edition, chapter 3, "Null Foreign Keys, Attributes, and Facts".
#[derive(Debug, Drop)]
pub struct Value {
    text: String,
}

impl Model for Value {
    ghost Value = { List ℕ };

    ghost view = { λ v. string_bytes v.text };
}

impl Value {
    /// The value that a field writes, if it writes one: the empty field writes `(none)`, and any other field itself where
    /// it is up to 60 bytes of text without control characters and doesn't begin with a parenthesis.
    #[tactic(auto, unfolding(crate::specs::Value::read_value))]
    pub fn read(alloc: Global, field: &[u8]) -> Result<Option<Value>, AllocError>
        ensures { IfOk result (λ value. value ≡ read_value field.now) }
    {
        match field {
            [] => Ok(Some(Value::none(alloc)?)),
            [b'(', ..] => Ok(None),
            _ => match plain(field) {
                Some(text) => Ok(Some(Value::new(alloc, text)?)),
                None => Ok(None),
            },
        }
    }

    /// A text of the program's own, whatever it is. What a source sends is read by [`Value::read`].
    pub fn new(alloc: Global, text: &str) -> Result<Value, AllocError>
        ensures { IfOk result (λ value. value ≡ text.now) }
    {
        Ok(Value {
            text: String::from_str(alloc, text)?,
        })
    }

    /// The text that was made for it.
    pub(crate) fn of(text: String) -> Value
        ensures { result ≡ string_bytes text }
    {
        Value { text }
    }

    /// `(none)`: what stands where a source left a value out.
    #[tactic(auto, unfolding(crate::specs::Value::none_text))]
    pub fn none(alloc: Global) -> Result<Value, AllocError>
        ensures { IfOk result (λ value. value ≡ none_text) }
    {
        Value::new(alloc, "(none)")
    }

    /// `(unknown)`: each value of a member that no record has described.
    #[tactic(auto, unfolding(crate::specs::Value::unknown_text))]
    pub fn unknown(alloc: Global) -> Result<Value, AllocError>
        ensures { IfOk result (λ value. value ≡ unknown_text) }
    {
        Value::new(alloc, "(unknown)")
    }

    /// `(no card)`: each value of the row that stands for sales without a card.
    #[tactic(auto, unfolding(crate::specs::Value::no_card_text))]
    pub fn no_card(alloc: Global) -> Result<Value, AllocError>
        ensures { IfOk result (λ value. value ≡ no_card_text) }
    {
        Value::new(alloc, "(no card)")
    }

    /// The empty text, of a column that no attribute has.
    pub fn empty(alloc: Global) -> Value
        ensures { result ≡ [] }
    {
        Value {
            text: String::new(alloc),
        }
    }

    /// The text, for printing and for statements.
    pub fn as_str(&self) -> &str
        ensures { result.now ≡ self.now }
    {
        self.text.as_str()
    }

    /// The same value, in memory of its own.
    pub fn copy(&self) -> Result<Value, AllocError>
        ensures { IfOk result (λ value. value ≡ self.now) }
    {
        Ok(Value {
            text: self.text.clone()?,
        })
    }

    /// Whether it is `(none)`.
    #[tactic(auto, unfolding(crate::specs::Value::none_text))]
    pub fn is_none(&self) -> bool
        ensures { result ≡ bytes_eq self.now none_text }
    {
        self.as_str() == "(none)"
    }

    /// Whether both are the same text.
    pub fn is_same(&self, other: &Value) -> bool
        ensures { result ≡ bytes_eq self.now other.now }
    {
        self.as_str() == other.as_str()
    }
}

// The field as text, if it is up to 60 bytes of text without control characters.
#[tactic(auto, unfolding(crate::specs::Value::is_plain))]
fn plain(field: &[u8]) -> Option<&str>
    ensures { option_map (λ text. text.now) result ≡ (if is_plain field.now then Some field.now else None) }
{
    if field.len() <= VALUE_LIMIT && is_all_printed(field) {
        as_text(field)
    } else {
        None
    }
}

fn is_all_printed(field: &[u8]) -> bool
    ensures { result ≡ list_all is_printed field.now }
{
    field.iter().all(|byte| *byte >= 32 && *byte != 127)
}

fn as_text(field: &[u8]) -> Option<&str>
    ensures { option_map (λ text. text.now) result ≡ (if is_utf8 field.now then Some field.now else None) }
{
    match std::str::from_utf8(field) {
        Ok(text) => Some(text),
        Err(_) => None,
    }
}
