//! The texts of a row's attributes.

ghost use Rattle.std.specs.Prelude.{◌≡◌, ◌++◌, ◌∷◌, [], IfOk, OnOk, OnErr};
ghost use Rattle.wh_day.specs.Value.{are_same};

use crate::value::Value;
use std::alloc::{AllocError, Global};
use std::marker::Model;

/// Texts by slot, the place of an attribute in its dimension. A contract sees the list of their bytes.
#[derive(Debug, Drop)]
pub struct Values {
    texts: Vec<Value>,
}

impl Model for Values {
    ghost use Rattle.std.specs.Prelude.{List, ℕ};

    ghost Value = { List (List ℕ) };

    ghost view = { λ v. v.texts.items };
}

impl Values {
    /// No text yet.
    pub fn new(alloc: Global) -> Values
        ensures { result ≡ [] }
    {
        Values {
            texts: Vec::new(alloc),
        }
    }

    /// The texts in the order of their slots.
    pub fn as_slice(&self) -> &[Value]
        ensures { result.now ≡ self.now }
    {
        self.texts.as_slice()
    }

    /// Adds the text of the next slot. After an `Err` the texts are those before.
    pub fn push(&mut self, text: Value) -> Result<(), AllocError>
        ensures ok { OnOk result (self.new ≡ self.old ++ text ∷ []) }
        ensures err { OnErr result (self.new ≡ self.old) }
    {
        self.texts.push(text)?;
        Ok(())
    }

    /// The same texts, in memory of their own.
    pub fn copy(&self, alloc: Global) -> Result<Values, AllocError>
        ensures { IfOk result (λ v. v ≡ self.now) }
    {
        let mut copied = Values::new(alloc);
        for text in self.as_slice() {
            copied.push(text.copy()?)?;
        }
        Ok(copied)
    }

    /// Whether both have the same texts.
    pub fn is_same(&self, other: &Values) -> bool
        ensures { result ≡ are_same self.now other.now }
    {
        are_same(self.as_slice(), other.as_slice())
    }
}

/// Whether the texts are the same, one by one.
pub fn are_same(texts: &[Value], others: &[Value]) -> bool
    ensures { result ≡ are_same texts.now others.now }
{
    if texts.len() != others.len() {
        return false;
    }
    for slot in 0..texts.len() {
        if !texts[slot].is_same(&others[slot]) {
            return false;
        }
    }
    true
}
