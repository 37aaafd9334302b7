//! Natural keys and tickets.

ghost use Rattle.std.specs.Prelude.{◌≡◌, ◌≤◌, ℕ, List, true, if◌then◌else◌, Some, None, length, take, min, nat_eq};
ghost use Rattle.std.specs.List.{list_all};
ghost use Rattle.std.specs.Cmp.Lexicographic.{pointwise, nat_list_eq_equiv};
ghost use Rattle.std.specs.Cmp.{partial_equiv_from_equiv};
ghost use Rattle.std.specs.Cmp.Rules.{hashing};
ghost use Rattle.std.proofs.Common.{rules};
ghost use Rattle.wh_day.specs.NaturalKey.{is_key, is_key_byte};

use std::hash::{Hash, Hasher};
use std::marker::Model;
use std::{fmt, str};

/// The most bytes of a natural key.
pub const KEY_LIMIT: usize = 32;

/// The most bytes of a ticket's number.
pub const TICKET_LIMIT: usize = 20;

/// A key that a source gives, as the name of a member or the number of a ticket: 1 to 32 letters, digits, `-`, `_` and
/// `.`, in the value itself. A contract sees its bytes.
///
/// Kimball & Ross, *The Data Warehouse Toolkit*, 3rd edition, chapter 3, "Dimension Natural and Durable
/// Supernatural Keys" and "Degenerate Dimensions for Transaction Numbers".
#[derive(Drop)]
pub struct NaturalKey {
    bytes: [u8; KEY_LIMIT],
    len: usize,
}

impl Model for NaturalKey {
    ghost Value = { List ℕ };

    ghost view = { λ k. take k.len k.bytes };

    ghost invariant = { λ k. (k.len ≤ 32) × (length k.bytes ≡ 32) × (list_all is_key_byte (take k.len k.bytes) ≡ true) };
}

impl NaturalKey {
    /// The key that a field writes, if it writes one of at most `most` bytes. No key has more than 32.
    pub fn read(most: usize, field: &[u8]) -> Option<NaturalKey>
        ensures { result ≡ (if is_key (min most 32) field.now then Some field.now else None) }
    {
        if !is_key(most.min(KEY_LIMIT), field) {
            return None;
        }
        let len = field.len();
        let mut bytes = [0; KEY_LIMIT];
        bytes[..len].copy_from_slice(field);
        Some(NaturalKey { bytes, len })
    }

    fn as_bytes(&self) -> &[u8]
        ensures same { result.now ≡ self.now }
        ensures key { list_all is_key_byte result.now ≡ true }
    {
        &self.bytes[..self.len]
    }

    /// The text, for printing and for statements.
    pub fn as_str(&self) -> &str
        ensures { result.now ≡ self.now }
    {
        match str::from_utf8(self.as_bytes()) {
            Ok(text) => text,
            Err(_) => unreachable!(),
        }
    }

    /// The same key.
    pub fn copy(&self) -> NaturalKey
        ensures { result ≡ self.now }
    {
        NaturalKey {
            bytes: self.bytes,
            len: self.len,
        }
    }
}

impl PartialEq for NaturalKey {
    ghost eq = { pointwise nat_eq };

    ghost laws = { partial_equiv_from_equiv nat_list_eq_equiv };

    fn eq(&self, other: &NaturalKey) -> bool {
        self.as_bytes() == other.as_bytes()
    }
}

impl Eq for NaturalKey {
    ghost laws = { nat_list_eq_equiv };
}

impl Hash for NaturalKey {
    ghost use Rattle.std.specs.Prelude.{◌∷◌, []};

    ghost hash_input = { λ key. key ∷ [] };

    ghost respects_eq = { Prim.search (hashing, rules) };

    fn hash<H: Hasher>(&self, state: &mut H) {
        state.write(self.as_bytes());
    }
}

impl fmt::Debug for NaturalKey {
    fn fmt<W: fmt::Write>(&self, f: &mut fmt::Formatter<W>) -> fmt::Result {
        fmt::Debug::fmt(&self.as_str(), f)
    }
}

fn is_key_byte(byte: u8) -> bool
    ensures { result ≡ is_key_byte byte }
{
    matches!(byte, b'0'..=b'9' | b'A'..=b'Z' | b'a'..=b'z' | b'-' | b'_' | b'.')
}

fn has_key_bytes(text: &[u8]) -> bool
    ensures { result ≡ list_all is_key_byte text.now }
{
    text.iter().all(|byte| is_key_byte(*byte))
}

/// Whether a text is a key: 1 to `most` letters, digits, `-`, `_` and `.`.
pub fn is_key(most: usize, text: &[u8]) -> bool
    ensures { result ≡ is_key most text.now }
{
    1 <= text.len() && text.len() <= most && has_key_bytes(text)
}
