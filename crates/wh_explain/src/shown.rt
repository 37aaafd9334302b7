//! Texts, numbers, and texts of a file, as an explanation shows them.

ghost use Rattle.std.specs.Prelude.{◌≡◌, ◌++◌, OnOk};
ghost use Rattle.std.specs.Fmt.{decimal};
ghost use Rattle.wh_explain.specs.Added.{Fits};

use itoa::Buffer;
use std::alloc::AllocError;

/// How many characters of a field are shown.
const FIELD_SHOWN: usize = 60;

/// How many of a header.
const HEADER_SHOWN: usize = 200;

/// The decimal digits of a number.
pub fn push_number(text: &mut Vec<u8>, number: u64) -> Result<(), AllocError>
    ensures added { OnOk result (text.new.items ≡ text.old.items ++ decimal number) }
    ensures fits { Fits 20 result text.old text.new }
{
    text.extend_from_slice(Buffer::new().format(number).as_bytes())
}

/// Adds parts to a text, one after the other.
macro_rules! push {
    ($text:expr; $part:expr) => { $crate::shown::Shown::push_to($part, $text) };
    ($text:expr; $part:expr, $($more:expr),+) => {{
        $crate::shown::Shown::push_to($part, $text)?;
        push!($text; $($more),+)
    }};
}

pub(crate) use push;

/// A part of a text.
pub(crate) trait Shown {
    /// Adds it to the text.
    fn push_to(self, text: &mut Vec<u8>) -> Result<(), AllocError>;
}

impl Shown for &str {
    fn push_to(self, text: &mut Vec<u8>) -> Result<(), AllocError> {
        text.extend_from_slice(self.as_bytes())
    }
}

impl Shown for u64 {
    fn push_to(self, text: &mut Vec<u8>) -> Result<(), AllocError> {
        push_number(text, self)
    }
}

impl Shown for i64 {
    fn push_to(self, text: &mut Vec<u8>) -> Result<(), AllocError> {
        if self < 0 {
            push!(text; "-")?;
        }
        push_number(text, self.unsigned_abs())
    }
}

impl Shown for usize {
    fn push_to(self, text: &mut Vec<u8>) -> Result<(), AllocError> {
        push_number(text, self as u64)
    }
}

/// A place that is counted from 0; a text counts from 1.
#[derive(Drop)]
pub(crate) struct Counted(pub(crate) usize);

impl Shown for Counted {
    fn push_to(self, text: &mut Vec<u8>) -> Result<(), AllocError> {
        push_number(text, (self.0 as u64).saturating_add(1))
    }
}

/// How many bytes the first character has. A byte that begins none counts as one.
fn first_length(shown: &[u8]) -> usize {
    for length in 1..5 {
        if length <= shown.len() && std::str::from_utf8(&shown[..length]).is_ok() {
            return length;
        }
    }
    shown.len().min(1)
}

/// Whether a character is shown as it stands: not one that is no UTF-8, nor one that controls a terminal or can't be seen.
fn is_seen(first: &[u8]) -> bool {
    match first {
        [b'\\'] => false,
        [byte] => matches!(byte, b' '..=b'~'),
        [0xC2, second] => *second > 0xA0,
        [0xD8, 0x9C] => false,
        [0xE2, 0x80, third] => !matches!(third, 0x80..=0x8F | 0xA8..=0xAF),
        [0xE2, 0x81, third] => !matches!(third, 0xA0..=0xAF),
        [0xEF, 0xBB, 0xBF] => false,
        _ => true,
    }
}

/// A hexadecimal digit.
fn digit(number: u8) -> u8 {
    match number {
        0..=9 => b'0' + number,
        10..=15 => b'a' + (number - 10),
        _ => b'?',
    }
}

/// The two hexadecimal digits of a byte.
pub(crate) fn push_hexadecimal(text: &mut Vec<u8>, byte: u8) -> Result<(), AllocError> {
    text.extend_from_slice(&[digit(byte >> 4), digit(byte & 15)])
}

fn push_escaped(text: &mut Vec<u8>, byte: u8) -> Result<(), AllocError> {
    match byte {
        b'\n' => push!(text; "\\n"),
        b'\r' => push!(text; "\\r"),
        b'\t' => push!(text; "\\t"),
        b'\\' => push!(text; "\\\\"),
        _ => {
            push!(text; "\\x")?;
            push_hexadecimal(text, byte)
        }
    }
}

fn push_all_escaped(text: &mut Vec<u8>, bytes: &[u8]) -> Result<(), AllocError> {
    for byte in bytes {
        push_escaped(text, *byte)?;
    }
    Ok(())
}

/// Shows the first character, and hands out what is left.
fn push_first<'a>(text: &mut Vec<u8>, shown: &'a [u8]) -> Result<&'a [u8], AllocError> {
    let (first, left) = shown.split_at(first_length(shown).min(shown.len()));
    if is_seen(first) {
        text.extend_from_slice(first)?;
    } else {
        push_all_escaped(text, first)?;
    }
    Ok(left)
}

/// Up to so many characters of a text, and a sign where it goes on.
fn push_shown(text: &mut Vec<u8>, shown: &[u8], most: usize) -> Result<(), AllocError> {
    let mut left = shown;
    for _ in 0..most {
        left = push_first(text, left)?;
    }
    if left.is_empty() {
        return Ok(());
    }
    push!(text; " ..")
}

/// A header, as it stands.
pub(crate) fn push_header(text: &mut Vec<u8>, header: &[u8]) -> Result<(), AllocError> {
    push_shown(text, header, HEADER_SHOWN)
}

/// A key of a policy, between quotes.
pub(crate) fn push_name(text: &mut Vec<u8>, key: &str) -> Result<(), AllocError> {
    push!(text; "\"")?;
    push_shown(text, key.as_bytes(), FIELD_SHOWN)?;
    push!(text; "\"")
}

/// The text of a field or a line, between quotes.
#[derive(Drop)]
pub(crate) struct Quoted<'a>(pub(crate) &'a [u8]);

impl<'a> Shown for Quoted<'a> {
    fn push_to(self, text: &mut Vec<u8>) -> Result<(), AllocError> {
        push!(text; "'")?;
        push_shown(text, self.0, FIELD_SHOWN)?;
        push!(text; "'")
    }
}

/// The first character of a text, between quotes.
pub(crate) fn push_character(text: &mut Vec<u8>, field: &[u8]) -> Result<(), AllocError> {
    push!(text; "'")?;
    push_first(text, field)?;
    push!(text; "'")
}
