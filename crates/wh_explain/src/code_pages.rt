//! The code pages of tills, in which the bytes 80 to 9F are characters. In Latin-1 and in UTF-8 they are control characters.

use crate::shown::{push, push_hexadecimal};
use std::alloc::AllocError;

/// What they are in Windows-1252, and nothing where it has no character.
const WINDOWS: [&str; 32] = [
    "€", "", "‚", "ƒ", "„", "…", "†", "‡", "ˆ", "‰", "Š", "‹", "Œ", "", "Ž", "", "", "‘", "’", "“",
    "”", "•", "–", "—", "˜", "™", "š", "›", "œ", "", "ž", "Ÿ",
];

/// What they are in CP850.
const DOS: [&str; 32] = [
    "Ç", "ü", "é", "â", "ä", "à", "å", "ç", "ê", "ë", "è", "ï", "î", "ì", "Ä", "Å", "É", "æ", "Æ",
    "ô", "ö", "ò", "û", "ù", "ÿ", "Ö", "Ü", "ø", "£", "Ø", "×", "ƒ",
];

/// Whether a byte is a character in these code pages and none in Latin-1.
pub(crate) fn is_of_code_page(byte: u8) -> bool {
    matches!(byte, 0x80..=0x9F)
}

/// The character of a byte from 80 to 9F, if the code page has it.
fn character_in(page: &[&'static str], byte: u8) -> Option<&'static str> {
    match page.get(byte.saturating_sub(0x80) as usize) {
        Some(&"") | None => None,
        Some(character) => Some(*character),
    }
}

/// What a byte from 80 to 9F is in these code pages.
pub(crate) fn push_meanings(text: &mut Vec<u8>, byte: u8) -> Result<(), AllocError> {
    push!(text; "the byte ")?;
    push_hexadecimal(text, byte)?;
    push!(text; " is ")?;
    if let Some(character) = character_in(&WINDOWS, byte) {
        push!(text; character, " in Windows-1252, ")?;
    }
    let character = character_in(&DOS, byte).unwrap_or("no character");
    push!(text; character, " in CP850")
}
