//! Bytes that a line can't have, as words write them.

use std::alloc::{AllocError, Global};

/// The bytes that a text writes: `\n` and `\r` end a line, and `\x` and two hexadecimal digits are a byte.
pub fn bytes_of(alloc: Global, text: &str) -> Result<Vec<u8>, AllocError> {
    let mut found = Vec::new(alloc);
    let mut parts = text.split('\\');
    if let Some(first) = parts.next() {
        found.extend_from_slice(first.as_bytes())?;
    }
    for part in parts {
        push_escaped(&mut found, part.as_bytes())?;
    }
    Ok(found)
}

/// Adds what stands after a backslash: a byte, and the bytes after it.
fn push_escaped(found: &mut Vec<u8>, part: &[u8]) -> Result<(), AllocError> {
    let (byte, rest) = match part {
        [b'r', rest @ ..] => (b'\r', rest),
        [b'x', high, low, rest @ ..] => (digit(*high) << 4 | digit(*low), rest),
        [_, rest @ ..] => (b'\n', rest),
        [] => (b'\n', part),
    };
    found.push(byte)?;
    found.extend_from_slice(rest)?;
    Ok(())
}

/// The number of a hexadecimal digit, 0 to 15.
fn digit(byte: u8) -> u8 {
    match byte {
        b'0'..=b'9' => byte - b'0',
        b'A'..=b'F' => byte - b'A' + 10,
        _ => 0,
    }
}
