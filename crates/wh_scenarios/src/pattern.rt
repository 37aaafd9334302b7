//! Lines that are written as one pattern, in which `{FIRST-LAST}` is a range of numbers.

use crate::scenario::{NotMade, parted};
use crate::words::{number, push_number};
use std::alloc::{AllocError, Global};

/// Adds a number, with as many digits at least.
fn push_digits(
    alloc: Global,
    out: &mut String,
    number: u64,
    digits: usize,
) -> Result<(), AllocError> {
    let mut text = String::new(alloc);
    push_number(&mut text, number)?;
    for _ in text.len()..digits {
        out.push_str("0")?;
    }
    out.push_str(text.as_str())
}

/// Adds the line of a pattern so many lines behind its first.
fn push_counted(
    alloc: Global,
    lines: &mut String,
    pattern: &str,
    place: u64,
) -> Result<(), NotMade> {
    let (front, ranges) = parted(pattern, '{');
    lines.push_str(front)?;
    for piece in ranges.split('{') {
        let (range, rest) = parted(piece, '}');
        let (first, _) = parted(range, '-');
        push_digits(
            alloc,
            lines,
            number(first)?.saturating_add(place),
            first.len(),
        )?;
        lines.push_str(rest)?;
    }
    Ok(lines.push_str("\n")?)
}

/// Adds the lines of a pattern, one for each number of its first range.
pub fn push_pattern(alloc: Global, lines: &mut String, pattern: &str) -> Result<(), NotMade> {
    let (_, ranges) = parted(pattern, '{');
    let (range, _) = parted(ranges, '}');
    let (first, last) = parted(range, '-');
    let count = number(last)?.saturating_sub(number(first)?);
    for place in 0..count.saturating_add(1) {
        push_counted(alloc, lines, pattern, place)?;
    }
    Ok(())
}
