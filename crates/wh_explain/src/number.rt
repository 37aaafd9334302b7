//! Why a field isn't the number that its column holds.

use crate::row::count_of;
use wh_batch::Holds;

fn is_whole(holds: Holds) -> bool {
    matches!(holds, Holds::Line | Holds::Quantity)
}

fn is_signed(holds: Holds) -> bool {
    matches!(holds, Holds::Quantity | Holds::Amount)
}

/// Why a number isn't one, as far as it is plain.
pub(crate) fn number_reason(holds: Holds, field: &[u8]) -> Option<&'static str> {
    match field {
        [b'+', ..] => Some(" has a + in front"),
        [b'-', ..] if !is_signed(holds) => Some(" has a - in front"),
        [b'-', digits @ ..] => digits_reason(holds, digits),
        _ => digits_reason(holds, field),
    }
}

fn digits_reason(holds: Holds, digits: &[u8]) -> Option<&'static str> {
    let commas = count_of(digits, b',');
    if digits.contains(&b'\'') || commas > 1 || (commas == 1 && digits.contains(&b'.')) {
        return Some(" has marks between thousands");
    }
    if commas == 1 {
        return Some(comma_reason(digits));
    }
    if digits.contains(&b'-') {
        return Some(" has a - that is not in front");
    }
    if !digits
        .iter()
        .all(|byte| byte.is_ascii_digit() || *byte == b'.')
    {
        return None;
    }
    if is_whole(holds) {
        whole_reason(digits)
    } else {
        amount_reason(digits)
    }
}

/// What a comma may stand for.
fn comma_reason(digits: &[u8]) -> &'static str {
    match digits {
        [_, .., b',', _, _, _] => " has a comma, for thousands or for decimals",
        _ => " has a decimal comma",
    }
}

/// Why digits and points write no whole number.
fn whole_reason(digits: &[u8]) -> Option<&'static str> {
    match digits {
        [.., b'.'] => return Some(" ends with a point"),
        _ if digits.contains(&b'.') => return Some(" has decimals"),
        _ => {}
    }
    match digits {
        [] => Some(" has no digit"),
        [_, _, _, _, _, ..] => Some(" has more than 4 digits"),
        _ => Some(" is no line"),
    }
}

/// Why digits and points write no amount.
fn amount_reason(digits: &[u8]) -> Option<&'static str> {
    let Some(point) = digits.iter().position(|byte| *byte == b'.') else {
        return Some(if digits.is_empty() {
            " has no digit"
        } else {
            " has more than 7 digits"
        });
    };
    let behind = &digits[point + 1..];
    if behind.contains(&b'.') {
        return Some(" has more than one point");
    }
    match (point, behind) {
        (0, _) => Some(" has no digit before the point"),
        (1..=7, []) => Some(" has no digit behind the point"),
        (1..=7, _) => Some(" has more than 2 digits behind the point"),
        _ => Some(" has more than 7 digits before the point"),
    }
}
