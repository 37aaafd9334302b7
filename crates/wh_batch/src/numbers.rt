//! Reading the fields of a record that are numbers.

ghost use Rattle.std.specs.Prelude.{◌≡◌, ◌^◌, ◌<◌, ◌≤◌, true, length, position, IfSome};
ghost use Rattle.std.specs.Char.{is_ascii_digit};
ghost use Rattle.std.specs.List.{list_all};
ghost use Rattle.std.specs.Str.Parse.{digits_value};
ghost use Rattle.wh_day.specs.Reading.{Gives};
ghost use Rattle.wh_batch.specs.Numbers.{is_point, read_digits, read_fraction, read_hundredths, read_line, read_quantity, read_amount, line_of, quantity_of, amount_of, discount_of};

use crate::fault::FaultKind;
use crate::fields::or_fault;
use wh_day::ParseError;

// The number that one up to `most` digits write.
#[tactic(auto, unfolding(crate::specs::Numbers::read_digits))]
fn read_digits(most: usize, text: &[u8]) -> Option<u32>
    requires { most ≤ 9 }
    ensures value { result ≡ read_digits most text.now }
    ensures bound { IfSome result (λ n. n < 10 ^ most) }
{
    if text.is_empty() || text.len() > most {
        return None;
    }
    let mut number = 0;
    for byte in text {
        if !byte.is_ascii_digit() {
            return None;
        }
        number = 10 * number + (*byte - b'0') as u32;
    }
    Some(number)
}

/// The number that one up to nine digits write, and nothing else with them.
pub fn read_number(text: &[u8]) -> Option<u32>
    ensures { result ≡ read_digits 9 text.now }
{
    read_digits(9, text)
}

#[tactic(auto, unfolding(crate::specs::Numbers::read_fraction))]
fn read_fraction(text: &[u8]) -> Option<u32>
    ensures value { result ≡ read_fraction text.now }
    ensures bound { IfSome result (λ n. n < 100) }
{
    if text.len() == 1 {
        Some(10 * read_digits(1, text)?)
    } else {
        read_digits(2, text)
    }
}

fn point_of(text: &[u8]) -> Option<usize>
    ensures value { result ≡ position is_point text.now }
{
    text.iter().position(|byte| *byte == b'.')
}

// The hundredths that an amount without a sign writes, as a discount is.
#[tactic(auto, unfolding(crate::specs::Numbers::read_hundredths))]
fn read_hundredths(text: &[u8]) -> Option<u32>
    ensures value { result ≡ read_hundredths text.now }
    ensures bound { IfSome result (λ n. n < 10 ^ 9) }
{
    match point_of(text) {
        None => Some(100 * read_digits(7, text)?),
        Some(point) => {
            let whole = read_digits(7, &text[..point])?;
            let part = read_fraction(&text[point + 1..])?;
            Some(100 * whole + part)
        }
    }
}

#[tactic(auto, unfolding(crate::specs::Numbers::read_line))]
fn read_line(text: &[u8]) -> Option<u32>
    ensures { result ≡ read_line text.now }
{
    match read_digits(4, text)? {
        0 => None,
        line => Some(line),
    }
}

#[tactic(auto, unfolding(crate::specs::Numbers::read_quantity))]
fn read_quantity(text: &[u8]) -> Option<i64>
    ensures { result ≡ read_quantity text.now }
{
    match text {
        [] => None,
        [b'-', digits @ ..] => Some(-(read_digits(4, digits)? as i64)),
        _ => Some(read_digits(4, text)? as i64),
    }
}

#[tactic(auto, unfolding(crate::specs::Numbers::read_amount))]
fn read_amount(text: &[u8]) -> Option<i64>
    ensures { result ≡ read_amount text.now }
{
    match text {
        [] => None,
        [b'-', amount @ ..] => Some(-(read_hundredths(amount)? as i64)),
        _ => Some(read_hundredths(text)? as i64),
    }
}

/// The number of a line on its ticket, 1 to 9999.
pub(crate) fn line_of(field: &[u8]) -> Result<u32, ParseError<FaultKind>>
    ensures { Gives (λ line. line) result (line_of field.now) }
{
    or_fault(read_line(field), FaultKind::BadNumber)
}

pub(crate) fn quantity_of(field: &[u8]) -> Result<i64, ParseError<FaultKind>>
    ensures { Gives (λ quantity. quantity) result (quantity_of field.now) }
{
    or_fault(read_quantity(field), FaultKind::BadNumber)
}

/// A discount, in hundredths: an amount without a sign.
pub(crate) fn discount_of(field: &[u8]) -> Result<u64, ParseError<FaultKind>>
    ensures { Gives (λ discount. discount) result (discount_of field.now) }
{
    let hundredths = or_fault(read_hundredths(field), FaultKind::BadNumber)?;
    Ok(hundredths as u64)
}

/// An amount of money, in hundredths.
pub(crate) fn amount_of(field: &[u8]) -> Result<i64, ParseError<FaultKind>>
    ensures { Gives (λ amount. amount) result (amount_of field.now) }
{
    or_fault(read_amount(field), FaultKind::BadNumber)
}
