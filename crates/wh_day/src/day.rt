//! Civil days.

ghost use Rattle.std.specs.Prelude.{◌≡◌, ◌≤◌, ◌≤ℤ◌, ℕ, pos, true, Some, IfSome};
ghost use Rattle.std.specs.Coded.{coded_ℕ};
ghost use Rattle.wh_day.specs.Day.{is_day, day_of_number, day_of_key, digit, two_digits, read_day, day_text, first_day, last_day, checked_day_before, year_of, month_of, day_of_month, date_number, IsDayBefore};
ghost use Rattle.jiff_core.specs.Date.{IsYmd};

use jiff::civil::{self, Date};
use std::fmt;
use std::marker::Model;

/// A day from 1900-01-01 to 9999-12-31, ordered. A contract sees the number YYYYMMDD.
///
/// That number is the key of the calendar dimension: Kimball & Ross, *The Data Warehouse Toolkit*, 3rd edition, chapter
/// 3, "Date Dimension Smart Keys".
#[derive(Clone, Copy, Debug, PartialEq, Eq, PartialOrd, Ord, Hash)]
pub struct Day {
    key: u32,
}

impl Model for Day {
    ghost Value = { ℕ };

    ghost coded = { coded_ℕ };

    ghost view = { λ d. d.key };

    ghost invariant = { λ d. is_day d.key ≡ true };

    ghost inverse = { λ n. record { key = n } };
}

/// Writes `YYYY-MM-DD`.
impl fmt::Display for Day {
    ghost use Rattle.std.specs.Prelude.{Some};
    ghost use Rattle.wh_day.specs.Day.{day_text};

    ghost output = { λ day. Some (day_text day) };

    fn fmt<W: fmt::Write>(&self, f: &mut fmt::Formatter<W>) -> fmt::Result {
        let year = self.key / 10_000;
        let month = self.key / 100 % 100;
        let day = self.key % 100;
        write!(f, "{:02}{:02}-{month:02}-{day:02}", year / 100, year % 100)
    }
}

fn digit(byte: u8) -> Option<u32>
    ensures { result ≡ digit byte }
{
    if byte.is_ascii_digit() {
        Some((byte - b'0') as u32)
    } else {
        None
    }
}

fn two_digits(tens: u8, ones: u8) -> Option<u32>
    ensures value { result ≡ two_digits tens ones }
    ensures bound { IfSome result (λ n. n ≤ 99) }
{
    let tens = digit(tens)?;
    let ones = digit(ones)?;
    Some(10 * tens + ones)
}

impl Day {
    /// The day that the bytes write as `YYYY-MM-DD`.
    pub fn read(text: &[u8]) -> Option<Day>
        // Which day, by cases on the bytes.
        ensures exact { result ≡ read_day text.now }
        // What is read is the text of a day.
        ensures found { IfSome result (λ day. (is_day day ≡ true) × (text.now ≡ day_text day)) }
        // The text of a day is read.
        ensures only { (day : ℕ) → is_day day ≡ true → text.now ≡ day_text day → result ≡ Some day }
    {
        read_day(text)
    }

    /// 1900-01-01, the first day.
    #[tactic(auto, unfolding(crate::specs::Day::is_day))]
    pub fn first() -> Day
        ensures { result ≡ first_day }
    {
        Day { key: 19_000_101 }
    }

    /// 9999-12-31, the last day.
    #[tactic(auto, unfolding(crate::specs::Day::is_day))]
    pub fn last() -> Day
        ensures { result ≡ last_day }
    {
        Day { key: 99_991_231 }
    }

    /// The number YYYYMMDD.
    pub fn key(self) -> u32
        ensures value { result ≡ self }
        ensures day { is_day self ≡ true }
    {
        self.key
    }

    /// The day of a number YYYYMMDD, if it is one.
    pub fn from_key(key: i64) -> Option<Day>
        ensures { result ≡ day_of_key key }
    {
        match u32::try_from(key) {
            Ok(number) => day_of_number(number),
            Err(_) => None,
        }
    }

    /// The day before, which the first day hasn't.
    pub fn before(self) -> Option<Day>
        // Which day, by its parts.
        ensures exact { result ≡ checked_day_before self }
        // No day lies between.
        ensures greatest { IfSome result (λ day. IsDayBefore day self) }
    {
        if self.key == 19_000_101 {
            return None;
        }
        match self.to_date().yesterday() {
            Ok(date) => Some(date_number(date)),
            Err(_) => None,
        }
    }

    /// The date of the calendar.
    pub(crate) fn to_date(self) -> Date
        ensures { IsYmd (pos (year_of self)) (pos (month_of self)) (pos (day_of_month self)) result }
    {
        let key = self.key;
        civil::date(
            (key / 10_000) as i16,
            (key / 100 % 100) as i8,
            (key % 100) as i8,
        )
    }
}

fn date_number(date: Date) -> Day
    requires { pos 1900 ≤ℤ date.year }
    ensures { result ≡ date_number date }
{
    let year = date.year() as u32;
    let month = date.month() as u32;
    let day = date.day() as u32;
    Day {
        key: year * 10_000 + month * 100 + day,
    }
}

fn day_of_number(number: u32) -> Option<Day>
    ensures { result ≡ day_of_number number }
{
    let year = number / 10_000;
    let month = number / 100 % 100;
    let day = number % 100;
    if year < 1900 || year > 9999 {
        return None;
    }
    match Date::new(year as i16, month as i8, day as i8) {
        Ok(_) => Some(Day { key: number }),
        Err(_) => None,
    }
}

#[tactic(auto, unfolding(crate::specs::Day::read_day))]
fn read_day(text: &[u8]) -> Option<Day>
    ensures { result ≡ read_day text.now }
{
    let [y1, y2, y3, y4, b'-', m1, m2, b'-', d1, d2] = text else {
        return None;
    };
    let century = two_digits(*y1, *y2)?;
    let year = two_digits(*y3, *y4)?;
    let month = two_digits(*m1, *m2)?;
    let day = two_digits(*d1, *d2)?;
    day_of_number((100 * century + year) * 10_000 + month * 100 + day)
}
