//! The holidays of a calendar.

ghost use Rattle.std.specs.Prelude.{◌≡◌, ◌++◌, ◌∷◌, [], false, OnOk, OnErr, option_map, option_copied, find};
ghost use Rattle.std.specs.List.{list_any};
ghost use Rattle.wh_day.specs.Holidays.{is_on, HaveDistinctDays, name_on};

use crate::day::Day;
use crate::value::Value;
use std::alloc::{AllocError, Global};
use std::marker::Model;

/// A day with a name.
#[derive(Debug, Drop)]
pub struct Holiday {
    /// The day. A contract sees its number YYYYMMDD.
    pub day: Day,
    /// What the calendar calls it.
    pub name: Value,
}

/// The holidays of a calendar, each day once. A contract sees the list.
#[derive(Debug, Drop)]
pub struct Holidays {
    list: Vec<Holiday>,
}

impl Model for Holidays {
    ghost use Rattle.std.specs.Prelude.{List};
    ghost use Rattle.wh_day.specs.declared.holiday.Holiday.{Holiday};

    ghost Value = { List Holiday };

    ghost use Rattle.wh_day.specs.Holidays.{HaveDistinctDays};

    ghost view = { λ h. h.list.items };

    ghost invariant = { λ h. HaveDistinctDays h.list.items };
}

impl Holidays {
    /// No holiday yet.
    pub fn new(alloc: Global) -> Holidays
        ensures { result ≡ [] }
    {
        Holidays {
            list: Vec::new(alloc),
        }
    }

    /// The holidays in the order in which they were added.
    pub fn as_slice(&self) -> &[Holiday]
        ensures value { result.now ≡ self.now }
        ensures distinct { HaveDistinctDays self.now }
    {
        self.list.as_slice()
    }

    /// Whether the day is a holiday.
    pub fn has(&self, day: Day) -> bool
        ensures { result ≡ list_any (is_on day) self.now }
    {
        is_taken(self.as_slice(), day)
    }

    /// The name of the day, where it is a holiday.
    pub fn name(&self, day: Day) -> Option<&Value>
        ensures { option_copied result ≡ name_on self.now day }
    {
        match find_on(self.as_slice(), day) {
            Some(holiday) => Some(&holiday.name),
            None => None,
        }
    }

    /// Adds a holiday, on a day that isn't one yet (`has`). After an `Err` the holidays are those before.
    pub fn push(&mut self, holiday: Holiday) -> Result<(), AllocError>
        requires { list_any (is_on holiday.day) self.old ≡ false }
        ensures ok { OnOk result (self.new ≡ self.old ++ holiday ∷ []) }
        ensures err { OnErr result (self.new ≡ self.old) }
    {
        self.list.push(holiday)?;
        Ok(())
    }
}

fn is_taken(holidays: &[Holiday], day: Day) -> bool
    ensures { result ≡ list_any (is_on day) holidays.now }
{
    holidays.iter().any(|holiday| holiday.day == day)
}

fn find_on(holidays: &[Holiday], day: Day) -> Option<&Holiday>
    ensures { option_copied result ≡ find (is_on day) holidays.now }
{
    holidays.iter().find(|holiday| holiday.day == day)
}
