//! Which reports can be asked for.

ghost use Rattle.std.specs.Prelude.{◌≡◌, ok_or};
ghost use Rattle.wh_day.specs.Reading.{Gives};
ghost use Rattle.wh_report.specs.Request.{read_request, range_makes, is_asked_of, subject_reads, has_reading, no_reading};
ghost use Rattle.wh_report.specs.Subject.{subject_in};
ghost use Rattle.wh_report.specs.declared.request.RequestFault.TheVariants.{BadRange};

use crate::subject::{Subject, reading_of, subject_in};
use std::alloc::Global;
use std::marker::Model;
use thiserror::Error;
use wh_batch::Mode;
use wh_day::{Day, ParseError};
use wh_policy::{AttributeType, Policy};

/// Why a report can't be asked for.
#[derive(Clone, Copy, Debug, PartialEq, Eq, Error)]
pub enum RequestFault {
    /// The policy in force has no such attribute.
    #[error("the policy in force has no such attribute")]
    NoAttribute,
    /// An attribute of this type has no value to show in this mode.
    #[error("an attribute of this type has no reading in this mode")]
    NoReading(AttributeType, Mode),
    /// The day of sale has none.
    #[error("the day of sale has no reading in this mode")]
    NoDateReading(Mode),
    /// One of the two is no day, or the first is after the last.
    #[error("this is no range of days")]
    BadRange,
}

/// A report that can be asked for.
#[derive(Debug, Drop)]
pub struct Request {
    words: String,
    mode: Mode,
    from: Day,
    to: Day,
}

impl Model for Request {
    ghost use Rattle.std.specs.Prelude.{string_bytes};
    ghost use Rattle.wh_report.specs.Asked.{Asked};

    ghost Value = { Asked };

    ghost view = { λ r. record { words = string_bytes r.words; mode = r.mode; from = r.from; to = r.to } };
}

impl Request {
    /// The request for a report by the attribute of these words, in this mode, on the sales from one day to another, both
    /// included and written `YYYY-MM-DD`; or the first fault. `Memory`: a growth was refused.
    #[tactic(auto, unfolding(crate::specs::Request::read_request))]
    pub fn read(
        alloc: Global,
        policy: &Policy,
        attribute: &str,
        mode: Mode,
        from: &[u8],
        to: &[u8],
    ) -> Result<Request, ParseError<RequestFault>>
        ensures { Gives (λ request. request) result (read_request policy.now attribute.now mode from.now to.now) }
    {
        let Some(subject) = subject_in(policy, attribute) else {
            return Err(ParseError::Fault(RequestFault::NoAttribute));
        };
        if reading_of(subject, mode).is_none() {
            return Err(ParseError::Fault(no_reading(subject, mode)));
        }
        let Some((first, last)) = read_range(from, to) else {
            return Err(ParseError::Fault(RequestFault::BadRange));
        };
        Ok(Request {
            words: String::from_str(alloc, attribute)?,
            mode,
            from: first,
            to: last,
        })
    }

    /// Whether the attribute has a reading in the mode under a policy, which may be newer than the one it was read under.
    /// Takes no memory.
    pub fn reads(&self, policy: &Policy) -> bool
        ensures { result ≡ has_reading policy.now self.now }
    {
        has_reading(policy, self.words.as_str(), self.mode)
    }

    /// The words for the attribute, as they were given.
    pub fn attribute(&self) -> &str
        ensures { result.now ≡ self.now.words }
    {
        self.words.as_str()
    }

    /// The mode that was asked for.
    pub fn mode(&self) -> Mode
        ensures { result ≡ self.now.mode }
    {
        self.mode
    }

    /// The first day of the range.
    pub fn from(&self) -> Day
        ensures { result ≡ self.now.from }
    {
        self.from
    }

    /// The last day of the range.
    pub fn to(&self) -> Day
        ensures { result ≡ self.now.to }
    {
        self.to
    }

    /// Whether the report counts the sales of a day.
    pub fn contains(&self, day: Day) -> bool
        ensures { result ≡ is_asked_of self.now day }
    {
        self.from <= day && day <= self.to
    }
}

/// Whether the attribute of these words has a reading in a mode under a policy. Takes no memory.
pub fn has_reading(policy: &Policy, words: &str, mode: Mode) -> bool
    ensures { result ≡ subject_reads mode (subject_in policy.now words.now) }
{
    match subject_in(policy, words) {
        Some(subject) => reading_of(subject, mode).is_some(),
        None => false,
    }
}

/// The first and the last day, both written `YYYY-MM-DD`, where they are a range.
pub fn read_range(from: &[u8], to: &[u8]) -> Option<(Day, Day)>
    ensures { ok_or result BadRange ≡ range_makes from.now to.now (λ first last. (first, last)) }
{
    let first = Day::read(from)?;
    let last = Day::read(to)?;
    if last < first {
        return None;
    }
    Some((first, last))
}

fn no_reading(subject: Subject, mode: Mode) -> RequestFault
    ensures { result ≡ no_reading subject mode }
{
    match subject {
        Subject::Attribute(attribute) => RequestFault::NoReading(attribute.kind, mode),
        Subject::Month | Subject::Holiday => RequestFault::NoDateReading(mode),
    }
}
