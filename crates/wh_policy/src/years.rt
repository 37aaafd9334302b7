//! Reads the years of a calendar.

ghost use Rattle.wh_day.specs.Reading.{Gives};
ghost use Rattle.toml.specs.View.{view};
ghost use Rattle.wh_policy.specs.Years.{years_of};

use crate::fault::PolicyFault;
use crate::place::{Place, PlacedFault};
use crate::policy::Years;
use toml::Value;
use wh_day::ParseError;

/// The first year that a calendar may have.
pub const FIRST_YEAR: i64 = 1900;

/// The last one.
pub const LAST_YEAR: i64 = 2199;

/// The most years of a calendar.
pub const MOST_YEARS: i64 = 30;

/// The key at fault: that of the first year where it is none, else that of the last.
fn wrong_key(first: &Value) -> &'static str {
    match first.as_integer() {
        Some(first) if FIRST_YEAR <= first && first <= LAST_YEAR => "last_year",
        _ => "first_year",
    }
}

/// The years from one value to another.
#[tactic(auto, unfolding(crate::specs::Years::years_of))]
pub(crate) fn years_of<'a>(
    first: &'a Value,
    last: &'a Value,
) -> Result<Years, ParseError<PlacedFault<'a>>>
    ensures { Gives (λ years. years) result (years_of (view first.now) (view last.now)) }
{
    match (first.as_integer(), last.as_integer()) {
        (Some(first), Some(last))
            if FIRST_YEAR <= first
                && last <= LAST_YEAR
                && first <= last
                && last < first + MOST_YEARS => {
            Ok(Years {
                first: first as u16,
                last: last as u16,
            })
        }
        _ => Err(
            Place::of_file()
                .at(wrong_key(first))
                .fault(PolicyFault::BadYears),
        ),
    }
}
