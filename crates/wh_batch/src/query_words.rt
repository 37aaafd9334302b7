//! The words that ask for a query.

ghost use Rattle.std.specs.Prelude.{◌≡◌, Some, option_map};
ghost use Rattle.wh_batch.specs.Mode.{mode_of_word};
ghost use Rattle.wh_batch.specs.QueryWords.{column_given, condition_given, parted_at};

use crate::mode::Mode;
use std::marker::Model;

/// The words for a column.
#[derive(Debug, Drop)]
pub struct ColumnWords<'w> {
    /// The words for the attribute.
    pub attribute: &'w str,
    /// The mode. Where none is given, `was` is meant, if the attribute has that reading under the policy, and else `is`.
    pub mode: Option<Mode>,
}

impl<'w> Model for ColumnWords<'w> {
    ghost use Rattle.wh_batch.specs.QueryWords.{ColumnGiven};

    ghost Value = { ColumnGiven };

    ghost view = { λ c. record { attribute = c.attribute.now; mode = c.mode } };
}

/// The words for a condition.
#[derive(Debug, Drop)]
pub struct ConditionWords<'w> {
    /// The column.
    pub column: ColumnWords<'w>,
    /// The label that sales have to have there.
    pub label: &'w str,
}

impl<'w> Model for ConditionWords<'w> {
    ghost use Rattle.wh_batch.specs.QueryWords.{ConditionGiven};

    ghost Value = { ConditionGiven };

    ghost view = { λ c. record { column = c.column; label = c.label.now } };
}

fn at_colon(word: &str) -> Option<(&str, &str)>
    ensures { option_map (λ parts. (parts.0.now, parts.1.now)) result ≡ parted_at 58 word.now }
{
    word.split_once(':')
}

fn at_equals(word: &str) -> Option<(&str, &str)>
    ensures { option_map (λ parts. (parts.0.now, parts.1.now)) result ≡ parted_at 61 word.now }
{
    word.split_once('=')
}

/// The column of an attribute, in the mode of a word.
fn column_in<'w>(attribute: &'w str, mode: &str) -> Option<ColumnWords<'w>>
    ensures { result ≡ option_map (λ found. record { attribute = attribute.now; mode = Some found }) (mode_of_word mode.now) }
{
    match Mode::from_word(mode) {
        Some(mode) => Some(ColumnWords {
            attribute,
            mode: Some(mode),
        }),
        None => None,
    }
}

impl<'w> ColumnWords<'w> {
    /// The column of a word, `ATTRIBUTE` or `ATTRIBUTE:MODE`, if its mode is one.
    #[tactic(auto, unfolding(crate::specs::QueryWords::column_given))]
    pub fn read(word: &'w str) -> Option<ColumnWords<'w>>
        ensures { result ≡ column_given word.now }
    {
        match at_colon(word) {
            Some((attribute, mode)) => column_in(attribute, mode),
            None => Some(ColumnWords {
                attribute: word,
                mode: None,
            }),
        }
    }
}

impl<'w> ConditionWords<'w> {
    /// The condition of a word, `ATTRIBUTE=LABEL` or `ATTRIBUTE:MODE=LABEL`, if it has an equals sign and its mode is one.
    #[tactic(auto, unfolding(crate::specs::QueryWords::condition_given))]
    pub fn read(word: &'w str) -> Option<ConditionWords<'w>>
        ensures { result ≡ condition_given word.now }
    {
        match at_equals(word) {
            Some((column, label)) => match ColumnWords::read(column) {
                Some(column) => Some(ConditionWords { column, label }),
                None => None,
            },
            None => None,
        }
    }
}
