//! The words of a query.

ghost use Rattle.std.specs.Prelude.{◌≡◌, ℕ, IfOk, List, Option, Some, length};
ghost use Rattle.wh_batch.specs.QueryWords.{column_given, condition_given};
ghost use Rattle.wh_words.specs.Given.{all_words_in, as_given, given_in, words_in};
ghost use Rattle.wh_words.specs.Request.{asked_in};
ghost use Rattle.wh_words.specs.Task.{OfFile, asked, asks_of, each_given, query_by, query_command, query_of};

use crate::command::{Request, Work, mistake, over, wrong_word};
use crate::given::{has_flag, word_for, words_for};
use crate::wrong_word::{COLUMNS, CONDITIONS, TOO_MANY_COLUMNS, TOO_MANY_CONDITIONS};
use clap::ArgMatches;
use std::alloc::{AllocError, Global};
use wh_batch::{ColumnWords, ConditionWords};

/// The words of a query. Its columns and conditions have modes that are ones, or none.
#[derive(Debug, Drop)]
pub struct AskedQuery<'a> {
    /// What the sales are summed by.
    pub columns: Vec<ColumnWords<'a>>,
    /// The labels that they have to have.
    pub conditions: Vec<ConditionWords<'a>>,
    /// The first day, as it was given.
    pub from: &'a str,
    /// The last day, as it was given.
    pub to: &'a str,
    /// Whether the answer is to be a table, and not CSV.
    pub as_table: bool,
}

/// What one word of a query says.
trait OfWord<'a>: Drop {
    // What a word says, if it says anything.
    ghost said: { List ℕ → Option Self };

    /// Reads a word.
    fn of_word(word: &'a str) -> Option<Self>
        ensures { result ≡ said word.now };
}

impl<'a> OfWord<'a> for ColumnWords<'a> {
    ghost said = { column_given };

    fn of_word(word: &'a str) -> Option<ColumnWords<'a>> {
        ColumnWords::read(word)
    }
}

impl<'a> OfWord<'a> for ConditionWords<'a> {
    ghost said = { condition_given };

    fn of_word(word: &'a str) -> Option<ConditionWords<'a>> {
        ConditionWords::read(word)
    }
}

/// What each of these words says, or the first word that says nothing.
fn each_given<'a, G: OfWord<'a>>(
    alloc: Global,
    words: &[&'a str],
) -> Result<Result<Vec<G>, &'a str>, AllocError>
    ensures { IfOk result (λ given. as_given given ≡ each_given G.said (words_in words.now)) }
{
    let mut given = Vec::new(alloc);
    'words: for word in words {
        match G::of_word(*word) {
            Some(part) => given.push(part)?,
            None => return Ok(Err(*word)),
        }
    }
    Ok(Ok(given))
}

/// What each of the words of an operand or option says, or the first word that says nothing.
fn all_given<'a, G: OfWord<'a>>(
    alloc: Global,
    words: Option<&[&'a str]>,
) -> Result<Result<Vec<G>, &'a str>, AllocError>
    ensures { IfOk result (λ given. as_given given ≡ each_given G.said (all_words_in words.entry)) }
{
    match words {
        Some(words) => each_given(alloc, words),
        None => Ok(Ok(Vec::new(alloc))),
    }
}

/// How often a name was given.
fn count_of(words: Option<&[&str]>) -> usize
    ensures { result ≡ length (all_words_in words.entry) }
{
    match words {
        Some(words) => words.len(),
        None => 0,
    }
}

/// The query of columns.
fn query_by<'a>(
    alloc: Global,
    given: &ArgMatches<'a>,
    columns: Vec<ColumnWords<'a>>,
) -> Result<Request<'a>, AllocError>
    ensures { IfOk result (λ request. asked_in request ≡ Some (asked (OfFile (λ given. query_by given columns.entry.items)) (given_in given.now))) }
{
    match all_given(alloc, words_for(given, "WHERE"))? {
        Ok(conditions) => {
            let asked = AskedQuery {
                columns,
                conditions,
                from: word_for(given, "FROM"),
                to: word_for(given, "TO"),
                as_table: has_flag(given, "TABLE"),
            };
            Ok(over(given, Work::Query(asked)))
        }
        Err(word) => wrong_word(alloc, "--where", word, CONDITIONS),
    }
}

/// The query of not too many columns and conditions.
fn query_of<'a>(alloc: Global, given: &ArgMatches<'a>) -> Result<Request<'a>, AllocError>
    ensures { IfOk result (λ request. asked_in request ≡ Some (asked (OfFile query_of) (given_in given.now))) }
{
    match all_given(alloc, words_for(given, "BY"))? {
        Ok(columns) => query_by(alloc, given, columns),
        Err(word) => wrong_word(alloc, "BY", word, COLUMNS),
    }
}

/// The query of columns, for a slice.
pub(crate) fn query_request<'a>(
    alloc: Global,
    given: &ArgMatches<'a>,
) -> Result<Request<'a>, AllocError>
    ensures { IfOk result (λ request. asked_in request ≡ Some (asks_of query_command (given_in given.now))) }
{
    if 6 < count_of(words_for(given, "BY")) {
        return mistake(alloc, TOO_MANY_COLUMNS);
    }
    if 12 < count_of(words_for(given, "WHERE")) {
        return mistake(alloc, TOO_MANY_CONDITIONS);
    }
    query_of(alloc, given)
}
