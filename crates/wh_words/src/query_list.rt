//! Lists of queries, a line of words each.

ghost use Rattle.std.specs.Prelude.{◌≡◌, ◌==◌, ◌∷◌, IfOk, codes, map, string_bytes};
ghost use Rattle.std.specs.List.{position};
ghost use Rattle.wh_day.specs.Reading.{Gives};
ghost use Rattle.wh_words.specs.Line.{Passed as PassedOver, first_line, lines_of};
ghost use Rattle.wh_words.specs.QueryList.{IsAdded, line_says, meaning_says, queries_from, queries_of, said_in, says, says_of, task_says};
ghost use Rattle.wh_words.specs.Asked.{asked_by};
ghost use Rattle.wh_words.specs.Request.{asked_in};
ghost use Rattle.wh_words.specs.Task.{query_words};

use crate::command::{Request, Task, Work, parse};
use crate::line::{Line, read_line};
use crate::query::AskedQuery;
use std::alloc::{AllocError, Global};
use std::marker::Model;
use wh_batch::BadManifest;
use wh_day::ParseError;

/// The lines of a list of queries, each with the words of the whole command. A contract sees them as the queries that they ask for, or the
/// first line that is bad.
#[derive(Debug, Drop)]
pub struct QueryList {
    lines: Vec<Line>,
}

impl Model for QueryList {
    ghost use Rattle.std.specs.Prelude.{List, Result, map};
    ghost use Rattle.wh_batch.specs.declared.manifest.BadManifest.{BadManifest as BadLine};
    ghost use Rattle.wh_words.specs.QueryList.{queries_from, says};
    ghost use Rattle.wh_words.specs.Task.{QueryWords};

    ghost Value = { Result (List QueryWords) BadLine };

    ghost view = { λ list. queries_from 1 (map says list.lines.items) };
}

/// The words of the whole query, over any warehouse.
fn whole_words(alloc: Global, mut words: Vec<String>) -> Result<Vec<String>, AllocError>
    ensures { IfOk result (λ whole. map string_bytes whole.items ≡ codes "query" ∷ codes "FILE" ∷ map string_bytes words.items) }
{
    words.insert(0, String::from_str(alloc, "FILE")?)?;
    words.insert(0, String::from_str(alloc, "query")?)?;
    Ok(words)
}

/// What is kept of a line that is passed over.
fn passed_line(line: &[u8]) -> Line
    ensures { says result ≡ meaning_says line.now PassedOver }
{
    match str::from_utf8(line) {
        Ok(_) => Line::Passed,
        Err(_) => Line::NoCommand,
    }
}

/// What is kept of a line.
fn kept_line(alloc: Global, line: &[u8]) -> Result<Line, AllocError>
    ensures { IfOk result (λ kept. says kept ≡ line_says line.now) }
{
    match read_line(alloc, line)? {
        Line::Passed => Ok(passed_line(line)),
        Line::NoCommand => Ok(Line::NoCommand),
        Line::Words(words) => Ok(Line::Words(whole_words(alloc, words)?)),
    }
}

/// The place of the first line end.
fn line_end(bytes: &[u8]) -> Option<usize>
    ensures { result ≡ position (λ b. b == 10) bytes.now }
{
    bytes.iter().position(|byte| *byte == b'\n')
}

/// The bytes before the first line end, and those behind it; or all bytes.
fn first_line(bytes: &[u8]) -> (&[u8], &[u8])
    ensures { (result.0.now, result.1.now) ≡ first_line bytes.now }
{
    match line_end(bytes) {
        Some(place) => (&bytes[..place], &bytes[place + 1..]),
        None => (bytes, &[]),
    }
}

/// What is kept of the lines of a text.
fn kept_lines(alloc: Global, bytes: &[u8]) -> Result<Vec<Line>, AllocError>
    ensures { IfOk result (λ kept. map says kept.items ≡ map line_says (lines_of bytes.now)) }
{
    let mut kept = Vec::new(alloc);
    let mut rest = bytes;
    'lines: for _ in 0..u64::MAX {
        if rest.is_empty() {
            return Ok(kept);
        }
        let (line, others) = first_line(rest);
        kept.push(kept_line(alloc, line)?)?;
        rest = others;
    }
    // Memory has no room for so many.
    Err(AllocError)
}

/// What a line of a list says.
#[derive(Debug, Drop)]
enum Said<'a> {
    Nothing,
    NoQuery,
    Query(AskedQuery<'a>),
}

/// What a request says.
fn said_of(request: Request<'_>) -> Said<'_>
    ensures { said_in result ≡ says_of (asked_in request.entry) }
{
    match request {
        Request::Task(
            Task::Over {
                work: Work::Query(asked),
                ..
            },
        ) => Said::Query(asked),
        _ => Said::NoQuery,
    }
}

/// What the words of a whole command say.
fn said_by_words<'a>(alloc: Global, words: &'a [String]) -> Result<Said<'a>, AllocError>
    ensures { IfOk result (λ said. said_in said ≡ task_says (asked_by (map string_bytes words.now))) }
{
    match parse(alloc, words) {
        Ok(request) => Ok(said_of(request)),
        Err(AllocError) => Err(AllocError),
    }
}

/// What a line says.
fn said_by<'a>(alloc: Global, line: &'a Line) -> Result<Said<'a>, AllocError>
    ensures { IfOk result (λ said. said_in said ≡ says line.now) }
{
    match line {
        Line::Passed => Ok(Said::Nothing),
        Line::NoCommand => Ok(Said::NoQuery),
        Line::Words(words) => said_by_words(alloc, words),
    }
}

/// Adds the query that a line says, if it says one. Whether the line is good.
fn add_said<'a>(queries: &mut Vec<AskedQuery<'a>>, said: Said<'a>) -> Result<bool, AllocError>
    ensures { IfOk result (λ is_good. IsAdded (said_in said.entry) (map query_words queries.old.items) (map query_words queries.new.items) is_good) }
{
    match said {
        Said::Nothing => Ok(true),
        Said::NoQuery => Ok(false),
        Said::Query(query) => {
            queries.push(query)?;
            Ok(true)
        }
    }
}

/// The queries of lines, or the first that says no query.
fn queries_from<'a>(
    alloc: Global,
    lines: &'a [Line],
) -> Result<Vec<AskedQuery<'a>>, ParseError<BadManifest>>
    ensures { Gives (λ queries. map query_words queries.items) result (queries_from 1 (map says lines.now)) }
{
    let mut queries = Vec::new(alloc);
    'lines: for (above, line) in lines.iter().enumerate() {
        match said_by(alloc, line) {
            Ok(said) => {
                if !add_said(&mut queries, said)? {
                    let number = above as u64 + 1;
                    return Err(ParseError::Fault(BadManifest { number }));
                }
            }
            Err(AllocError) => return Err(ParseError::Memory),
        }
    }
    Ok(queries)
}

impl QueryList {
    /// The lines of a list.
    #[tactic(auto, unfolding(crate::specs::QueryList::queries_of))]
    pub fn read(alloc: Global, bytes: &[u8]) -> Result<QueryList, AllocError>
        ensures { IfOk result (λ list. list ≡ queries_of bytes.now) }
    {
        let lines = kept_lines(alloc, bytes)?;
        Ok(QueryList { lines })
    }

    /// The queries, in the order of the list.
    pub fn queries(&self, alloc: Global) -> Result<Vec<AskedQuery<'_>>, ParseError<BadManifest>>
        ensures { Gives (λ queries. map query_words queries.items) result self.now }
    {
        queries_from(alloc, self.lines.as_slice())
    }
}
