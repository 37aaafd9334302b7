//! The queries that a list asks for, over one open of a warehouse.

ghost use Rattle.std.specs.Prelude.{◌≡◌, Some};
ghost use Rattle.wh_program.specs.QueryLists.{AnswersQueries, LacksQueries};
ghost use Rattle.wh_program.specs.Readings.{query_answered};
ghost use Rattle.wh_program.specs.Standing.{DatabaseContent, Rests};
ghost use Rattle.wh_program.specs.Tasks.{SparesOthers};
ghost use Rattle.wh_program.specs.Warehouse.{AnswersShut, IsNoFileOr};
ghost use Rattle.wh_words.specs.Task.{query_words};

use crate::host::{Host, manifest_file_of};
use crate::lines::answer::Answer;
use crate::lines::{bad_manifest, no_file};
use crate::visits::lists::{Listing, Question};
use crate::visits::opened::work_on;
use crate::visits::query::query_answer;
use sqlite::Alter;
use std::alloc::{AllocError, Global};
use wh_day::ParseError;
use wh_engine::Engine;
use wh_words::{AskedQuery, QueryList};

impl Question for AskedQuery<'_> {
    ghost answered = { λ asked. query_answered (query_words asked) };

    fn answer<S: Alter>(
        &self,
        alloc: Global,
        engine: &mut Engine<S>,
    ) -> Result<Answer, AllocError> {
        query_answer(alloc, engine, self)
    }
}

/// Tells what the warehouse in a file has sold, by the queries that a list asks for. The list is read first.
pub fn queries<H: Host>(
    alloc: Global,
    file: &str,
    list: &str,
    host: &mut H,
) -> Result<Answer, AllocError>
    ensures answers { (content : DatabaseContent) → H.stores host.old file.now (Rests content)
        → AnswersQueries (H.holds host.old) (H.refuses host.old) (H.stores host.new file.now) content file.now list.now result }
    ensures others { SparesOthers (H.stores host.old) (H.stores host.new) (Some file.now) }
    ensures shut { H.shut host.old file.now → AnswersShut (host.new ≡ host.old) (IsNoFileOr file.now (LacksQueries (H.holds host.old) list.now)) result }
{
    let Some(text) = manifest_file_of(alloc, list, host)? else {
        return no_file(alloc, list);
    };
    let read = QueryList::read(alloc, &text)?;
    match read.queries(alloc) {
        Ok(asked) => {
            let listed = asked.as_slice();
            work_on(alloc, file, Listing { listed }, host)
        }
        Err(ParseError::Fault(bad)) => bad_manifest(alloc, bad),
        Err(ParseError::Memory) => Err(AllocError),
    }
}
