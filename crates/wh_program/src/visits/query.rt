//! The queries of a warehouse in a file.

ghost use Rattle.std.specs.Prelude.{◌≡◌, List, Some};
ghost use Rattle.wh_admission.specs.Admission.{current_policy};
ghost use Rattle.wh_engine.specs.Scanned.{WhenReady};
ghost use Rattle.wh_program.specs.Looking.{Looks};
ghost use Rattle.wh_program.specs.Readings.{AnswersQuery, IsAnsweredBy, form_asked, query_answered};
ghost use Rattle.wh_program.specs.ReportsRead.{IsReadFor};
ghost use Rattle.wh_words.specs.Task.{query_words};
ghost use Rattle.wh_program.specs.Standing.{DatabaseContent, Rests};
ghost use Rattle.wh_program.specs.Tasks.{SparesOthers};
ghost use Rattle.wh_program.specs.Warehouse.{AnswersShut, IsNoFile};

use crate::host::Host;
use crate::lines::answer::Answer;
use crate::lines::reporting::{report_answer, request_answer};
use crate::visits::opened::{Work, work_on};
use sqlite::Alter;
use std::alloc::{AllocError, Global};
use wh_day::ParseError;
use wh_engine::Engine;
use wh_query::{Form, Query, query};
use wh_words::AskedQuery;

/// The form of the answer.
fn form_of(as_table: bool) -> Form
    ensures { result ≡ form_asked as_table }
{
    if as_table { Form::Table } else { Form::Csv }
}

/// The answer to the words of a query, over a warehouse that is open.
pub fn query_answer<S: Alter>(
    alloc: Global,
    engine: &mut Engine<S>,
    asked: &AskedQuery,
) -> Result<Answer, AllocError>
    ensures looks { Looks S.Store engine.old engine.new }
    ensures answered { WhenReady S.Store engine.old engine.new (λ limits commands. IsReadFor (query_answered (query_words asked.now) commands) result limits commands) }
{
    let policy = engine.policy();
    let from = asked.from.as_bytes();
    let to = asked.to.as_bytes();
    let columns = asked.columns.as_slice();
    let conditions = asked.conditions.as_slice();
    match Query::read(alloc, policy, columns, conditions, from, to) {
        Ok(read) => {
            let wanted = read.in_form(form_of(asked.as_table));
            report_answer(alloc, query(alloc, engine, &wanted))
        }
        Err(ParseError::Fault(fault)) => request_answer(alloc, fault),
        Err(ParseError::Memory) => Err(AllocError),
    }
}

/// Answers a query of what a warehouse has sold.
#[derive(Drop)]
struct Querying<'a> {
    asked: AskedQuery<'a>,
}

impl Work for Querying<'_> {
    ghost does = { λ querying. IsAnsweredBy (query_answered (query_words querying.asked)) };

    fn work<S: Alter>(self, alloc: Global, engine: &mut Engine<S>) -> Result<Answer, AllocError> {
        query_answer(alloc, engine, &self.asked)
    }
}

/// Tells what the warehouse in a file has sold, by some attributes, for a slice of its sales.
pub fn visit_query<H: Host>(
    alloc: Global,
    file: &str,
    asked: AskedQuery<'_>,
    host: &mut H,
) -> Result<Answer, AllocError>
    ensures answers { (content : DatabaseContent) → H.stores host.old file.now (Rests content) → AnswersQuery (H.refuses host.old) (H.stores host.new file.now) content file.now (query_words asked.entry) result }
    ensures others { SparesOthers (H.stores host.old) (H.stores host.new) (Some file.now) }
    ensures shut { H.shut host.old file.now → AnswersShut (host.new ≡ host.old) (IsNoFile file.now) result }
{
    work_on(alloc, file, Querying { asked }, host)
}
