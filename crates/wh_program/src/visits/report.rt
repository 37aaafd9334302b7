//! The reports of a warehouse in a file.

ghost use Rattle.std.specs.Prelude.{◌≡◌, List, Some};
ghost use Rattle.wh_admission.specs.Admission.{current_policy};
ghost use Rattle.wh_engine.specs.Scanned.{WhenReady};
ghost use Rattle.wh_program.specs.Looking.{Looks};
ghost use Rattle.wh_program.specs.Readings.{IsReported, AnswersReport, asked_answer, asked_under};
ghost use Rattle.wh_program.specs.ReportsRead.{IsReadFor};
ghost use Rattle.wh_words.specs.Task.{report_words};
ghost use Rattle.wh_program.specs.Standing.{DatabaseContent, Rests};
ghost use Rattle.wh_program.specs.Tasks.{SparesOthers};
ghost use Rattle.wh_program.specs.Warehouse.{AnswersShut, IsNoFile};

use crate::host::Host;
use crate::lines::answer::Answer;
use crate::lines::reporting::{report_answer, request_answer};
use crate::visits::opened::{Work, work_on};
use sqlite::Alter;
use std::alloc::{AllocError, Global};
use wh_day::ParseError;
use wh_engine::Engine;
use wh_report::{Request, report};
use wh_words::AskedReport;

/// The answer to the words of a report, over a warehouse that is open.
pub fn asked_answer<S: Alter>(
    alloc: Global,
    engine: &mut Engine<S>,
    asked: &AskedReport,
) -> Result<Answer, AllocError>
    ensures looks { Looks S.Store engine.old engine.new }
    ensures reported { WhenReady S.Store engine.old engine.new (λ limits commands. IsReadFor (asked_answer commands (asked_under (current_policy commands) (report_words asked.now))) result limits commands) }
{
    let policy = engine.policy();
    let from = asked.from.as_bytes();
    let to = asked.to.as_bytes();
    match Request::read(alloc, policy, asked.attribute, asked.mode, from, to) {
        Ok(request) => report_answer(alloc, report(alloc, engine, &request)),
        Err(ParseError::Fault(fault)) => request_answer(alloc, fault),
        Err(ParseError::Memory) => Err(AllocError),
    }
}

/// Reports what a warehouse has sold.
#[derive(Clone, Copy, Drop)]
struct Reporting<'a> {
    asked: AskedReport<'a>,
}

impl Work for Reporting<'_> {
    ghost does = { λ reporting. IsReported (report_words reporting.asked) };

    fn work<S: Alter>(self, alloc: Global, engine: &mut Engine<S>) -> Result<Answer, AllocError> {
        asked_answer(alloc, engine, &self.asked)
    }
}

/// Tells what the warehouse in a file has sold.
pub fn visit_report<H: Host>(
    alloc: Global,
    file: &str,
    asked: AskedReport<'_>,
    host: &mut H,
) -> Result<Answer, AllocError>
    ensures answers { (content : DatabaseContent) → H.stores host.old file.now (Rests content) → AnswersReport (H.refuses host.old) (H.stores host.new file.now) content file.now (report_words asked.entry) result }
    ensures others { SparesOthers (H.stores host.old) (H.stores host.new) (Some file.now) }
    ensures shut { H.shut host.old file.now → AnswersShut (host.new ≡ host.old) (IsNoFile file.now) result }
{
    work_on(alloc, file, Reporting { asked }, host)
}
