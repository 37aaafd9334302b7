//! A report over a warehouse that is open.

ghost use Rattle.std.specs.Prelude.{◌≡◌, List, Some, Err, true, IsTrue, IfErr};
ghost use Rattle.sqlite.specs.State.{HasCleanDisk};
ghost use Rattle.wh_history.specs.Accepted.{Accepted};
ghost use Rattle.wh_history.specs.Tables.{Limits};
ghost use Rattle.wh_engine.specs.Answered.{IsReady};
ghost use Rattle.wh_engine.specs.Scanned.{ReadsThrough};
ghost use Rattle.wh_sql.specs.Answers.{state_of, WhenAtRest, WhenStored};
ghost use Rattle.wh_report.specs.Joined.{column_of};
ghost use Rattle.wh_report.specs.Output.{GoesOut, IsWorkedOut, IsOfTables, IsOfReport, of_warehouse};
ghost use Rattle.wh_report.specs.Reported.{ReportsTables, ReportsStored, Reports, column_asked};
ghost use Rattle.wh_report.specs.Request.{has_reading};
ghost use Rattle.wh_report.specs.Subject.{subject_in, reading_of};
ghost use Rattle.wh_engine.specs.declared.fault.Fault.TheVariants as faults;
ghost use Rattle.wh_report.specs.declared.output.ReportFault.TheVariants as report;
ghost use Rattle.wh_report.specs.declared.subject.Reading.{Reading};
ghost use Rattle.wh_report.specs.declared.subject.Subject.{Subject};

use crate::column::{LabelColumn, column_of};
use crate::column_labels::labels_of;
use crate::fact_sums::summary_of;
use crate::output::{ReportFault, write_whole};
use crate::request::Request;
use crate::subject::{reading_of, subject_in};
use sqlite::Alter;
use std::alloc::Global;
use std::io::Write;
use wh_engine::{Engine, Fault};
use wh_policy::Policy;

/// The column in which the labels of a request stand under a policy.
fn column_asked(policy: &Policy, request: &Request) -> Option<LabelColumn>
    ensures { result ≡ column_asked policy.now request.now }
{
    match subject_in(policy, request.attribute()) {
        Some(subject) => match reading_of(subject, request.mode()) {
            Some(which) => Some(column_of(subject, which)),
            None => None,
        },
        None => None,
    }
}

/// The report of a column's labels.
fn report_over<S: Alter>(
    alloc: Global,
    engine: &mut Engine<S>,
    request: &Request,
    column: LabelColumn,
) -> Result<Vec<u8>, ReportFault>
    ensures reads { ReadsThrough engine.old.session engine.new.session (state_of S.Store engine.old.tables) (state_of S.Store engine.new.tables) (of_warehouse result) }
    ensures writes { engine.new.writes ≡ engine.old.writes }
    ensures tables { WhenAtRest S.Store engine.old.tables engine.new.tables (λ t. ReportsTables engine.old.session.format request.now column t result) }
    ensures stored { WhenStored S.Store engine.old.tables engine.new.tables (λ stored. ReportsStored engine.old.session.format request.now column stored result) }
    ensures kinds { IfErr result IsOfTables }
{
    let labels = labels_of(alloc, engine, column)?;
    let summary = summary_of(alloc, engine, request, column, &labels)?;
    let text = request.text(alloc, &summary)?;
    Ok(text.into_bytes())
}

/// The text of the report that is asked for. Whether its attribute has a reading under the policy in force is what
/// `Request::reads` answers. `Warehouse`: the tables can't be read, and after a refusal of the database it is `Reopen`. `Inconsistent`: a row that a fact
/// names is missing, or there are more facts than can be counted.
pub fn report<S: Alter>(
    alloc: Global,
    engine: &mut Engine<S>,
    request: &Request,
) -> Result<Vec<u8>, ReportFault>
    requires { has_reading engine.old.session.policy request.now ≡ true }
    ensures reads { ReadsThrough engine.old.session engine.new.session (state_of S.Store engine.old.tables) (state_of S.Store engine.new.tables) (of_warehouse result) }
    ensures writes { engine.new.writes ≡ engine.old.writes }
    // Of any tables whose rows have values of their types, also of those that no warehouse made.
    ensures tables { WhenAtRest S.Store engine.old.tables engine.new.tables (λ t. (subject : Subject) (which : Reading)
        → subject_in engine.old.session.policy request.now.words ≡ Some subject → reading_of subject request.now.mode ≡ Some which → ReportsTables engine.old.session.format request.now (column_of subject which) t result) }
    // And of any stored rows: of those that it reads none is damaged, in the columns that it reads.
    ensures stored { WhenStored S.Store engine.old.tables engine.new.tables (λ stored. (subject : Subject) (which : Reading)
        → subject_in engine.old.session.policy request.now.words ≡ Some subject → reading_of subject request.now.mode ≡ Some which → ReportsStored engine.old.session.format request.now (column_of subject which) stored result) }
    // Of the tables of accepted commands the text is that of the history.
    ensures reported { HasCleanDisk (state_of S.Store engine.new.tables) → (limits : Limits) (commands : List Accepted) → IsReady limits commands engine.old.session (state_of S.Store engine.old.tables)
        → Reports commands request.now result }
    ensures reopen { IsTrue engine.old.session.must_reopen → (result ≡ Err (report.Warehouse faults.Reopen)) × (engine.new.tables ≡ engine.old.tables) × (engine.new.session ≡ engine.old.session) }
    ensures only { result ≡ Err (report.Warehouse faults.Reopen) → IsTrue engine.old.session.must_reopen }
    ensures kinds { IfErr result IsOfTables }
{
    if engine.must_reopen() {
        return Err(ReportFault::Warehouse(Fault::Reopen));
    }
    match column_asked(engine.policy(), request) {
        Some(column) => report_over(alloc, engine, request, column),
        None => unreachable!(),
    }
}

/// Writes a text out that was worked out.
pub fn write_worked<W: Write>(
    worked: Result<Vec<u8>, ReportFault>,
    out: &mut W,
) -> Result<(), ReportFault>
    ensures out { GoesOut worked result (W.contents out.old) (W.contents out.new) }
    ensures same { of_warehouse result ≡ of_warehouse worked }
    ensures only { result ≡ Err (report.Warehouse faults.Reopen) → worked ≡ Err (report.Warehouse faults.Reopen) }
    ensures kinds { IfErr worked IsOfTables → IfErr result IsOfReport }
{
    let text = worked?;
    write_whole(out, &text)?;
    Ok(())
}

/// Writes the report that is asked for, as `report` makes it. Where the writer failed a beginning of it went out; after any other
/// fault nothing did.
pub fn write<S: Alter, W: Write>(
    alloc: Global,
    engine: &mut Engine<S>,
    request: &Request,
    out: &mut W,
) -> Result<(), ReportFault>
    requires { has_reading engine.old.session.policy request.now ≡ true }
    ensures reads { ReadsThrough engine.old.session engine.new.session (state_of S.Store engine.old.tables) (state_of S.Store engine.new.tables) (of_warehouse result) }
    ensures writes { engine.new.writes ≡ engine.old.writes }
    ensures tables { WhenAtRest S.Store engine.old.tables engine.new.tables (λ t. (subject : Subject) (which : Reading)
        → subject_in engine.old.session.policy request.now.words ≡ Some subject → reading_of subject request.now.mode ≡ Some which → IsWorkedOut (ReportsTables engine.old.session.format request.now (column_of subject which) t) result (W.contents out.old) (W.contents out.new)) }
    ensures stored { WhenStored S.Store engine.old.tables engine.new.tables (λ stored. (subject : Subject) (which : Reading)
        → subject_in engine.old.session.policy request.now.words ≡ Some subject → reading_of subject request.now.mode ≡ Some which → IsWorkedOut (ReportsStored engine.old.session.format request.now (column_of subject which) stored) result (W.contents out.old) (W.contents out.new)) }
    ensures reported { HasCleanDisk (state_of S.Store engine.new.tables) → (limits : Limits) (commands : List Accepted) → IsReady limits commands engine.old.session (state_of S.Store engine.old.tables)
        → IsWorkedOut (Reports commands request.now) result (W.contents out.old) (W.contents out.new) }
    ensures reopen { IsTrue engine.old.session.must_reopen
        → (result ≡ Err (report.Warehouse faults.Reopen)) × (engine.new.tables ≡ engine.old.tables) × (engine.new.session ≡ engine.old.session) × (W.contents out.new ≡ W.contents out.old) }
    ensures only { result ≡ Err (report.Warehouse faults.Reopen) → IsTrue engine.old.session.must_reopen }
    ensures kinds { IfErr result IsOfReport }
{
    let worked = report(alloc, engine, request);
    write_worked(worked, out)
}
