//! Queries over a warehouse that is open.

ghost use Rattle.std.specs.Prelude.{◌≡◌, ◌++◌, List, Err, true, IsTrue, IfOk, IfErr, OnOk, map};
ghost use Rattle.std.specs.Option.{option_to_list};
ghost use Rattle.sqlite.specs.State.{HasCleanDisk};
ghost use Rattle.wh_history.specs.Accepted.{Accepted};
ghost use Rattle.wh_history.specs.Tables.{Limits};
ghost use Rattle.wh_engine.specs.Answered.{IsReady};
ghost use Rattle.wh_engine.specs.Scanned.{ReadsThrough};
ghost use Rattle.wh_engine.specs.declared.fault.Fault.TheVariants as faults;
ghost use Rattle.wh_sql.specs.Answers.{state_of, WhenAtRest, WhenStored};
ghost use Rattle.wh_report.specs.Output.{GoesOut, IsWorkedOut, IsOfTables, IsOfReport, of_warehouse};
ghost use Rattle.wh_report.specs.Reported.{column_asked};
ghost use Rattle.wh_report.specs.declared.output.ReportFault.TheVariants as report;
ghost use Rattle.wh_query.specs.Answered.{columns_asked, report_fault, lead_in, SumsTables, AnswersTables, AreLeads, SumsStored, AnswersStored, Answers};
ghost use Rattle.wh_query.specs.Asked.{alone, condition_columns, query_reads};
ghost use Rattle.wh_query.specs.Led.{lead_of};

use crate::asked::{Column, Condition, Query};
use crate::fault::SaleFault;
use crate::led::{LedColumn, push_led};
use crate::lines::Lines;
use crate::sums::QuerySums;
use crate::text::text_in;
use sqlite::Alter;
use std::alloc::{AllocError, Global};
use std::io::Write;
use wh_engine::{Engine, Fault};
use wh_policy::{Format, Policy};
use wh_report::{
    LabelColumn, ReportFault, column_of, labels_of, reading_of, subject_in, write_worked,
};
use wh_sql::facts_table;

/// Why a sale isn't counted, as a fault of the query. A row that a sale names for a label isn't there; or there are more
/// sales than can be counted.
fn report_fault(format: Format, fault: SaleFault) -> ReportFault
    ensures { result ≡ report_fault format fault }
{
    match fault {
        SaleFault::Memory => ReportFault::Warehouse(Fault::Memory),
        SaleFault::NoLabel(column) => ReportFault::Inconsistent(column.table()),
        SaleFault::Damaged => ReportFault::Inconsistent(facts_table(format)),
    }
}

/// The column in which the labels of one that is asked for stand under a policy.
fn column_asked(policy: &Policy, column: &Column) -> Option<LabelColumn>
    ensures { result ≡ column_asked policy.now (alone column.now) }
{
    match subject_in(policy, column.words()) {
        Some(subject) => match reading_of(subject, column.mode()) {
            Some(which) => Some(column_of(subject, which)),
            None => None,
        },
        None => None,
    }
}

/// Adds the column that was found, if one was.
fn push_some(found: &mut Vec<LabelColumn>, column: Option<LabelColumn>) -> Result<(), AllocError>
    ensures { OnOk result (found.new.items ≡ found.old.items ++ option_to_list column) }
{
    if let Some(column) = column {
        found.push(column)?;
    }
    Ok(())
}

/// Those of several that are asked for.
fn columns_asked(
    alloc: Global,
    policy: &Policy,
    columns: &[Column],
) -> Result<Vec<LabelColumn>, AllocError>
    ensures { IfOk result (λ found. found.items ≡ columns_asked policy.now columns.now) }
{
    let mut found = Vec::new(alloc);
    'columns: for column in columns {
        push_some(&mut found, column_asked(policy, column))?;
    }
    Ok(found)
}

/// Those of the conditions.
fn filters_asked(
    alloc: Global,
    policy: &Policy,
    conditions: &[Condition],
) -> Result<Vec<LabelColumn>, AllocError>
    ensures { IfOk result (λ found. found.items ≡ columns_asked policy.now (condition_columns conditions.now)) }
{
    let mut found = Vec::new(alloc);
    'conditions: for condition in conditions {
        push_some(&mut found, column_asked(policy, condition.column()))?;
    }
    Ok(found)
}

/// The labels of several columns, under the keys of facts.
fn led_columns<S: Alter>(
    alloc: Global,
    engine: &mut Engine<S>,
    columns: &[LabelColumn],
) -> Result<Vec<LedColumn>, Fault>
    ensures reads { ReadsThrough engine.old.session engine.new.session (state_of S.Store engine.old.tables) (state_of S.Store engine.new.tables) result }
    ensures writes { engine.new.writes ≡ engine.old.writes }
    ensures led { WhenAtRest S.Store engine.old.tables engine.new.tables (λ t. IfOk result (λ leds. map lead_of leds.items ≡ map (lead_in t) columns.now)) }
    ensures stored { WhenStored S.Store engine.old.tables engine.new.tables (λ stored. IfOk result (λ leds. AreLeads stored columns.now (map lead_of leds.items))) }
{
    let mut leds = Vec::new(alloc);
    'columns: for column in columns {
        let labels = labels_of(alloc, engine, *column)?;
        push_led(&mut leds, *column, labels)?;
    }
    Ok(leds)
}

/// What the sales of the slice come to. `Memory`: also where there are more facts than a `u64` counts.
fn lines_of<'r, S: Alter>(
    alloc: Global,
    engine: &mut Engine<S>,
    query: &'r Query,
    filters: &'r [LedColumn],
    columns: &'r [LedColumn],
) -> Result<Lines<'r>, ReportFault>
    ensures reads { ReadsThrough engine.old.session engine.new.session (state_of S.Store engine.old.tables) (state_of S.Store engine.new.tables) (of_warehouse result) }
    ensures writes { engine.new.writes ≡ engine.old.writes }
    ensures sums { WhenAtRest S.Store engine.old.tables engine.new.tables (λ t. SumsTables engine.old.session.format query.now (map lead_of filters.now) (map lead_of columns.now) t result) }
    ensures stored { WhenStored S.Store engine.old.tables engine.new.tables (λ stored. SumsStored engine.old.session.format query.now (map lead_of filters.now) (map lead_of columns.now) stored result) }
    ensures kinds { IfErr result IsOfTables }
{
    let mut sums = QuerySums::new(alloc, query, filters, columns);
    let format = engine.format();
    engine.tally_links(&mut sums)?;
    match sums.into_lines() {
        Ok(lines) => Ok(lines),
        Err(fault) => Err(report_fault(format, fault)),
    }
}

/// The answer over columns that were found under the policy in force.
fn answer_over<S: Alter>(
    alloc: Global,
    engine: &mut Engine<S>,
    query: &Query,
    filters: &[LabelColumn],
    columns: &[LabelColumn],
) -> Result<Vec<u8>, ReportFault>
    ensures reads { ReadsThrough engine.old.session engine.new.session (state_of S.Store engine.old.tables) (state_of S.Store engine.new.tables) (of_warehouse result) }
    ensures writes { engine.new.writes ≡ engine.old.writes }
    ensures tables { WhenAtRest S.Store engine.old.tables engine.new.tables (λ t. AnswersTables engine.old.session.format query.now filters.now columns.now t result) }
    ensures stored { WhenStored S.Store engine.old.tables engine.new.tables (λ stored. AnswersStored engine.old.session.format query.now filters.now columns.now stored result) }
    ensures kinds { IfErr result IsOfTables }
{
    let format = engine.format();
    let filters = led_columns(alloc, engine, filters)?;
    let columns = led_columns(alloc, engine, columns)?;
    let lines = lines_of(alloc, engine, query, filters.as_slice(), columns.as_slice())?;
    match text_in(alloc, query, &lines) {
        Ok(text) => Ok(text),
        Err(fault) => Err(report_fault(format, fault)),
    }
}

/// The answer to a query. Whether each of its columns has a reading under the policy in force is what `Query::reads` answers.
/// `Warehouse`: the tables can't be read, and after a refusal of the database it is `Reopen`. `Inconsistent`: a row that a fact
/// names is missing, or there are more facts than can be counted.
pub fn query<S: Alter>(
    alloc: Global,
    engine: &mut Engine<S>,
    query: &Query,
) -> Result<Vec<u8>, ReportFault>
    requires { query_reads engine.old.session.policy query.now ≡ true }
    ensures reads { ReadsThrough engine.old.session engine.new.session (state_of S.Store engine.old.tables) (state_of S.Store engine.new.tables) (of_warehouse result) }
    ensures writes { engine.new.writes ≡ engine.old.writes }
    // Of any tables whose rows have values of their types, also of those that no warehouse made.
    ensures tables { WhenAtRest S.Store engine.old.tables engine.new.tables (λ t.
        AnswersTables engine.old.session.format query.now (columns_asked engine.old.session.policy (condition_columns query.now.conditions)) (columns_asked engine.old.session.policy query.now.columns) t result) }
    // And of any stored rows: of those that it reads none is damaged, in the columns that it reads.
    ensures stored { WhenStored S.Store engine.old.tables engine.new.tables (λ stored.
        AnswersStored engine.old.session.format query.now (columns_asked engine.old.session.policy (condition_columns query.now.conditions)) (columns_asked engine.old.session.policy query.now.columns) stored result) }
    // Of the tables of accepted commands the text is that of the history.
    ensures answered { HasCleanDisk (state_of S.Store engine.new.tables) → (limits : Limits) (commands : List Accepted) → IsReady limits commands engine.old.session (state_of S.Store engine.old.tables)
        → Answers commands query.now result }
    ensures reopen { IsTrue engine.old.session.must_reopen → (result ≡ Err (report.Warehouse faults.Reopen)) × (engine.new.tables ≡ engine.old.tables) × (engine.new.session ≡ engine.old.session) }
    ensures only { result ≡ Err (report.Warehouse faults.Reopen) → IsTrue engine.old.session.must_reopen }
    ensures kinds { IfErr result IsOfTables }
{
    if engine.must_reopen() {
        return Err(ReportFault::Warehouse(Fault::Reopen));
    }
    let filters = filters_asked(alloc, engine.policy(), query.conditions())?;
    let columns = columns_asked(alloc, engine.policy(), query.columns())?;
    answer_over(alloc, engine, query, filters.as_slice(), columns.as_slice())
}

/// Writes the answer to a query, as `query` makes it. Where the writer failed a beginning of it went out; after any other
/// fault nothing did.
pub fn write<S: Alter, W: Write>(
    alloc: Global,
    engine: &mut Engine<S>,
    asked: &Query,
    out: &mut W,
) -> Result<(), ReportFault>
    requires { query_reads engine.old.session.policy asked.now ≡ true }
    ensures reads { ReadsThrough engine.old.session engine.new.session (state_of S.Store engine.old.tables) (state_of S.Store engine.new.tables) (of_warehouse result) }
    ensures writes { engine.new.writes ≡ engine.old.writes }
    ensures tables { WhenAtRest S.Store engine.old.tables engine.new.tables (λ t.
        IsWorkedOut (AnswersTables engine.old.session.format asked.now (columns_asked engine.old.session.policy (condition_columns asked.now.conditions)) (columns_asked engine.old.session.policy asked.now.columns) t) result (W.contents out.old) (W.contents out.new)) }
    ensures stored { WhenStored S.Store engine.old.tables engine.new.tables (λ stored.
        IsWorkedOut (AnswersStored engine.old.session.format asked.now (columns_asked engine.old.session.policy (condition_columns asked.now.conditions)) (columns_asked engine.old.session.policy asked.now.columns) stored) result (W.contents out.old) (W.contents out.new)) }
    ensures answered { HasCleanDisk (state_of S.Store engine.new.tables) → (limits : Limits) (commands : List Accepted) → IsReady limits commands engine.old.session (state_of S.Store engine.old.tables)
        → IsWorkedOut (Answers commands asked.now) result (W.contents out.old) (W.contents out.new) }
    ensures reopen { IsTrue engine.old.session.must_reopen
        → (result ≡ Err (report.Warehouse faults.Reopen)) × (engine.new.tables ≡ engine.old.tables) × (engine.new.session ≡ engine.old.session) × (W.contents out.new ≡ W.contents out.old) }
    ensures only { result ≡ Err (report.Warehouse faults.Reopen) → IsTrue engine.old.session.must_reopen }
    ensures kinds { IfErr result IsOfReport }
{
    let worked = query(alloc, engine, asked);
    write_worked(worked, out)
}
