//! Queries that the words of a command line ask for.

ghost use Rattle.std.specs.Prelude.{◌≡◌};
ghost use Rattle.wh_day.specs.Reading.{Gives};
ghost use Rattle.wh_query.specs.Reading.{mode_meant, read_column, read_condition, read_each, read_query};

use crate::asked::{Column, Condition, Query};
use crate::form::Form;
use std::alloc::Global;
use wh_batch::{ColumnWords, ConditionWords, Mode};
use wh_day::ParseError;
use wh_policy::Policy;
use wh_report::{Request, RequestFault, has_reading, read_range};

/// The mode that is meant for a column.
fn mode_meant(policy: &Policy, words: &ColumnWords) -> Mode
    ensures { result ≡ mode_meant policy.now words.now }
{
    match words.mode {
        Some(mode) => mode,
        None => {
            if has_reading(policy, words.attribute, Mode::Was) {
                Mode::Was
            } else {
                Mode::Is
            }
        }
    }
}

fn read_column(
    alloc: Global,
    policy: &Policy,
    words: &ColumnWords,
    from: &[u8],
    to: &[u8],
) -> Result<Column, ParseError<RequestFault>>
    ensures { Gives (λ column. column) result (read_column policy.now from.now to.now words.now) }
{
    let mode = mode_meant(policy, words);
    let request = Request::read(alloc, policy, words.attribute, mode, from, to)?;
    let column = Column::new(alloc, request.attribute(), request.mode())?;
    Ok(column)
}

fn read_columns(
    alloc: Global,
    policy: &Policy,
    columns: &[ColumnWords],
    from: &[u8],
    to: &[u8],
) -> Result<Vec<Column>, ParseError<RequestFault>>
    ensures { Gives (λ read. read.items) result (read_each (read_column policy.now from.now to.now) columns.now) }
{
    let mut shown = Vec::new(alloc);
    'columns: for words in columns {
        let column = read_column(alloc, policy, words, from, to)?;
        shown.push(column)?;
    }
    Ok(shown)
}

fn read_condition(
    alloc: Global,
    policy: &Policy,
    words: &ConditionWords,
    from: &[u8],
    to: &[u8],
) -> Result<Condition, ParseError<RequestFault>>
    ensures { Gives (λ condition. condition) result (read_condition policy.now from.now to.now words.now) }
{
    let column = read_column(alloc, policy, &words.column, from, to)?;
    let condition = Condition::new(alloc, column, words.label)?;
    Ok(condition)
}

fn read_conditions(
    alloc: Global,
    policy: &Policy,
    conditions: &[ConditionWords],
    from: &[u8],
    to: &[u8],
) -> Result<Vec<Condition>, ParseError<RequestFault>>
    ensures { Gives (λ read. read.items) result (read_each (read_condition policy.now from.now to.now) conditions.now) }
{
    let mut held = Vec::new(alloc);
    'conditions: for words in conditions {
        let condition = read_condition(alloc, policy, words, from, to)?;
        held.push(condition)?;
    }
    Ok(held)
}

impl Query {
    /// The query by these columns of the sales from one day to another, both included and written `YYYY-MM-DD`, where the
    /// conditions hold, answered as CSV; or the first fault: that of the first column, and then of the first condition, for which
    /// `Request::read` refuses the report. `Memory`: a growth was refused.
    #[tactic(auto, unfolding(crate::specs::Reading::read_query))]
    pub fn read(
        alloc: Global,
        policy: &Policy,
        columns: &[ColumnWords],
        conditions: &[ConditionWords],
        from: &[u8],
        to: &[u8],
    ) -> Result<Query, ParseError<RequestFault>>
        ensures { Gives (λ query. query) result (read_query policy.now columns.now conditions.now from.now to.now) }
    {
        let columns = read_columns(alloc, policy, columns, from, to)?;
        let conditions = read_conditions(alloc, policy, conditions, from, to)?;
        let Some((first, last)) = read_range(from, to) else {
            return Err(ParseError::Fault(RequestFault::BadRange));
        };
        Ok(Query {
            columns,
            conditions,
            from: first,
            to: last,
            form: Form::Csv,
        })
    }
}
