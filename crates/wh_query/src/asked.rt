//! What a query asks for.

ghost use Rattle.std.specs.Prelude.{◌≡◌, ◌&&◌, ◌++◌, ◌∷◌, [], OnOk, IfOk, string_bytes, bytes_eq};
ghost use Rattle.wh_report.specs.Request.{has_reading};
ghost use Rattle.wh_query.specs.Asked.{alone, condition_columns, have_readings, query_reads, in_form, is_between, same_column, accepts, holds_from, holds, is_of_date, column_name, words_of};
ghost use Rattle.wh_query.specs.declared.form.Form.TheVariants.{Csv};

use crate::form::Form;
use std::alloc::{AllocError, Global};
use std::marker::Model;
use wh_batch::Mode;
use wh_day::{Day, Value};
use wh_policy::Policy;
use wh_report::has_reading;

/// Whether these are the words for an attribute of the day of sale.
fn is_of_date(words: &str) -> bool
    ensures { result ≡ is_of_date words.now }
{
    words == "date.month" || words == "date.holiday"
}

/// An attribute and a mode, as reports have them.
#[derive(Debug, Drop)]
pub struct Column {
    words: String,
    mode: Mode,
}

impl Model for Column {
    ghost use Rattle.std.specs.Prelude.{string_bytes};
    ghost use Rattle.wh_query.specs.Asked.{ColumnAsked};

    ghost Value = { ColumnAsked };

    ghost view = { λ c. record { words = string_bytes c.words; mode = c.mode } };
}

impl Column {
    /// The column of the attribute of these words, in this mode.
    pub fn new(alloc: Global, words: &str, mode: Mode) -> Result<Column, AllocError>
        ensures { IfOk result (λ column. column ≡ record { words = words.now; mode = mode }) }
    {
        Ok(Column {
            words: String::from_str(alloc, words)?,
            mode,
        })
    }

    /// The words for the attribute, as they were given.
    pub fn words(&self) -> &str
        ensures { result.now ≡ self.now.words }
    {
        self.words.as_str()
    }

    /// The mode.
    pub fn mode(&self) -> Mode
        ensures { result ≡ self.now.mode }
    {
        self.mode
    }

    /// Whether the attribute has a reading in the mode under a policy. Takes no memory.
    pub fn reads(&self, policy: &Policy) -> bool
        ensures { result ≡ has_reading policy.now (alone self.now) }
    {
        has_reading(policy, self.words.as_str(), self.mode)
    }

    /// Whether both have the same words and the same mode.
    pub fn is_same(&self, other: &Column) -> bool
        ensures { result ≡ same_column self.now other.now }
    {
        self.words.as_str() == other.words.as_str() && self.mode.word() == other.mode.word()
    }

    /// How it is called in the header of an answer.
    pub(crate) fn name(&self, alloc: Global) -> Result<String, AllocError>
        ensures { IfOk result (λ name. string_bytes name ≡ column_name self.now) }
    {
        if is_of_date(self.words()) {
            return String::from_str(alloc, self.words());
        }
        format!(in alloc; "{}:{}", self.words(), self.mode.word())
    }
}

/// A label that the sales have to have in a column; where several conditions are of one column, one of their labels.
#[derive(Debug, Drop)]
pub struct Condition {
    column: Column,
    label: Value,
}

impl Model for Condition {
    ghost use Rattle.wh_query.specs.Asked.{ConditionAsked};

    ghost Value = { ConditionAsked };

    ghost view = { λ c. record { column = c.column; label = c.label } };
}

impl Condition {
    /// The condition that sales have this label in the column.
    pub fn new(alloc: Global, column: Column, label: &str) -> Result<Condition, AllocError>
        ensures { IfOk result (λ condition. condition ≡ record { column = column; label = label.now }) }
    {
        Ok(Condition {
            column,
            label: Value::new(alloc, label)?,
        })
    }

    /// The column.
    pub fn column(&self) -> &Column
        ensures { result.now ≡ self.now.column }
    {
        &self.column
    }

    /// The label.
    pub fn label(&self) -> &str
        ensures { result.now ≡ self.now.label }
    {
        self.label.as_str()
    }

    /// Whether it wants this label in this column.
    fn wants(&self, column: &Column, label: &str) -> bool
        ensures { result ≡ (bytes_eq self.now.label label.now && same_column self.now.column column.now) }
    {
        self.label.as_str() == label && self.column.is_same(column)
    }
}

/// What was sold by these columns, from one day to another, where the conditions hold.
#[derive(Debug, Drop)]
pub struct Query {
    pub(crate) columns: Vec<Column>,
    pub(crate) conditions: Vec<Condition>,
    pub(crate) from: Day,
    pub(crate) to: Day,
    pub(crate) form: Form,
}

impl Model for Query {
    ghost use Rattle.wh_query.specs.Asked.{QueryAsked};

    ghost Value = { QueryAsked };

    ghost view = { λ q. record { columns = q.columns.items; conditions = q.conditions.items; from = q.from; to = q.to; form = q.form } };
}

/// Whether each of some columns has a reading under a policy.
fn have_readings(columns: &[Column], policy: &Policy) -> bool
    ensures { result ≡ have_readings policy.now columns.now }
{
    columns.iter().all(|column| column.reads(policy))
}

/// Whether the column of each of some conditions has a reading under a policy.
fn conditions_read(conditions: &[Condition], policy: &Policy) -> bool
    ensures { result ≡ have_readings policy.now (condition_columns conditions.now) }
{
    'conditions: for condition in conditions {
        if !condition.column.reads(policy) {
            return false;
        }
    }
    true
}

/// Whether a label is one of those that the conditions of a column give.
fn accepts(conditions: &[Condition], column: &Column, label: &str) -> bool
    ensures { result ≡ accepts conditions.now column.now label.now }
{
    conditions
        .iter()
        .any(|condition| condition.wants(column, label))
}

/// Whether labels, one in the column of each condition, are as the conditions want them.
fn holds(conditions: &[Condition], labels: &[&str]) -> bool
    ensures { result ≡ holds conditions.now (words_of labels.now) }
{
    'conditions: for at in 0..conditions.len() {
        let Some(label) = labels.get(at) else {
            return false;
        };
        if !accepts(conditions, conditions[at].column(), *label) {
            return false;
        }
    }
    true
}

impl Query {
    /// The query of the range of days without a column and without a condition, answered as CSV.
    pub fn new(alloc: Global, from: Day, to: Day) -> Query
        ensures { result ≡ record { columns = []; conditions = []; from = from; to = to; form = Csv } }
    {
        Query {
            columns: Vec::new(alloc),
            conditions: Vec::new(alloc),
            from,
            to,
            form: Form::Csv,
        }
    }

    /// The same query with its answer in this form.
    pub fn in_form(mut self, form: Form) -> Query
        ensures { result ≡ in_form form self }
    {
        self.form = form;
        self
    }

    /// With a further column.
    pub fn add_column(&mut self, column: Column) -> Result<(), AllocError>
        ensures { OnOk result (self.new ≡ record (self.old) { columns = self.old.columns ++ column ∷ [] }) }
    {
        self.columns.push(column)?;
        Ok(())
    }

    /// With a further condition.
    pub fn add_condition(&mut self, condition: Condition) -> Result<(), AllocError>
        ensures { OnOk result (self.new ≡ record (self.old) { conditions = self.old.conditions ++ condition ∷ [] }) }
    {
        self.conditions.push(condition)?;
        Ok(())
    }

    /// Whether each column, also of its conditions, has a reading under a policy. Takes no memory.
    pub fn reads(&self, policy: &Policy) -> bool
        ensures { result ≡ query_reads policy.now self.now }
    {
        have_readings(self.columns.as_slice(), policy)
            && conditions_read(self.conditions.as_slice(), policy)
    }

    /// The columns.
    pub fn columns(&self) -> &[Column]
        ensures { result.now ≡ self.now.columns }
    {
        self.columns.as_slice()
    }

    /// The conditions.
    pub fn conditions(&self) -> &[Condition]
        ensures { result.now ≡ self.now.conditions }
    {
        self.conditions.as_slice()
    }

    /// The form of the answer.
    pub fn form(&self) -> Form
        ensures { result ≡ self.now.form }
    {
        self.form
    }

    /// Whether a day is one of the range.
    pub(crate) fn contains(&self, day: Day) -> bool
        ensures { result ≡ is_between self.now day }
    {
        self.from <= day && day <= self.to
    }

    /// Whether labels, one in the column of each condition, are as the conditions want them.
    pub(crate) fn holds(&self, labels: &[&str]) -> bool
        ensures { result ≡ holds self.now.conditions (words_of labels.now) }
    {
        holds(self.conditions.as_slice(), labels)
    }
}
