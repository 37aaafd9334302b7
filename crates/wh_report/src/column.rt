//! Where the labels of sales stand in the tables of the warehouse.

ghost use Rattle.std.specs.Prelude.{◌≡◌};
ghost use Rattle.wh_report.specs.Joined.{reading_place, place_column, attribute_column, column_of, label_column_fact_key, label_column_table, table_of_dim};

use crate::subject::{Reading, SlotAttribute, Subject};
use wh_policy::{Dim, TypeRule, ValuePlace};
use wh_rows::{FactColumn, Table};

/// The column that has the labels, and by it the key of a fact that leads to its row. A slot's place is counted from 0.
#[derive(Clone, Copy, Debug, PartialEq, Eq)]
pub enum LabelColumn {
    /// Column `a` of the row of the fact's surrogate key.
    Main(Dim, usize),
    /// Column `b` of that row.
    Second(Dim, usize),
    /// Column `a` of the current row of the fact's durable key.
    CurrentMain(Dim, usize),
    /// The value in the fact's profile.
    FactProfile(usize),
    /// The value in the profile that the current row of the customer's durable key names.
    CurrentProfile(usize),
    /// The month of the calendar's row of the day of sale.
    CalendarMonth,
    /// The holiday of that row.
    CalendarHoliday,
}

/// Where the labels of a reading of a subject stand. Where the subject hasn't the reading, any column may be answered.
pub fn column_of(subject: Subject, reading: Reading) -> LabelColumn
    ensures { result ≡ column_of subject reading }
{
    match subject {
        Subject::Attribute(attribute) => attribute_column(attribute, reading),
        Subject::Month => LabelColumn::CalendarMonth,
        Subject::Holiday => LabelColumn::CalendarHoliday,
    }
}

/// Where a type keeps what a reading shows.
fn reading_place(rule: TypeRule, reading: Reading) -> Option<ValuePlace>
    ensures { result ≡ reading_place rule reading }
{
    match reading {
        Reading::AtSaleDay | Reading::Original => rule.was,
        Reading::Latest => rule.is_now,
        Reading::PriorValue => rule.prior,
    }
}

/// The column of a slot at a place.
fn place_column(dim: Dim, slot: usize, place: ValuePlace) -> LabelColumn
    ensures { result ≡ place_column dim slot place }
{
    match place {
        ValuePlace::Main => LabelColumn::Main(dim, slot),
        ValuePlace::Second => LabelColumn::Second(dim, slot),
        ValuePlace::CurrentMain => LabelColumn::CurrentMain(dim, slot),
        ValuePlace::SaleProfile => LabelColumn::FactProfile(slot),
        ValuePlace::NewestProfile => LabelColumn::CurrentProfile(slot),
    }
}

fn attribute_column(attribute: SlotAttribute, reading: Reading) -> LabelColumn
    ensures { result ≡ attribute_column attribute reading }
{
    let SlotAttribute { dim, place, kind } = attribute;
    match reading_place(kind.rule(), reading) {
        Some(found) => place_column(dim, place, found),
        None => LabelColumn::Main(dim, place),
    }
}

impl LabelColumn {
    /// The table that has it. Where a fact's key leads to no label, a row of this table is missing.
    pub fn table(self) -> Table
        ensures { result ≡ label_column_table self }
    {
        match self {
            LabelColumn::Main(dim, _)
            | LabelColumn::Second(dim, _)
            | LabelColumn::CurrentMain(dim, _) => table_of_dim(dim),
            LabelColumn::FactProfile(_) => Table::Profile,
            LabelColumn::CurrentProfile(_) => Table::Customer,
            LabelColumn::CalendarMonth | LabelColumn::CalendarHoliday => Table::Calendar,
        }
    }

    /// The key by which a fact names the row of its label.
    pub fn fact_key(self) -> FactColumn
        ensures { result ≡ label_column_fact_key self }
    {
        match self {
            LabelColumn::Main(dim, _) | LabelColumn::Second(dim, _) => FactColumn::Surrogate(dim),
            LabelColumn::CurrentMain(dim, _) => FactColumn::Durable(dim),
            LabelColumn::FactProfile(_) => FactColumn::Profile,
            LabelColumn::CurrentProfile(_) => FactColumn::Durable(Dim::Customer),
            LabelColumn::CalendarMonth | LabelColumn::CalendarHoliday => FactColumn::Day,
        }
    }
}

/// The table of a dimension.
fn table_of_dim(dim: Dim) -> Table
    ensures { result ≡ table_of_dim dim }
{
    match dim {
        Dim::Product => Table::Product,
        Dim::Store => Table::Store,
        Dim::Customer => Table::Customer,
    }
}
