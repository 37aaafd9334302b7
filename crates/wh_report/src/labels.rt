//! The labels of sales by the keys of facts, as the rows of a table are handed out one at a time.

ghost use Rattle.std.specs.Prelude.{◌≡◌, ◌++◌, ◌∷◌, [], ℕ, List, OnOk, option_map, option_to_list, IfOk};
ghost use Rattle.wh_day.specs.declared.calendar.DateRow.{DateRow};
ghost use Rattle.wh_history.specs.declared.rows.DimRow.{DimRow};
ghost use Rattle.wh_rows.specs.declared.rows.ProfileRow.{ProfileRow};
ghost use Rattle.wh_report.specs.Label.{month_text};
ghost use Rattle.wh_report.specs.Labels.{labels_get, entry, with_text, row_key, row_text, value_text, date_text, row_labels, profile_labels, date_labels, AreLabels};

use crate::column::LabelColumn;
use std::alloc::{AllocError, Global};
use std::collections::BTreeMap;
use std::marker::Model;
use wh_day::{DateRow, Day, Value, Values};
use wh_history::DimRow;
use wh_rows::ProfileRow;

/// The text that each key leads to. The first one that is added under a key stays.
#[derive(Drop)]
pub struct Labels {
    alloc: Global,
    texts: BTreeMap<u64, Value>,
}

impl Model for Labels {
    ghost use Rattle.std.specs.Prelude.{ℕ, List};

    ghost Value = { List (ℕ × List ℕ) };

    ghost view = { λ l. l.texts.entries };
}

impl Labels {
    /// No label yet.
    pub fn new(alloc: Global) -> Labels
        ensures { result ≡ [] }
    {
        Labels {
            alloc,
            texts: BTreeMap::new(alloc),
        }
    }

    /// The label under a key.
    pub fn get(&self, key: u64) -> Option<&Value>
        ensures { option_map (λ text. text.now) result ≡ labels_get self.now key }
    {
        self.texts.get(&key)
    }

    fn put(&mut self, key: u64, text: &str) -> Result<(), AllocError>
        ensures { OnOk result ((k : ℕ) → labels_get self.new k ≡ with_text key text.now (labels_get self.old) k) }
    {
        if self.texts.contains_key(&key) {
            return Ok(());
        }
        let text = Value::new(self.alloc, text)?;
        self.texts.insert(key, text)?;
        Ok(())
    }

    fn put_entry(&mut self, key: Option<u64>, text: Option<&Value>) -> Result<(), AllocError>
        ensures { (entries : List (ℕ × List ℕ)) → AreLabels self.old entries → OnOk result (AreLabels self.new (entries ++ option_to_list (entry key (option_map (λ t. t.now) text.entry)))) }
    {
        match (key, text) {
            (Some(key), Some(text)) => self.put(key, text.as_str()),
            _ => Ok(()),
        }
    }

    /// Adds the label of a further row of the column's dimension, where facts look for the row and it has one. The labels of
    /// profiles are needed where the column stands there. After an error the labels are of no use.
    pub fn add_row(
        &mut self,
        column: LabelColumn,
        profiles: &Labels,
        row: &DimRow,
    ) -> Result<(), AllocError>
        ensures { (rows : List DimRow) → AreLabels self.old (row_labels column (labels_get profiles.now) rows) → OnOk result (AreLabels self.new (row_labels column (labels_get profiles.now) (rows ++ row.now ∷ []))) }
    {
        self.put_entry(column.row_key(row), column.row_text(profiles, row))
    }

    /// Adds the label of a further profile. After an error the labels are of no use.
    pub fn add_profile(&mut self, column: LabelColumn, row: &ProfileRow) -> Result<(), AllocError>
        ensures { (profiles : List ProfileRow) → AreLabels self.old (profile_labels column profiles) → OnOk result (AreLabels self.new (profile_labels column (profiles ++ row.now ∷ []))) }
    {
        self.put_entry(Some(row.number), column.value_text(&row.values))
    }

    /// Adds the label of a further day of the calendar. After an error the labels are of no use.
    pub fn add_date(&mut self, column: LabelColumn, row: &DateRow) -> Result<(), AllocError>
        ensures { (days : List DateRow) → AreLabels self.old (date_labels column days) → OnOk result (AreLabels self.new (date_labels column (days ++ row.now ∷ []))) }
    {
        let text = column.date_text(self.alloc, row)?;
        self.put_entry(Some(u64::from(row.date_key.key())), text.as_ref())
    }
}

impl LabelColumn {
    /// The key under which facts look for a row of the dimension, if they look for it.
    fn row_key(self, row: &DimRow) -> Option<u64>
        ensures { result ≡ row_key self row.now }
    {
        match self {
            LabelColumn::Main(_, _) | LabelColumn::Second(_, _) => Some(row.surrogate),
            LabelColumn::CurrentMain(_, _) | LabelColumn::CurrentProfile(_) if row.is_current => {
                Some(row.durable)
            }
            _ => None,
        }
    }

    /// The label that a row of the dimension has, by its own columns or by the profile that it names.
    fn row_text<'a>(self, profiles: &'a Labels, row: &'a DimRow) -> Option<&'a Value>
        ensures { option_map (λ text. text.now) result ≡ row_text self (labels_get profiles.now) row.now }
    {
        match self {
            LabelColumn::Main(_, place) | LabelColumn::CurrentMain(_, place) => {
                row.a.as_slice().get(place)
            }
            LabelColumn::Second(_, place) => row.b.as_slice().get(place),
            LabelColumn::CurrentProfile(_) => profiles.get(row.profile_now),
            LabelColumn::FactProfile(_)
            | LabelColumn::CalendarMonth
            | LabelColumn::CalendarHoliday => None,
        }
    }

    /// The label that a profile with these values has.
    fn value_text<'a>(self, values: &'a Values) -> Option<&'a Value>
        ensures { option_map (λ text. text.now) result ≡ value_text self values.now }
    {
        match self {
            LabelColumn::FactProfile(place) | LabelColumn::CurrentProfile(place) => {
                values.as_slice().get(place)
            }
            _ => None,
        }
    }

    /// The label that a day of the calendar has.
    fn date_text(self, alloc: Global, row: &DateRow) -> Result<Option<Value>, AllocError>
        ensures { IfOk result (λ text. text ≡ date_text self row.now) }
    {
        match self {
            LabelColumn::CalendarMonth => Ok(Some(month_text(alloc, row.date_key)?)),
            LabelColumn::CalendarHoliday => Ok(Some(row.holiday.copy()?)),
            _ => Ok(None),
        }
    }
}

/// The month of a day, as `2024-02`.
fn month_text(alloc: Global, day: Day) -> Result<Value, AllocError>
    ensures { IfOk result (λ text. text ≡ month_text day) }
{
    let text = format!(in alloc; "{day}")?;
    Value::new(alloc, &text.as_str()[..7])
}
