//! Reading the labels of a column, as the rows of its table are handed out.

ghost use Rattle.std.specs.Prelude.{◌≡◌, List, None, IsTrue, IfSome, IfOk};
ghost use Rattle.std.specs.FinMap.{values};
ghost use Rattle.wh_policy.specs.declared.attribute.Dim.TheVariants.{Customer};
ghost use Rattle.wh_engine.specs.Scanned.{EngineReads, IsServing, ReadsThrough, WhenReady};
ghost use Rattle.wh_sql.specs.Answers.{state_of, WhenAtRest, WhenStored};
ghost use Rattle.wh_rows.specs.Keys.{bind_number};
ghost use Rattle.wh_store.specs.Scan.{HandsOut, HandsOutOf, AreValid};
ghost use Rattle.wh_day.specs.declared.calendar.DateRow.{DateRow};
ghost use Rattle.wh_history.specs.declared.rows.DimRow.{DimRow as Member};
ghost use Rattle.wh_rows.specs.declared.rows.ProfileRow.{ProfileRow};
ghost use Rattle.wh_report.specs.Labels.{LabelRows, labels_get, first_text, row_labels, profile_labels, date_labels, labels_in, AreLabels};
ghost use Rattle.wh_report.specs.Reported.{left_of_dim, rows_of_dim, label_rows, layout_of_dim, AreAllOfDim, AreAllProfiles, AreAllDays, AreAllFor};
ghost use Rattle.wh_report.specs.Joined.{table_of_dim};

use crate::column::LabelColumn;
use crate::labels::Labels;
use sqlite::Alter;
use std::alloc::Global;
use wh_engine::{Engine, Fault};
use wh_history::DimRow;
use wh_policy::Dim;
use wh_rows::tables;
use wh_store::Cursor;

/// The next row of a dimension.
fn next_of_dimension<S: Alter>(
    alloc: Global,
    engine: &mut Engine<S>,
    dim: Dim,
    cursor: &mut Cursor<u64, DimRow>,
) -> Result<Option<DimRow>, Fault>
    ensures reads { EngineReads S.Store engine.old engine.new result }
    ensures serves { WhenReady S.Store engine.old engine.new (λ limits commands. IsServing limits commands result) }
    ensures rows { WhenAtRest S.Store engine.old.tables engine.new.tables (λ t. IfOk result (λ found. HandsOut (left_of_dim dim t cursor.old) found (left_of_dim dim t cursor.new))) }
    ensures stored { WhenStored S.Store engine.old.tables engine.new.tables (λ stored. IfOk result (λ found. HandsOutOf (layout_of_dim dim) bind_number (stored.rows (table_of_dim dim)) cursor.old found cursor.new)) }
    ensures valid { WhenStored S.Store engine.old.tables engine.new.tables (λ _. AreValid (layout_of_dim dim) cursor.old → IfOk result (λ found. IfSome found (λ row. IsTrue ((layout_of_dim dim).is_valid row)) × AreValid (layout_of_dim dim) cursor.new)) }
{
    match dim {
        Dim::Product => engine.next_row::<tables::Product>(alloc, cursor),
        Dim::Store => engine.next_row::<tables::Store>(alloc, cursor),
        Dim::Customer => engine.next_row::<tables::Customer>(alloc, cursor),
    }
}

/// The labels of the rows of a dimension. `Memory`, as with the other two: also where the rows are more than can be counted.
fn labels_of_rows<S: Alter>(
    alloc: Global,
    engine: &mut Engine<S>,
    column: LabelColumn,
    dim: Dim,
    profiles: &Labels,
) -> Result<Labels, Fault>
    ensures reads { ReadsThrough engine.old.session engine.new.session (state_of S.Store engine.old.tables) (state_of S.Store engine.new.tables) result }
    ensures writes { engine.new.writes ≡ engine.old.writes }
    ensures labels { WhenAtRest S.Store engine.old.tables engine.new.tables (λ t. IfOk result (λ labels. AreLabels labels (row_labels column (labels_get profiles.now) (rows_of_dim dim t)))) }
    ensures stored { WhenStored S.Store engine.old.tables engine.new.tables (λ stored. IfOk result (λ labels. (rows : List Member) × AreAllOfDim dim stored rows × AreLabels labels (row_labels column (labels_get profiles.now) rows))) }
{
    let mut cursor = Cursor::new(alloc);
    let mut labels = Labels::new(alloc);
    'rows: for _ in 0..u64::MAX {
        match next_of_dimension(alloc, engine, dim, &mut cursor)? {
            Some(row) => labels.add_row(column, profiles, &row)?,
            None => return Ok(labels),
        }
    }
    Err(Fault::Memory)
}

/// The labels of the profiles.
fn labels_of_profiles<S: Alter>(
    alloc: Global,
    engine: &mut Engine<S>,
    column: LabelColumn,
) -> Result<Labels, Fault>
    ensures reads { ReadsThrough engine.old.session engine.new.session (state_of S.Store engine.old.tables) (state_of S.Store engine.new.tables) result }
    ensures writes { engine.new.writes ≡ engine.old.writes }
    ensures labels { WhenAtRest S.Store engine.old.tables engine.new.tables (λ t. IfOk result (λ labels. AreLabels labels (profile_labels column (values t.profile)))) }
    ensures stored { WhenStored S.Store engine.old.tables engine.new.tables (λ stored. IfOk result (λ labels. (rows : List ProfileRow) × AreAllProfiles stored rows × AreLabels labels (profile_labels column rows))) }
{
    let mut cursor = Cursor::new(alloc);
    let mut labels = Labels::new(alloc);
    'profiles: for _ in 0..u64::MAX {
        match engine.next_row::<tables::Profile>(alloc, &mut cursor)? {
            Some(row) => labels.add_profile(column, &row)?,
            None => return Ok(labels),
        }
    }
    Err(Fault::Memory)
}

/// The labels of the days of the calendar.
fn labels_of_days<S: Alter>(
    alloc: Global,
    engine: &mut Engine<S>,
    column: LabelColumn,
) -> Result<Labels, Fault>
    ensures reads { ReadsThrough engine.old.session engine.new.session (state_of S.Store engine.old.tables) (state_of S.Store engine.new.tables) result }
    ensures writes { engine.new.writes ≡ engine.old.writes }
    ensures labels { WhenAtRest S.Store engine.old.tables engine.new.tables (λ t. IfOk result (λ labels. AreLabels labels (date_labels column (values t.calendar)))) }
    ensures stored { WhenStored S.Store engine.old.tables engine.new.tables (λ stored. IfOk result (λ labels. (rows : List DateRow) × AreAllDays stored rows × AreLabels labels (date_labels column rows))) }
{
    let mut cursor = Cursor::new(alloc);
    let mut labels = Labels::new(alloc);
    'days: for _ in 0..u64::MAX {
        match engine.next_row::<tables::Calendar>(alloc, &mut cursor)? {
            Some(row) => labels.add_date(column, &row)?,
            None => return Ok(labels),
        }
    }
    Err(Fault::Memory)
}

/// The labels of the rows of a dimension, in whose own columns they stand.
fn labels_of_dimension<S: Alter>(
    alloc: Global,
    engine: &mut Engine<S>,
    column: LabelColumn,
    dim: Dim,
) -> Result<Labels, Fault>
    ensures reads { ReadsThrough engine.old.session engine.new.session (state_of S.Store engine.old.tables) (state_of S.Store engine.new.tables) result }
    ensures writes { engine.new.writes ≡ engine.old.writes }
    ensures labels { WhenAtRest S.Store engine.old.tables engine.new.tables (λ t. IfOk result (λ labels. AreLabels labels (row_labels column (λ _. None) (rows_of_dim dim t)))) }
    ensures stored { WhenStored S.Store engine.old.tables engine.new.tables (λ stored. IfOk result (λ labels. (rows : List Member) × AreAllOfDim dim stored rows × AreLabels labels (row_labels column (λ _. None) rows))) }
{
    let no_profiles = Labels::new(alloc);
    labels_of_rows(alloc, engine, column, dim, &no_profiles)
}

/// The labels of the customers' rows, which stand in the profiles that these name: the profiles come first.
fn labels_by_profiles<S: Alter>(
    alloc: Global,
    engine: &mut Engine<S>,
    column: LabelColumn,
) -> Result<Labels, Fault>
    ensures reads { ReadsThrough engine.old.session engine.new.session (state_of S.Store engine.old.tables) (state_of S.Store engine.new.tables) result }
    ensures writes { engine.new.writes ≡ engine.old.writes }
    ensures labels { WhenAtRest S.Store engine.old.tables engine.new.tables (λ t. IfOk result (λ labels. AreLabels labels (row_labels column (λ number. first_text number (profile_labels column (values t.profile))) (values t.customer)))) }
    ensures stored { WhenStored S.Store engine.old.tables engine.new.tables (λ stored. IfOk result (λ labels. (rows : List Member) × AreAllOfDim Customer stored rows × ((profiles : List ProfileRow) × AreAllProfiles stored profiles × AreLabels labels (row_labels column (λ number. first_text number (profile_labels column profiles)) rows)))) }
{
    let profiles = labels_of_profiles(alloc, engine, column)?;
    labels_of_rows(alloc, engine, column, Dim::Customer, &profiles)
}

/// The labels of a column, under the keys of facts.
pub fn labels_of<S: Alter>(
    alloc: Global,
    engine: &mut Engine<S>,
    column: LabelColumn,
) -> Result<Labels, Fault>
    ensures reads { ReadsThrough engine.old.session engine.new.session (state_of S.Store engine.old.tables) (state_of S.Store engine.new.tables) result }
    ensures writes { engine.new.writes ≡ engine.old.writes }
    ensures labels { WhenAtRest S.Store engine.old.tables engine.new.tables (λ t. IfOk result (λ labels. AreLabels labels (labels_in column (label_rows column t)))) }
    ensures stored { WhenStored S.Store engine.old.tables engine.new.tables (λ stored. IfOk result (λ labels. (t : LabelRows) × AreAllFor column stored t × AreLabels labels (labels_in column t))) }
{
    match column {
        LabelColumn::Main(dim, _) => labels_of_dimension(alloc, engine, column, dim),
        LabelColumn::Second(dim, _) => labels_of_dimension(alloc, engine, column, dim),
        LabelColumn::CurrentMain(dim, _) => labels_of_dimension(alloc, engine, column, dim),
        LabelColumn::FactProfile(_) => labels_of_profiles(alloc, engine, column),
        LabelColumn::CurrentProfile(_) => labels_by_profiles(alloc, engine, column),
        LabelColumn::CalendarMonth => labels_of_days(alloc, engine, column),
        LabelColumn::CalendarHoliday => labels_of_days(alloc, engine, column),
    }
}
