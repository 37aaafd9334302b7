//! Exact plans: the edits that lead from some rows to others.

ghost use Rattle.std.specs.Prelude.{◌≡◌, ℕ, IfOk, OnOk, filter_map};
ghost use Rattle.std.specs.BTreeMap.{get};
ghost use Rattle.std.specs.Ordering.{nat_cmp};
ghost use Rattle.std.specs.Option.{option_copied};
ghost use Rattle.wh_history.specs.Plan.{IsRowPlan, row_of, with_keys, edit_between, edit_in};

use crate::rows::DimRow;
use std::alloc::{AllocError, Global};
use std::collections::{BTreeMap, BTreeSet};
use wh_day::DateRow;

/// A change of one key of a table.
#[derive(Debug, Drop)]
pub enum Edit<Row, Key> {
    /// The key's row is new, or is there with other contents.
    Put(Row),
    /// The key's row is no longer there.
    Remove(Key),
}

/// A row of a table, as plans compare and copy it.
pub trait PlannedRow: Drop {
    ghost use Rattle.std.specs.Prelude.{Bool};

    ghost same: { Self → Self → Bool };

    /// Whether two rows of one key are the same.
    fn is_same_row(&self, other: &Self) -> bool
        ensures { result ≡ same self.now other.now };

    /// The same row, in memory of its own.
    fn copy_row(&self, alloc: Global) -> Result<Self, AllocError>
        ensures { IfOk result (λ r. r ≡ self.now) };
}

impl PlannedRow for DimRow {
    ghost use Rattle.wh_history.specs.Plan.{same_row};

    ghost same = { same_row };

    fn is_same_row(&self, other: &DimRow) -> bool {
        self.is_same(other)
    }

    fn copy_row(&self, alloc: Global) -> Result<DimRow, AllocError> {
        self.copy(alloc)
    }
}

impl PlannedRow for DateRow {
    ghost use Rattle.wh_history.specs.Plan.{same_holiday};

    ghost same = { same_holiday };

    /// Two rows of one day differ where their holidays do.
    fn is_same_row(&self, other: &DateRow) -> bool {
        self.holiday.is_same(&other.holiday)
    }

    fn copy_row(&self, _alloc: Global) -> Result<DateRow, AllocError> {
        self.copy()
    }
}

/// Rows by their keys. Of two rows with one key the first counts.
fn by_key(alloc: Global, rows: &[DimRow]) -> Result<BTreeMap<u64, &DimRow>, AllocError>
    ensures { IfOk result (λ found. (key : ℕ) → option_copied (get nat_cmp found key) ≡ row_of key rows.now) }
{
    let mut found = BTreeMap::new(alloc);
    let mut left = rows.len();
    while left > 0 {
        left -= 1;
        found.insert(rows[left].surrogate, &rows[left])?;
    }
    Ok(found)
}

/// Adds the keys of rows.
fn add_keys(keys: &mut BTreeSet<u64>, rows: &[DimRow]) -> Result<(), AllocError>
    ensures { OnOk result (keys.new.keys ≡ with_keys rows.now keys.old.keys) }
{
    let mut left = rows.len();
    while left > 0 {
        left -= 1;
        keys.insert(rows[left].surrogate)?;
    }
    Ok(())
}

/// The edit of a key, by its rows before and after.
pub fn edit_between<Row: PlannedRow, Key: Drop>(
    alloc: Global,
    key: Key,
    old: Option<&Row>,
    new: Option<&Row>,
) -> Result<Option<Edit<Row, Key>>, AllocError>
    ensures { IfOk result (λ edit. edit ≡ edit_between Row.same key (option_copied old.entry) (option_copied new.entry)) }
{
    match (old, new) {
        (None, None) => Ok(None),
        (Some(_), None) => Ok(Some(Edit::Remove(key))),
        (None, Some(new)) => Ok(Some(Edit::Put(new.copy_row(alloc)?))),
        (Some(old), Some(new)) => {
            if old.is_same_row(new) {
                Ok(None)
            } else {
                Ok(Some(Edit::Put(new.copy_row(alloc)?)))
            }
        }
    }
}

/// The edits of keys, in their order.
fn edits_of(
    alloc: Global,
    keys: &BTreeSet<u64>,
    old: &BTreeMap<u64, &DimRow>,
    new: &BTreeMap<u64, &DimRow>,
) -> Result<Vec<Edit<DimRow, u64>>, AllocError>
    ensures { IfOk result (λ edits. edits.items ≡ filter_map (edit_in (λ key. option_copied (get nat_cmp old.now key)) (λ key. option_copied (get nat_cmp new.now key))) keys.now.keys) }
{
    let mut edits = Vec::new(alloc);
    for key in keys.iter() {
        if let Some(edit) = edit_between(
            alloc,
            *key,
            old.get(key).copied(),
            new.get(key).copied(),
        )? {
            edits.push(edit)?;
        }
    }
    Ok(edits)
}

/// The edits that lead from some rows to others, in order of their keys.
pub fn plan_rows(
    alloc: Global,
    stored: &[DimRow],
    after: &[DimRow],
) -> Result<Vec<Edit<DimRow, u64>>, AllocError>
    ensures { IfOk result (λ edits. IsRowPlan (λ key. row_of key stored.now) (λ key. row_of key after.now) edits.items) }
{
    let mut keys = BTreeSet::new(alloc);
    add_keys(&mut keys, after)?;
    add_keys(&mut keys, stored)?;
    let old = by_key(alloc, stored)?;
    let new = by_key(alloc, after)?;
    edits_of(alloc, &keys, &old, &new)
}
