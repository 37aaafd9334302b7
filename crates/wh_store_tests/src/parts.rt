//! Edits that are made in parts, sixteen new rows in one statement.

use crate::rows::row_of;
use crate::trouble::Trouble;
use crate::words::number;
use crate::writing::edits_of;
use sqlite::Alter;
use std::alloc::Global;
use wh_history::Edit;
use wh_rows::tables::{Change, Product};
use wh_rows::{ChangeKey, ChangeRow};
use wh_scenarios::parted;
use wh_store::Writing;

/// `3 Milk, 4`: puts products and takes products out.
pub fn edit_products<S: Alter>(
    alloc: Global,
    writing: &mut Writing<'_, S>,
    words: &str,
) -> Result<(), Trouble> {
    let edits = edits_of(alloc, words)?;
    Ok(writing.edit_in_parts::<Product>(alloc, &edits)?)
}

/// So many edits that put the records of a command, with these values, from a place on.
fn records(
    alloc: Global,
    command: &str,
    first: u64,
    count: u64,
    values: &str,
) -> Result<Vec<Edit<ChangeRow, ChangeKey>>, Trouble> {
    let mut edits = Vec::new(alloc);
    for before in 0..count {
        let place = first.saturating_add(before);
        let columns = format!(in alloc; "{command}, {place}, {values}")?;
        edits.push(Edit::Put(row_of::<Change>(alloc, columns.as_str())?))?;
    }
    Ok(edits)
}

/// `COMMAND FIRST COUNT VALUES`: puts so many records of a command.
pub fn put_records<S: Alter>(
    alloc: Global,
    writing: &mut Writing<'_, S>,
    words: &str,
) -> Result<(), Trouble> {
    let (command, words) = parted(words, ' ');
    let (first, words) = parted(words, ' ');
    let (count, values) = parted(words, ' ');
    let edits = records(alloc, command, number(first)?, number(count)?, values)?;
    Ok(writing.edit_in_parts::<Change>(alloc, &edits)?)
}
