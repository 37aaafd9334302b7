//! A header that isn't the one that is wanted.

ghost use Rattle.std.specs.Prelude.{◌≡◌, ◌++◌, codes, OnOk};
ghost use Rattle.std.specs.List.{join_by};

use crate::encoding::other_separator;
use crate::row::push_column;
use crate::shown::{Counted, Quoted, push, push_header};
use std::alloc::AllocError;
use wh_batch::{Column, FaultyField};

/// Adds the header that is wanted: the columns' names, separated by commas. The error comes where memory ran out.
pub fn push_names(text: &mut Vec<u8>, columns: &[Column]) -> Result<(), AllocError>
    ensures { OnOk result (text.new.items ≡ text.old.items ++ join_by (λ column. column.name) (codes ",") columns.now) }
{
    let [first, others @ ..] = columns else {
        return Ok(());
    };
    text.extend_from_slice(first.name().as_bytes())?;
    for column in others {
        text.push(b',')?;
        text.extend_from_slice(column.name().as_bytes())?;
    }
    Ok(())
}

/// The place of a column with this name.
fn place_of(columns: &[Column], name: &[u8]) -> Option<usize> {
    for place in 0..columns.len() {
        if columns[place].name().as_bytes() == name {
            return Some(place);
        }
    }
    None
}

/// The row that stands in place of the header.
#[derive(Drop)]
pub(crate) struct Header<'a> {
    pub(crate) row: &'a [u8],
    /// How many fields it has.
    pub(crate) fields: usize,
}

/// A column too many, without a name.
fn push_nameless(text: &mut Vec<u8>, header: &Header) -> Result<(), AllocError> {
    push!(text; "a further column without a name stands there")?;
    if matches!(header.row, [.., b',']) {
        push!(text; " (the header ends with a comma)")?;
    }
    push!(text; "; no column is wanted there")
}

/// How a name in a header differs from the one that is wanted.
fn push_difference(
    text: &mut Vec<u8>,
    columns: &[Column],
    field: &FaultyField,
    header: &Header,
) -> Result<(), AllocError> {
    let found = field.text.as_bytes();
    if found.is_empty() && columns.len() <= field.place && field.place < header.fields {
        return push_nameless(text, header);
    }
    if found.is_empty() {
        return push!(text; "nothing stands there");
    }
    push!(text; Quoted(found), " stands there")?;
    if let Some(place) = place_of(columns, found) {
        return push!(text; "; it belongs in column ", Counted(place));
    }
    match columns.get(field.place) {
        Some(column) => push_slip(text, column.name().as_bytes(), found),
        None => push!(text; "; no column is wanted there"),
    }
}

/// A slip that leaves a name as good as right.
fn push_slip(text: &mut Vec<u8>, wanted: &[u8], found: &[u8]) -> Result<(), AllocError> {
    let name = found.trim_ascii();
    if !name.eq_ignore_ascii_case(wanted) {
        return Ok(());
    }
    if name != wanted {
        push!(text; "; small letters are wanted")?;
    }
    if name.len() < found.len() {
        push!(text; "; it has blanks around it")?;
    }
    Ok(())
}

/// The header that is wanted, and below it the one that is there.
fn push_both(text: &mut Vec<u8>, columns: &[Column], there: &[u8]) -> Result<(), AllocError> {
    push!(text; "wanted: ")?;
    push_names(text, columns)?;
    push!(text; "\nthere: ")?;
    if there.is_empty() {
        push!(text; "nothing")?;
    }
    push_header(text, there)?;
    push!(text; "\n")
}

/// A line on what parts the fields, where it isn't commas.
fn push_separator_line(text: &mut Vec<u8>, there: &[u8]) -> Result<(), AllocError> {
    let Some(separator) = other_separator(there) else {
        return Ok(());
    };
    let what = "the file seems to be separated by ";
    push!(text; what, separator, "; commas are wanted\n")
}

/// The lines on a wrong header: where it first differs, the one that is wanted, and the one that is there.
pub(crate) fn push_wrong_header(
    text: &mut Vec<u8>,
    columns: &[Column],
    field: &FaultyField,
    header: &Header,
) -> Result<(), AllocError> {
    push_column(text, columns, field.place)?;
    push_difference(text, columns, field, header)?;
    push!(text; "\n")?;
    push_both(text, columns, header.row)?;
    push_separator_line(text, header.row)
}
