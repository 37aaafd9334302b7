//! The text of a plan: a line an edit, and their number.

ghost use Rattle.std.specs.Prelude.{◌≡◌, ◌++◌, IfOk, OnOk, codes, flat_map};
ghost use Rattle.std.specs.List.{join_by};
ghost use Rattle.sqlite.specs.Values.{bound, bound_value};
ghost use Rattle.sqlite_value.specs.Value.{owned};
ghost use Rattle.wh_report.specs.Dump.{value_field};
ghost use Rattle.wh_program.specs.PlanText.{key_words, key_line, edit_line, edit_lines, fact_line, commands_text, dimensions_text, facts_text, count_line, plan_text};
ghost use Rattle.wh_plan.specs.Edits.{edit_count};

use itoa::Buffer;
use sqlite::types::ValueRef;
use std::alloc::{AllocError, Global};
use wh_history::Edit;
use wh_plan::{Edits, FactEdit};
use wh_rows::{Table, tables};
use wh_store::{KeyedTable, PagedTable};

/// Adds what stands in a column of a key.
fn push_value(alloc: Global, text: &mut Vec<u8>, value: &ValueRef<'_>) -> Result<(), AllocError>
    ensures { OnOk result (text.new.items ≡ text.old.items ++ value_field (bound_value (owned value.now))) }
{
    match *value {
        ValueRef::Int(number) => text.extend_from_slice(Buffer::new().format(number).as_bytes()),
        ValueRef::Text(bytes) => text.extend_from_slice(bytes),
        ValueRef::Blob(bytes) => {
            let digits = hex::encode(alloc, bytes)?;
            text.extend_from_slice(digits.as_str().as_bytes())
        }
        ValueRef::Null | ValueRef::Real(_) => text.extend_from_slice(b""),
    }
}

/// Adds the further columns of a key, each behind a space.
fn push_further(
    alloc: Global,
    text: &mut Vec<u8>,
    values: &[ValueRef<'_>],
) -> Result<(), AllocError>
    ensures { OnOk result (text.new.items ≡ text.old.items ++ flat_map (λ value. codes " " ++ value_field value) (bound values.now)) }
{
    for value in values {
        text.extend_from_slice(b" ")?;
        push_value(alloc, text, value)?;
    }
    Ok(())
}

/// Adds the columns of a key, parted by spaces.
fn push_values(alloc: Global, text: &mut Vec<u8>, values: &[ValueRef<'_>]) -> Result<(), AllocError>
    ensures { OnOk result (text.new.items ≡ text.old.items ++ join_by value_field (codes " ") (bound values.now)) }
{
    match values {
        [] => Ok(()),
        [first, further @ ..] => {
            push_value(alloc, text, first)?;
            push_further(alloc, text, further)
        }
    }
}

/// Adds a key. Only a lack of memory refuses that of a valid row.
fn push_key<T: KeyedTable>(
    alloc: Global,
    text: &mut Vec<u8>,
    key: &T::Key,
) -> Result<(), AllocError>
    ensures { OnOk result (text.new.items ≡ text.old.items ++ key_words T.bind key.now) }
{
    match T::key(alloc, key) {
        Ok(values) => push_values(alloc, text, &values),
        Err(_) => Err(AllocError),
    }
}

/// A line: what is done, the table, and the key of the row.
fn push_line<T: KeyedTable>(
    alloc: Global,
    text: &mut Vec<u8>,
    what: &str,
    table: Table,
    key: &T::Key,
) -> Result<(), AllocError>
    ensures { OnOk result (text.new.items ≡ text.old.items ++ key_line what.now table (key_words T.bind key.now)) }
{
    text.extend_from_slice(what.as_bytes())?;
    text.extend_from_slice(b" ")?;
    text.extend_from_slice(table.name().as_bytes())?;
    text.extend_from_slice(b" ")?;
    push_key::<T>(alloc, text, key)?;
    text.extend_from_slice(b"\n")
}

/// The line of an edit of a row.
fn push_edit<T: PagedTable>(
    alloc: Global,
    text: &mut Vec<u8>,
    table: Table,
    edit: &Edit<T::Row, T::Key>,
) -> Result<(), AllocError>
    ensures { OnOk result (text.new.items ≡ text.old.items ++ edit_line table T.StoredTable.layout T.KeyedTable.bind edit.now) }
{
    match edit {
        Edit::Put(row) => {
            let key = T::key_of(row)?;
            push_line::<T>(alloc, text, "put", table, &key)
        }
        Edit::Remove(key) => push_line::<T>(alloc, text, "remove", table, key),
    }
}

/// The lines of the edits of a table.
fn push_edits<T: PagedTable>(
    alloc: Global,
    text: &mut Vec<u8>,
    edits: &[Edit<T::Row, T::Key>],
) -> Result<(), AllocError>
    ensures { OnOk result (text.new.items ≡ text.old.items ++ edit_lines T.KeyedTable.name T.StoredTable.layout T.KeyedTable.bind edits.now) }
{
    let table = T::table();
    for edit in edits {
        push_edit::<T>(alloc, text, table, edit)?;
    }
    Ok(())
}

/// The line of an edit of a fact in its table.
fn push_fact_edit(
    alloc: Global,
    text: &mut Vec<u8>,
    table: Table,
    edit: &FactEdit,
) -> Result<(), AllocError>
    ensures { OnOk result (text.new.items ≡ text.old.items ++ fact_line table edit.now) }
{
    match edit {
        FactEdit::Row(edit) => push_edit::<tables::Fact>(alloc, text, table, edit),
        FactEdit::Rekey(key, _) => push_line::<tables::Fact>(alloc, text, "rekey", table, key),
    }
}

/// The lines of the edits of facts in their table.
fn push_fact_edits(
    alloc: Global,
    text: &mut Vec<u8>,
    table: Table,
    edits: &[FactEdit],
) -> Result<(), AllocError>
    ensures { OnOk result (text.new.items ≡ text.old.items ++ flat_map (fact_line table) edits.now) }
{
    for edit in edits {
        push_fact_edit(alloc, text, table, edit)?;
    }
    Ok(())
}

/// The lines of meta, command, member and change.
fn push_commands(alloc: Global, text: &mut Vec<u8>, edits: &Edits) -> Result<(), AllocError>
    ensures { OnOk result (text.new.items ≡ text.old.items ++ commands_text edits.now) }
{
    push_edits::<tables::Meta>(alloc, text, &edits.meta)?;
    push_edits::<tables::Command>(alloc, text, &edits.commands)?;
    push_edits::<tables::Member>(alloc, text, &edits.members)?;
    push_edits::<tables::Change>(alloc, text, &edits.changes)
}

/// The lines of product, store and customer.
fn push_dimensions(alloc: Global, text: &mut Vec<u8>, edits: &Edits) -> Result<(), AllocError>
    ensures { OnOk result (text.new.items ≡ text.old.items ++ dimensions_text edits.now) }
{
    push_edits::<tables::Product>(alloc, text, &edits.products)?;
    push_edits::<tables::Store>(alloc, text, &edits.stores)?;
    push_edits::<tables::Customer>(alloc, text, &edits.customers)
}

/// The lines of profile, calendar, fact, fact2 and void.
fn push_facts(alloc: Global, text: &mut Vec<u8>, edits: &Edits) -> Result<(), AllocError>
    ensures { OnOk result (text.new.items ≡ text.old.items ++ facts_text edits.now) }
{
    push_edits::<tables::Profile>(alloc, text, &edits.profiles)?;
    push_edits::<tables::Calendar>(alloc, text, &edits.calendar)?;
    push_fact_edits(alloc, text, Table::Fact, &edits.facts)?;
    push_fact_edits(alloc, text, Table::Fact2, &edits.facts2)?;
    push_edits::<tables::Void>(alloc, text, &edits.voids)
}

/// How many edits there are, in all tables.
fn edit_count(edits: &Edits) -> u128
    ensures { result ≡ edit_count edits.now }
{
    edits.meta.len() as u128
        + edits.commands.len() as u128
        + edits.members.len() as u128
        + edits.changes.len() as u128
        + edits.products.len() as u128
        + edits.stores.len() as u128
        + edits.customers.len() as u128
        + edits.profiles.len() as u128
        + edits.calendar.len() as u128
        + edits.facts.len() as u128
        + edits.facts2.len() as u128
        + edits.voids.len() as u128
}

/// The line of how many edits there are.
fn push_count(text: &mut Vec<u8>, edits: &Edits) -> Result<(), AllocError>
    ensures { OnOk result (text.new.items ≡ text.old.items ++ count_line edits.now) }
{
    text.extend_from_slice(b"edits ")?;
    text.extend_from_slice(Buffer::new().format(edit_count(edits)).as_bytes())?;
    text.extend_from_slice(b"\n")
}

/// A plan: the lines table by table, in each by key, and their number.
pub fn plan_text(alloc: Global, edits: &Edits) -> Result<Vec<u8>, AllocError>
    ensures { IfOk result (λ text. text.items ≡ plan_text edits.now) }
{
    let mut text = Vec::new(alloc);
    push_commands(alloc, &mut text, edits)?;
    push_dimensions(alloc, &mut text, edits)?;
    push_facts(alloc, &mut text, edits)?;
    push_count(&mut text, edits)?;
    Ok(text)
}
