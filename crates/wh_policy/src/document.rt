//! The tables of a policy file.

ghost use Rattle.std.specs.Prelude.{◌≡◌, map, option_map, string_bytes};
ghost use Rattle.std.specs.Str.{bytes_eq};
ghost use Rattle.std.specs.List.{list_any, list_all};
ghost use Rattle.std.specs.BTreeMap.{keys};
ghost use Rattle.wh_day.specs.Reading.{Gives};
ghost use Rattle.toml.specs.Data.{get_member};
ghost use Rattle.toml.specs.View.{view, items_view, table_view};
ghost use Rattle.wh_policy.specs.Document.{document_of, has_only, required, tables_in, tables_of};

use crate::fault::PolicyFault;
use crate::place::{Place, PlacedFault};
use std::alloc::Global;
use toml::{Table, Value};
use wh_day::ParseError;

/// The most bytes of a policy.
pub const POLICY_LIMIT: usize = 65_536;

/// The table that the bytes write.
#[tactic(auto, unfolding(crate::specs::Document::document_of))]
pub(crate) fn document_of(alloc: Global, bytes: &[u8]) -> Result<Table, ParseError<PolicyFault>>
    ensures { Gives table_view result (document_of bytes.now) }
{
    if bytes.len() > POLICY_LIMIT {
        return Err(ParseError::Fault(PolicyFault::NotToml));
    }
    let Ok(text) = std::str::from_utf8(bytes) else {
        return Err(ParseError::Fault(PolicyFault::NotToml));
    };
    match toml::table_from_str(alloc, text) {
        Ok(table) => Ok(table),
        Err(error) => {
            if error.is_memory() {
                Err(ParseError::Memory)
            } else {
                Err(ParseError::Fault(PolicyFault::NotToml))
            }
        }
    }
}

/// The value at a key, if it is there.
pub(crate) fn optional<'a>(table: &'a Table, key: &str) -> Option<&'a Value>
    ensures { option_map (λ value. view value.now) result ≡ get_member key.now (table_view table.now) }
{
    table.get(key)
}

/// The value at a key that has to be there.
#[tactic(auto, unfolding(crate::specs::Document::required))]
pub(crate) fn required<'a>(
    place: Place<'a>,
    table: &'a Table,
    key: &'static str,
) -> Result<&'a Value, ParseError<PlacedFault<'a>>>
    ensures { Gives (λ value. view value.now) result (required key.now (table_view table.now)) }
{
    match optional(table, key) {
        Some(value) => Ok(value),
        None => Err(place.at(key).fault(PolicyFault::Missing)),
    }
}

/// The place of the first key that isn't one of the known ones.
pub(crate) fn unknown_in<'a>(place: Place<'a>, table: &'a Table, known: &[&str]) -> Place<'a> {
    for key in table.keys() {
        if !is_known(known, key.as_str()) {
            return place.at(key.as_str());
        }
    }
    place
}

/// Whether each key of the table is one of the known ones.
pub(crate) fn has_only(table: &Table, known: &[&str]) -> bool
    ensures { result ≡ has_only (map (λ k. k.now) known.now) (table_view table.now) }
{
    are_known(table, known)
}

fn are_known(table: &Table, known: &[&str]) -> bool
    ensures { result ≡ list_all (λ key. list_any (λ name. bytes_eq (string_bytes key) name.now) known.now) (keys table.now) }
{
    table.keys().all(|key| is_known(known, key.as_str()))
}

fn is_known(known: &[&str], key: &str) -> bool
    ensures { result ≡ list_any (λ name. bytes_eq key.now name.now) known.now }
{
    known.iter().any(|name| key == *name)
}

/// The tables of an array, which the key of the file with its name has, each element one; else the fault.
#[tactic(auto, unfolding(crate::specs::Document::tables_of))]
pub(crate) fn tables_of<'a>(
    alloc: Global,
    fault: PolicyFault,
    array: &'static str,
    value: &'a Value,
) -> Result<Vec<&'a Table>, ParseError<PlacedFault<'a>>>
    ensures { Gives (λ tables. map (λ t. table_view t.now) tables.items) result (tables_of fault (view value.now)) }
{
    let Some(items) = value.as_array() else {
        return Err(Place::of_file().at(array).fault(fault));
    };
    tables_in(alloc, fault, array, items)
}

fn tables_in<'a>(
    alloc: Global,
    fault: PolicyFault,
    array: &'static str,
    items: &'a [Value],
) -> Result<Vec<&'a Table>, ParseError<PlacedFault<'a>>>
    ensures { Gives (λ tables. map (λ t. table_view t.now) tables.items) result (tables_in fault (items_view items.now)) }
{
    let mut tables = Vec::new(alloc);
    for item in items {
        match item.as_table() {
            Some(table) => tables.push(table)?,
            None => return Err(Place::of_table(array, tables.len()).fault(fault)),
        }
    }
    Ok(tables)
}
