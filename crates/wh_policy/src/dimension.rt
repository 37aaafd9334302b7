//! Reads the attributes of a dimension.

ghost use Rattle.std.specs.Prelude.{◌≡◌, [], map};
ghost use Rattle.std.specs.List.{list_any, list_all};
ghost use Rattle.wh_day.specs.Reading.{Gives};
ghost use Rattle.toml.specs.View.{view, table_view};
ghost use Rattle.wh_policy.specs.Document.{each_after};
ghost use Rattle.wh_policy.specs.Types.{is_mini, is_outrigger};
ghost use Rattle.wh_policy.specs.Attributes.{is_name_byte, is_word, is_name, name_of, kind_of, takes_profile, is_mixed, is_named, attribute_of, attributes_of};

use crate::attribute::{Attribute, AttributeType, Attributes, Dim};
use crate::document::{has_only, required, tables_of, unknown_in};
use crate::fault::PolicyFault;
use crate::place::{Place, PlacedFault};
use std::alloc::Global;
use toml::{Table, Value as TomlValue};
use wh_day::{ParseError, Value};

/// The most bytes of an attribute's name.
pub const NAME_LIMIT: usize = 24;

/// The most attributes of a dimension.
pub const MOST_ATTRIBUTES: usize = 6;

const ATTRIBUTE_KEYS: [&str; 2] = ["name", "type"];

fn is_name_byte(byte: u8) -> bool
    ensures { result ≡ is_name_byte byte }
{
    byte.is_ascii_lowercase() || byte.is_ascii_digit() || byte == b'_'
}

fn has_name_bytes(bytes: &[u8]) -> bool
    ensures { result ≡ list_all is_name_byte bytes.now }
{
    bytes.iter().all(|byte| is_name_byte(*byte))
}

fn is_word(bytes: &[u8]) -> bool
    ensures { result ≡ is_word bytes.now }
{
    match bytes {
        [] => false,
        [first, rest @ ..] => {
            first.is_ascii_lowercase() && has_name_bytes(rest) && rest.len() < NAME_LIMIT
        }
    }
}

fn is_name(name: &str) -> bool
    ensures { result ≡ is_name name.now }
{
    is_word(name.as_bytes()) && name != "id" && name != "day"
}

#[tactic(auto, unfolding(crate::specs::Attributes::name_of))]
fn name_of<'a>(
    alloc: Global,
    place: Place<'a>,
    value: &'a TomlValue,
) -> Result<Value, ParseError<PlacedFault<'a>>>
    ensures { Gives (λ name. name) result (name_of (view value.now)) }
{
    match value.as_str() {
        Some(name) if is_name(name) => Ok(Value::new(alloc, name)?),
        _ => Err(place.at("name").fault(PolicyFault::BadName)),
    }
}

#[tactic(auto, unfolding(crate::specs::Attributes::kind_of))]
fn kind_of<'a>(
    place: Place<'a>,
    value: &'a TomlValue,
) -> Result<AttributeType, ParseError<PlacedFault<'a>>>
    ensures { Gives (λ kind. kind) result (kind_of (view value.now)) }
{
    let Some(number) = value.as_integer() else {
        return Err(place.at("type").fault(PolicyFault::BadType));
    };
    match AttributeType::from_number(number) {
        Some(kind) => Ok(kind),
        None => Err(place.at("type").fault(PolicyFault::BadType)),
    }
}

// Whether a dimension takes attributes of the profile, of types 4 and 5. Only customer does.
fn takes_profile(dim: Dim) -> bool
    ensures { result ≡ takes_profile dim }
{
    match dim {
        Dim::Product | Dim::Store => false,
        Dim::Customer => true,
    }
}

/// Whether attributes of types 4 and 5 stand side by side.
pub(crate) fn is_mixed(attributes: &[Attribute]) -> bool
    ensures { result ≡ is_mixed attributes.now }
{
    has_mini(attributes) && has_outrigger(attributes)
}

/// The place of the first attribute of customer behind which types 4 and 5 stand side by side.
pub(crate) fn place_of_mixed(attributes: &[Attribute]) -> Place<'static> {
    let mini = attributes.iter().position(|it| it.kind.is_mini());
    let outrigger = attributes.iter().position(|it| it.kind.is_outrigger());
    let later = mini.unwrap_or(0).max(outrigger.unwrap_or(0));
    Place::of_table(Dim::Customer.word(), later).at("type")
}

fn has_mini(attributes: &[Attribute]) -> bool
    ensures { result ≡ list_any (λ a. is_mini a.kind) attributes.now }
{
    attributes.iter().any(|attribute| attribute.kind.is_mini())
}

fn has_outrigger(attributes: &[Attribute]) -> bool
    ensures { result ≡ list_any (λ a. is_outrigger a.kind) attributes.now }
{
    attributes
        .iter()
        .any(|attribute| attribute.kind.is_outrigger())
}

fn has_name(attributes: &[Attribute], name: &str) -> bool
    ensures { result ≡ list_any (is_named name.now) attributes.now }
{
    attributes
        .iter()
        .any(|attribute| attribute.name.as_str() == name)
}

#[tactic(auto, unfolding(crate::specs::Attributes::attribute_of))]
fn attribute_of<'a>(
    alloc: Global,
    dim: Dim,
    earlier: &[Attribute],
    table: &'a Table,
) -> Result<Attribute, ParseError<PlacedFault<'a>>>
    ensures { Gives (λ attribute. attribute) result (attribute_of dim earlier.now (table_view table.now)) }
{
    let place = Place::of_table(dim.word(), earlier.len());
    if !has_only(table, &ATTRIBUTE_KEYS) {
        return Err(unknown_in(place, table, &ATTRIBUTE_KEYS).fault(PolicyFault::UnknownKey));
    }
    let name = required(place, table, "name")?;
    let kind = required(place, table, "type")?;
    let name = name_of(alloc, place, name)?;
    let kind = kind_of(place, kind)?;
    if kind.is_profile() && !takes_profile(dim) {
        return Err(place.at("type").fault(PolicyFault::ProfileOutside));
    }
    if has_name(earlier, name.as_str()) {
        return Err(place.at("name").fault(PolicyFault::NamedTwice));
    }
    Ok(Attribute { name, kind })
}

fn attribute_list<'a>(
    alloc: Global,
    dim: Dim,
    tables: &[&'a Table],
) -> Result<Attributes, ParseError<PlacedFault<'a>>>
    ensures { Gives (λ attributes. attributes) result (each_after (attribute_of dim) [] (map (λ t. table_view t.now) tables.now)) }
{
    let mut attributes = Attributes::new(alloc);
    for table in tables {
        let next = attribute_of(alloc, dim, attributes.as_slice(), table)?;
        attributes.push(next)?;
    }
    Ok(attributes)
}

/// The attributes of a dimension, in the order of their slots.
#[tactic(auto, unfolding(crate::specs::Attributes::attributes_of))]
pub(crate) fn attributes_of<'a>(
    alloc: Global,
    dim: Dim,
    value: &'a TomlValue,
) -> Result<Attributes, ParseError<PlacedFault<'a>>>
    ensures { Gives (λ attributes. attributes) result (attributes_of dim (view value.now)) }
{
    let tables = tables_of(alloc, PolicyFault::Missing, dim.word(), value)?;
    if tables.is_empty() {
        return Err(Place::of_array(dim.word()).fault(PolicyFault::Missing));
    }
    if tables.len() > MOST_ATTRIBUTES {
        return Err(Place::of_array(dim.word()).fault(PolicyFault::TooMany));
    }
    attribute_list(alloc, dim, &tables)
}
