//! The SQL of views that have the names of the attributes.

ghost use Rattle.std.specs.Prelude.{◌≡◌, ◌++◌, Some, option_map, IfOk, OnOk};
ghost use Rattle.std.specs.Fmt.{decimal};
ghost use Rattle.wh_explain.specs.Views.{place_value, value_was, value_is, value_prior, value_text, attribute_name, shown_value, attribute_columns, columns_from, dimension_columns, all_dimension_columns, column_text, columns_text, list_text, first_column, day_columns, figures, discounts, month_columns, view_name, view_head, view_source, sales_with_days, joins, sales_view, month_view, views_text};
ghost use Rattle.wh_explain.specs.declared.views.SalesView.TheVariants.{AsIs};

use crate::shown::push_number;
use std::alloc::{AllocError, Global};
use wh_policy::{Attribute, AttributeType, Dim, Format, Policy, ValuePlace};

/// A view with a row for each sale.
#[derive(Clone, Copy)]
enum SalesView {
    /// It shows what held on the day of sale.
    AsWas,
    /// It shows what holds now.
    AsIs,
}

/// The column that has the value of an attribute, in the rows that a sale is joined with.
#[derive(Clone, Copy)]
enum ValueColumn {
    /// Column `a` of the dimension's row.
    Main,
    /// Column `b` of that row.
    Second,
    /// Column `v` of the profile.
    Profile,
}

/// That of the place where a sale finds it.
fn place_value(place: ValuePlace) -> ValueColumn
    ensures { result ≡ place_value place }
{
    match place {
        ValuePlace::Main | ValuePlace::CurrentMain => ValueColumn::Main,
        ValuePlace::Second => ValueColumn::Second,
        ValuePlace::SaleProfile | ValuePlace::NewestProfile => ValueColumn::Profile,
    }
}

fn value_at(place: Option<ValuePlace>) -> Option<ValueColumn>
    ensures { result ≡ option_map place_value place }
{
    match place {
        Some(place) => Some(place_value(place)),
        None => None,
    }
}

fn value_was(kind: AttributeType) -> Option<ValueColumn>
    ensures { result ≡ value_was kind }
{
    value_at(kind.rule().was)
}

fn value_is(kind: AttributeType) -> Option<ValueColumn>
    ensures { result ≡ value_is kind }
{
    value_at(kind.rule().is_now)
}

fn value_prior(kind: AttributeType) -> Option<ValueColumn>
    ensures { result ≡ value_prior kind }
{
    value_at(kind.rule().prior)
}

/// A slot's column of a table.
fn push_slot(text: &mut Vec<u8>, table: &str, letter: &str, slot: u64) -> Result<(), AllocError>
    ensures { OnOk result (text.new.items ≡ text.old.items ++ (table.now ++ letter.now ++ decimal slot)) }
{
    text.extend_from_slice(table.as_bytes())?;
    text.extend_from_slice(letter.as_bytes())?;
    push_number(text, slot)
}

fn push_value(text: &mut Vec<u8>, dim: Dim, slot: u64, value: ValueColumn) -> Result<(), AllocError>
    ensures { OnOk result (text.new.items ≡ text.old.items ++ value_text dim slot value) }
{
    match value {
        ValueColumn::Main => push_slot(text, dim.word(), ".a", slot),
        ValueColumn::Second => push_slot(text, dim.word(), ".b", slot),
        ValueColumn::Profile => push_slot(text, "profile", ".v", slot),
    }
}

/// The name of an attribute's column.
fn push_name(text: &mut Vec<u8>, prefix: &str, dim: Dim, name: &str) -> Result<(), AllocError>
    ensures { OnOk result (text.new.items ≡ text.old.items ++ attribute_name prefix.now dim name.now) }
{
    text.extend_from_slice(prefix.as_bytes())?;
    text.extend_from_slice(dim.word().as_bytes())?;
    text.extend_from_slice(b"_")?;
    text.extend_from_slice(name.as_bytes())
}

/// The column of an attribute that has a value, behind others.
fn push_column(
    text: &mut Vec<u8>,
    prefix: &str,
    dim: Dim,
    slot: u64,
    attribute: &Attribute,
    value: ValueColumn,
) -> Result<(), AllocError>
    ensures { OnOk result (text.new.items ≡ text.old.items ++ columns_text (shown_value prefix.now dim slot attribute.now (Some value))) }
{
    text.extend_from_slice(b",\n    ")?;
    push_value(text, dim, slot, value)?;
    text.extend_from_slice(b" AS ")?;
    push_name(text, prefix, dim, attribute.name.as_str())
}

/// The column of an attribute, where it has a value.
fn push_shown(
    text: &mut Vec<u8>,
    prefix: &str,
    dim: Dim,
    slot: u64,
    attribute: &Attribute,
    value: Option<ValueColumn>,
) -> Result<(), AllocError>
    ensures { OnOk result (text.new.items ≡ text.old.items ++ columns_text (shown_value prefix.now dim slot attribute.now value)) }
{
    match value {
        Some(value) => push_column(text, prefix, dim, slot, attribute, value),
        None => Ok(()),
    }
}

/// The columns of an attribute, as it is and as it was before.
fn push_is(text: &mut Vec<u8>, dim: Dim, slot: u64, attribute: &Attribute) -> Result<(), AllocError>
    ensures { OnOk result (text.new.items ≡ text.old.items ++ columns_text (attribute_columns AsIs dim slot attribute.now)) }
{
    let kind = attribute.kind;
    push_shown(text, "", dim, slot, attribute, value_is(kind))?;
    push_shown(text, "prior_", dim, slot, attribute, value_prior(kind))
}

/// The columns of an attribute.
fn push_attribute(
    text: &mut Vec<u8>,
    view: SalesView,
    dim: Dim,
    slot: u64,
    attribute: &Attribute,
) -> Result<(), AllocError>
    ensures { OnOk result (text.new.items ≡ text.old.items ++ columns_text (attribute_columns view dim slot attribute.now)) }
{
    match view {
        SalesView::AsWas => push_shown(text, "", dim, slot, attribute, value_was(attribute.kind)),
        SalesView::AsIs => push_is(text, dim, slot, attribute),
    }
}

/// The columns of attributes, by slot from the first.
fn push_attributes(
    text: &mut Vec<u8>,
    view: SalesView,
    dim: Dim,
    attributes: &[Attribute],
) -> Result<(), AllocError>
    ensures { OnOk result (text.new.items ≡ text.old.items ++ columns_text (columns_from view dim 1 attributes.now)) }
{
    for place in 0..attributes.len() {
        push_attribute(text, view, dim, place as u64 + 1, &attributes[place])?;
    }
    Ok(())
}

/// The columns of a dimension.
fn push_dimension(
    text: &mut Vec<u8>,
    view: SalesView,
    policy: &Policy,
    dim: Dim,
) -> Result<(), AllocError>
    ensures { OnOk result (text.new.items ≡ text.old.items ++ columns_text (dimension_columns view policy.now dim)) }
{
    text.extend_from_slice(b",\n    ")?;
    text.extend_from_slice(dim.word().as_bytes())?;
    text.extend_from_slice(b".natural AS ")?;
    text.extend_from_slice(dim.word().as_bytes())?;
    push_attributes(text, view, dim, policy.attributes(dim))
}

/// The columns of all dimensions.
fn push_dimensions(text: &mut Vec<u8>, view: SalesView, policy: &Policy) -> Result<(), AllocError>
    ensures { OnOk result (text.new.items ≡ text.old.items ++ columns_text (all_dimension_columns view policy.now)) }
{
    push_dimension(text, view, policy, Dim::Product)?;
    push_dimension(text, view, policy, Dim::Store)?;
    push_dimension(text, view, policy, Dim::Customer)
}

/// What comes before the columns of a view.
fn push_head(text: &mut Vec<u8>, name: &str) -> Result<(), AllocError>
    ensures { OnOk result (text.new.items ≡ text.old.items ++ view_head name.now) }
{
    text.extend_from_slice(b"CREATE TEMP VIEW ")?;
    text.extend_from_slice(name.as_bytes())?;
    text.extend_from_slice(b" AS\nSELECT\n    ")?;
    Ok(())
}

fn push_sales_head(text: &mut Vec<u8>, view: SalesView) -> Result<(), AllocError>
    ensures { OnOk result (text.new.items ≡ text.old.items ++ view_head (view_name view)) }
{
    match view {
        SalesView::AsWas => push_head(text, "sales_as_was"),
        SalesView::AsIs => push_head(text, "sales_as_is"),
    }
}

/// Which sale it is, and its day.
const DAY_COLUMNS: &str = "fact.ticket AS ticket,
    fact.line AS line,
    fact.day AS day,
    calendar.iso AS sale_date,
    substr(calendar.iso, 1, 7) AS month,
    calendar.weekday_name AS weekday,
    calendar.weekend AS is_weekend,
    calendar.holiday AS holiday";

fn push_days(text: &mut Vec<u8>) -> Result<(), AllocError>
    ensures { OnOk result (text.new.items ≡ text.old.items ++ (column_text first_column ++ columns_text day_columns)) }
{
    text.extend_from_slice(DAY_COLUMNS.as_bytes())
}

const FIGURES: &str = ",
    fact.quantity AS quantity,
    fact.amount AS amount,
    fact.cost AS cost,
    fact.amount - fact.cost AS margin";

fn push_figures(text: &mut Vec<u8>) -> Result<(), AllocError>
    ensures { OnOk result (text.new.items ≡ text.old.items ++ columns_text figures) }
{
    text.extend_from_slice(FIGURES.as_bytes())
}

fn push_discounts(text: &mut Vec<u8>, format: Format) -> Result<(), AllocError>
    ensures { OnOk result (text.new.items ≡ text.old.items ++ columns_text (discounts format)) }
{
    match format {
        Format::One => Ok(()),
        Format::Two => text.extend_from_slice(b",\n    fact.discount AS discount"),
    }
}

/// The sales of a format, each with its day.
fn sales_with_days(format: Format) -> &'static str
    ensures { result.now ≡ sales_with_days format }
{
    match format {
        Format::One => "fact\nJOIN calendar ON calendar.date_key = fact.day",
        Format::Two => "fact2 AS fact\nJOIN calendar ON calendar.date_key = fact.day",
    }
}

/// The rows of the day of sale.
const ROWS_OF_THE_DAY: &str = "
JOIN product ON product.surrogate = fact.product_key
JOIN store ON store.surrogate = fact.store_key
JOIN customer ON customer.surrogate = fact.customer_key
JOIN profile ON profile.number = fact.profile";

/// The current rows of the members that were sold.
const CURRENT_ROWS: &str = "
JOIN product ON product.durable = fact.product_durable AND product.is_current = 1
JOIN store ON store.durable = fact.store_durable AND store.is_current = 1
JOIN customer ON customer.durable = fact.customer_durable AND customer.is_current = 1
JOIN profile ON profile.number = customer.profile_now";

/// The rows that a sale is joined with.
fn joins(view: SalesView) -> &'static str
    ensures { result.now ≡ joins view }
{
    match view {
        SalesView::AsWas => ROWS_OF_THE_DAY,
        SalesView::AsIs => CURRENT_ROWS,
    }
}

/// What comes behind the columns of a view.
#[tactic(auto, unfolding(crate::specs::Views::view_source))]
fn push_source(text: &mut Vec<u8>, format: Format, more: &str) -> Result<(), AllocError>
    ensures { OnOk result (text.new.items ≡ text.old.items ++ view_source (sales_with_days format ++ more.now)) }
{
    text.extend_from_slice(b"\nFROM ")?;
    text.extend_from_slice(sales_with_days(format).as_bytes())?;
    text.extend_from_slice(more.as_bytes())?;
    text.extend_from_slice(b";\n")
}

fn push_sales_view(
    text: &mut Vec<u8>,
    view: SalesView,
    policy: &Policy,
    format: Format,
) -> Result<(), AllocError>
    ensures { OnOk result (text.new.items ≡ text.old.items ++ sales_view view policy.now format) }
{
    push_sales_head(text, view)?;
    push_days(text)?;
    push_dimensions(text, view, policy)?;
    push_figures(text)?;
    push_discounts(text, format)?;
    push_source(text, format, joins(view))?;
    Ok(())
}

const MONTH_COLUMNS: &str = "substr(calendar.iso, 1, 7) AS month,
    count(*) AS lines,
    sum(fact.quantity) AS quantity,
    sum(fact.amount) AS amount,
    sum(fact.cost) AS cost,
    sum(fact.amount - fact.cost) AS margin";

fn push_months(text: &mut Vec<u8>) -> Result<(), AllocError>
    ensures { OnOk result (text.new.items ≡ text.old.items ++ list_text month_columns) }
{
    text.extend_from_slice(MONTH_COLUMNS.as_bytes())
}

fn push_month_view(text: &mut Vec<u8>, format: Format) -> Result<(), AllocError>
    ensures { OnOk result (text.new.items ≡ text.old.items ++ month_view format) }
{
    push_head(text, "sales_by_month")?;
    push_months(text)?;
    push_source(text, format, "\nGROUP BY substr(calendar.iso, 1, 7)")?;
    Ok(())
}

/// The statements that make the views of sales under a policy, in a warehouse of this format. The error comes where memory ran out.
///
/// The names of attributes stand in them as they are: in a policy that was read they are plain words.
#[tactic(auto, unfolding(crate::specs::Views::views_text))]
pub fn views_text(alloc: Global, policy: &Policy, format: Format) -> Result<Vec<u8>, AllocError>
    ensures { IfOk result (λ text. text.items ≡ views_text policy.now format) }
{
    let mut text = Vec::new(alloc);
    push_sales_view(&mut text, SalesView::AsWas, policy, format)?;
    push_sales_view(&mut text, SalesView::AsIs, policy, format)?;
    push_month_view(&mut text, format)?;
    Ok(text)
}
