//! Records as the text of a batch.

ghost use Rattle.std.specs.Prelude.{◌≡◌, ◌++◌, ◌∷◌, [], map, IfOk, OnOk};
ghost use Rattle.csv.specs.Records.{fields_of};
ghost use Rattle.csv.specs.Writing.{default_writer, row_text};
ghost use Rattle.wh_day.specs.Day.{day_text};
ghost use Rattle.wh_batch.specs.Columns.{names};
ghost use Rattle.wh_batch.specs.Layouts.{dimension_columns};
ghost use Rattle.wh_records.specs.Texts.{value_field, record_fields, record_line, header_line};

use csv::{StringRecord, WriterBuilder};
use std::alloc::{AllocError, Global};
use wh_day::{Day, Value};
use wh_policy::{Attribute, DimensionRecord};

/// The line of some fields. Over a buffer in memory `csv` fails only where memory runs out.
fn line_of(alloc: Global, fields: &StringRecord) -> Result<Vec<u8>, AllocError>
    ensures { IfOk result (λ line. line.items ≡ row_text default_writer (fields_of fields.now)) }
{
    let mut made = WriterBuilder::new().from_writer(Vec::new(alloc));
    match made.write_byte_record(fields.as_byte_record()) {
        Ok(()) => {}
        Err(_) => return Err(AllocError),
    }
    match made.into_inner() {
        Ok(line) => Ok(line),
        Err(_) => Err(AllocError),
    }
}

/// The field that is read as a value.
fn value_field(value: &Value) -> &str
    ensures { result.now ≡ value_field value.now }
{
    if value.is_none() { "" } else { value.as_str() }
}

fn push_values(fields: &mut StringRecord, values: &[Value]) -> Result<(), AllocError>
    ensures { OnOk result (fields_of fields.new ≡ fields_of fields.old ++ map value_field values.now) }
{
    for value in values {
        fields.push_field(value_field(value))?;
    }
    Ok(())
}

fn push_day(alloc: Global, fields: &mut StringRecord, day: Day) -> Result<(), AllocError>
    ensures { OnOk result (fields_of fields.new ≡ fields_of fields.old ++ day_text day ∷ []) }
{
    let text = format!(in alloc; "{day}")?;
    fields.push_field(text.as_str())
}

fn record_fields(alloc: Global, entry: &DimensionRecord) -> Result<StringRecord, AllocError>
    ensures { IfOk result (λ fields. fields_of fields ≡ record_fields entry.now) }
{
    let mut fields = StringRecord::new(alloc);
    fields.push_field(entry.natural.as_str())?;
    push_day(alloc, &mut fields, entry.day)?;
    push_values(&mut fields, entry.values.as_slice())?;
    Ok(fields)
}

/// The line of a record.
pub(crate) fn record_line(alloc: Global, entry: &DimensionRecord) -> Result<Vec<u8>, AllocError>
    ensures { IfOk result (λ line. line.items ≡ record_line entry.now) }
{
    let fields = record_fields(alloc, entry)?;
    line_of(alloc, &fields)
}

fn push_names(fields: &mut StringRecord, attributes: &[Attribute]) -> Result<(), AllocError>
    ensures { OnOk result (fields_of fields.new ≡ fields_of fields.old ++ map (λ a. a.name) attributes.now) }
{
    for attribute in attributes {
        fields.push_field(attribute.name.as_str())?;
    }
    Ok(())
}

fn header_fields(alloc: Global, attributes: &[Attribute]) -> Result<StringRecord, AllocError>
    ensures { IfOk result (λ fields. fields_of fields ≡ names (dimension_columns attributes.now)) }
{
    let mut fields = StringRecord::new(alloc);
    fields.push_field("id")?;
    fields.push_field("day")?;
    push_names(&mut fields, attributes)?;
    Ok(fields)
}

/// The line of the columns' names.
pub(crate) fn header_line(alloc: Global, attributes: &[Attribute]) -> Result<Vec<u8>, AllocError>
    ensures { IfOk result (λ line. line.items ≡ header_line attributes.now) }
{
    let fields = header_fields(alloc, attributes)?;
    line_of(alloc, &fields)
}
