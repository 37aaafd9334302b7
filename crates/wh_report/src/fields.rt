//! The fields of a table's lines: the names of its columns, and the values of a row.

ghost use Rattle.std.specs.Prelude.{◌≡◌, ◌++◌, ◌∷◌, ℕ, [], List, IfOk, OnOk, map};
ghost use Rattle.csv.specs.Records.{fields_of};
ghost use Rattle.sqlite.specs.Values.{bound, bound_value};
ghost use Rattle.sqlite_value.specs.Value.{owned};
ghost use Rattle.wh_report.specs.Dump.{value_field, column_names, row_fields};
ghost use Rattle.wh_report.specs.Fields.{HasFields};

use csv::{ByteRecord, StringRecord};
use itoa::Buffer;
use sqlite::types::ValueRef;
use std::alloc::{AllocError, Global};
use wh_store::KeyedTable;

fn push_field(fields: &mut ByteRecord, field: &[u8]) -> Result<(), AllocError>
    ensures { (before : List (List ℕ)) → HasFields fields.old before → OnOk result (HasFields fields.new (before ++ field.now ∷ [])) }
{
    fields.push_field(field)
}

/// Adds the field of a value: a number in decimal, a text as it is, and two hexadecimal digits for each of some bytes.
fn push_value(
    alloc: Global,
    fields: &mut ByteRecord,
    value: &ValueRef<'_>,
) -> Result<(), AllocError>
    ensures { (before : List (List ℕ)) → HasFields fields.old before → OnOk result (HasFields fields.new (before ++ value_field (bound_value (owned value.now)) ∷ [])) }
{
    match *value {
        ValueRef::Int(number) => push_field(fields, Buffer::new().format(number).as_bytes()),
        ValueRef::Text(text) => push_field(fields, text),
        ValueRef::Blob(bytes) => {
            let text = hex::encode(alloc, bytes)?;
            push_field(fields, text.as_str().as_bytes())
        }
        ValueRef::Null | ValueRef::Real(_) => push_field(fields, b""),
    }
}

/// Puts the fields of these values in place of those that are there.
fn put_values(
    alloc: Global,
    values: &[ValueRef<'_>],
    fields: &mut ByteRecord,
) -> Result<(), AllocError>
    ensures { OnOk result (HasFields fields.new (map value_field (bound values.now))) }
{
    fields.clear();
    for value in values {
        push_value(alloc, fields, value)?;
    }
    Ok(())
}

/// The names of a table's columns, in their order.
pub(crate) fn column_names<T: KeyedTable>(alloc: Global) -> Result<ByteRecord, AllocError>
    ensures { IfOk result (λ names. fields_of names ≡ column_names T.layout) }
{
    let names = StringRecord::from_fields(alloc, T::table().columns())?;
    Ok(names.into_byte_record())
}

/// Puts a row's fields in place of those that are there, in the order of the columns. Only a lack of memory refuses a row that
/// is valid.
pub(crate) fn put_row<T: KeyedTable>(
    alloc: Global,
    row: &T::Row,
    fields: &mut ByteRecord,
) -> Result<(), AllocError>
    ensures { OnOk result (fields_of fields.new ≡ row_fields T.layout row.now) }
{
    match T::row(alloc, row) {
        Ok(values) => put_values(alloc, &values, fields),
        Err(_) => Err(AllocError),
    }
}
