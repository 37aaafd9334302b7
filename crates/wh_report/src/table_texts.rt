//! The text of a table: the names of its columns, and then its rows, as CSV.

ghost use Rattle.std.specs.Prelude.{◌≡◌, IfOk};
ghost use Rattle.wh_report.specs.Dump.{header_line, row_line, table_text, dimension_text};

use crate::csv_buffer::CsvBuffer;
use std::alloc::{AllocError, Global};
use wh_history::DimRow;
use wh_rows::tables;
use wh_store::KeyedTable;

/// The first line of a table's dump.
pub fn header_line<T: KeyedTable>(alloc: Global) -> Result<Vec<u8>, AllocError>
    ensures { IfOk result (λ line. line.items ≡ header_line T.layout) }
{
    let mut part = CsvBuffer::new(alloc);
    part.add_names::<T>(alloc)?;
    Ok(part.into_lines())
}

/// The line of a row: numbers in decimal, days as YYYYMMDD, 1 or 0 for a flag, two hexadecimal digits a byte, and texts as they
/// are.
pub fn row_line<T: KeyedTable>(alloc: Global, row: &T::Row) -> Result<Vec<u8>, AllocError>
    ensures { IfOk result (λ line. line.items ≡ row_line T.layout row.now) }
{
    let mut part = CsvBuffer::new(alloc);
    part.add_row::<T>(alloc, row)?;
    Ok(part.into_lines())
}

/// The whole text of a table that has these rows.
pub fn table_text<T: KeyedTable>(alloc: Global, rows: &[T::Row]) -> Result<Vec<u8>, AllocError>
    ensures { IfOk result (λ text. text.items ≡ table_text T.layout rows.now) }
{
    let mut text = CsvBuffer::new(alloc);
    text.add_names::<T>(alloc)?;
    for row in rows {
        text.add_row::<T>(alloc, row)?;
    }
    Ok(text.into_lines())
}

/// The whole text of product, store or customer, which have the same columns.
pub fn dimension_text(alloc: Global, rows: &[DimRow]) -> Result<Vec<u8>, AllocError>
    ensures { IfOk result (λ text. text.items ≡ dimension_text rows.now) }
{
    table_text::<tables::Product>(alloc, rows)
}
