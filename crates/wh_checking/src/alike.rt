//! Whether two rows of a table stand alike in its columns.

ghost use Rattle.std.specs.Prelude.{◌≡◌, IfOk};
ghost use Rattle.sqlite_value.specs.Value.{owned};
ghost use Rattle.sqlite.specs.Values.{bound};
ghost use Rattle.wh_checking.specs.Alike.{same_value, same_values, AreAlike};

use sqlite::types::ValueRef;
use std::alloc::{AllocError, Global};
use wh_store::PagedTable;

/// Whether two values are the same integer, text or blob.
fn same_value(a: ValueRef<'_>, b: ValueRef<'_>) -> bool
    ensures { result ≡ same_value (owned a.entry) (owned b.entry) }
{
    match (a, b) {
        (ValueRef::Int(a), ValueRef::Int(b)) => a == b,
        (ValueRef::Text(a), ValueRef::Text(b)) => a == b,
        (ValueRef::Blob(a), ValueRef::Blob(b)) => a == b,
        _ => false,
    }
}

/// Whether the values are the same, one by one.
fn same_values(a: &[ValueRef<'_>], b: &[ValueRef<'_>]) -> bool
    ensures { result ≡ same_values (bound a.now) (bound b.now) }
{
    match (a, b) {
        ([], []) => true,
        ([x, xs @ ..], [y, ys @ ..]) => same_value(*x, *y) && same_values(xs, ys),
        _ => false,
    }
}

/// A row as the parameters of a statement. Only a lack of memory refuses a valid row.
fn row_values<T: PagedTable>(alloc: Global, row: &T::Row) -> Result<Vec<ValueRef<'_>>, AllocError>
    ensures { IfOk result (λ values. bound values.items ≡ T.StoredTable.layout.encode row.now) }
{
    match T::row(alloc, row) {
        Ok(values) => Ok(values),
        Err(_) => Err(AllocError),
    }
}

/// Whether two rows stand alike in the columns.
pub(crate) fn are_alike<T: PagedTable>(
    alloc: Global,
    a: &T::Row,
    b: &T::Row,
) -> Result<bool, AllocError>
    ensures { IfOk result (λ same. AreAlike T.StoredTable.layout a.now b.now same) }
{
    let first = row_values::<T>(alloc, a)?;
    let second = row_values::<T>(alloc, b)?;
    Ok(same_values(&first, &second))
}
