//! Where in a row a fault is.

ghost use Rattle.std.specs.Prelude.{◌≡◌, map, position, IfOk};
ghost use Rattle.wh_batch.specs.Columns.{Tells, fault_in, place_at_fault, names};
ghost use Rattle.wh_batch.specs.Faults.{is_day, place_of, field_of, first_difference};

use crate::column::Column;
use crate::fault::FaultKind;
use crate::fields::{customer_of, day_of, effective_day_of, key_of, value_of};
use crate::holds::Holds;
use crate::listed::{FaultyField, FieldText};
use crate::numbers::{amount_of, discount_of, line_of, quantity_of};
use std::alloc::{AllocError, Global};
use wh_day::{KEY_LIMIT, ParseError, TICKET_LIMIT};

/// The fault of what was read.
fn fault_of<T: Drop>(
    read: Result<T, ParseError<FaultKind>>,
) -> Result<Option<FaultKind>, AllocError>
    ensures { IfOk result (λ fault. Tells read fault) }
{
    match read {
        Ok(_) => Ok(None),
        Err(ParseError::Fault(kind)) => Ok(Some(kind)),
        Err(ParseError::Memory) => Err(AllocError),
    }
}

/// What is wrong with a text where a field holds this, if something is.
pub(crate) fn fault_in(
    alloc: Global,
    holds: Holds,
    text: &[u8],
) -> Result<Option<FaultKind>, AllocError>
    ensures { IfOk result (λ fault. fault ≡ fault_in holds text.now) }
{
    match holds {
        Holds::Ticket => fault_of(key_of(TICKET_LIMIT, text)),
        Holds::Key => fault_of(key_of(KEY_LIMIT, text)),
        Holds::CustomerKey => fault_of(customer_of(text)),
        Holds::Day => fault_of(day_of(text)),
        Holds::EffectiveDay => fault_of(effective_day_of(text)),
        Holds::Value => fault_of(value_of(alloc, text)),
        Holds::Line => fault_of(line_of(text)),
        Holds::Quantity => fault_of(quantity_of(text)),
        Holds::Amount => fault_of(amount_of(text)),
        Holds::Discount => fault_of(discount_of(text)),
    }
}

/// The place of the first field with which something is wrong.
fn place_at_fault(
    alloc: Global,
    columns: &[Column],
    fields: &[&[u8]],
) -> Result<Option<usize>, AllocError>
    ensures { IfOk result (λ place. place ≡ place_at_fault columns.now (map (λ f. f.now) fields.now)) }
{
    for place in 0..columns.len().min(fields.len()) {
        if fault_in(alloc, columns[place].holds(), fields[place])?.is_some() {
            return Ok(Some(place));
        }
    }
    Ok(None)
}

/// The place of the day of a sale.
fn day_place(columns: &[Column]) -> Option<usize>
    ensures { result ≡ position is_day columns.now }
{
    columns
        .iter()
        .position(|column| matches!(column.holds(), Holds::Day))
}

/// Where in a row a fault of this kind is.
pub(crate) fn place_of(
    alloc: Global,
    columns: &[Column],
    fields: &[&[u8]],
    kind: FaultKind,
) -> Result<Option<usize>, AllocError>
    ensures { IfOk result (λ place. place ≡ place_of columns.now (map (λ f. f.now) fields.now) kind) }
{
    match kind {
        FaultKind::WrongLength | FaultKind::TwiceInBatch => Ok(None),
        FaultKind::OutsideCalendar => Ok(day_place(columns)),
        _ => place_at_fault(alloc, columns, fields),
    }
}

/// The field at this place.
pub(crate) fn field_of(
    alloc: Global,
    fields: &[&[u8]],
    place: usize,
) -> Result<FaultyField, AllocError>
    ensures { IfOk result (λ field. field ≡ field_of (map (λ f. f.now) fields.now) place) }
{
    let text = match fields.get(place) {
        Some(field) => *field,
        None => &[],
    };
    Ok(FaultyField {
        place,
        text: FieldText::new(alloc, text)?,
    })
}

/// The place of the first name that isn't its column's.
pub(crate) fn first_difference(columns: &[Column], fields: &[&[u8]]) -> usize
    ensures { result ≡ first_difference (map (λ f. f.now) fields.now) (names columns.now) }
{
    let few = columns.len().min(fields.len());
    for place in 0..few {
        if fields[place] != columns[place].name().as_bytes() {
            return place;
        }
    }
    few
}
