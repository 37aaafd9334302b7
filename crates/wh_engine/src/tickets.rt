//! One question for all tickets of a batch: whether any line of them can be there.

ghost use Rattle.std.specs.Prelude.{◌≡◌, true, false, Some, None, slice_get, option_map, IsTrue, IfOk};
ghost use Rattle.std.specs.FinMap.{get, values};
ghost use Rattle.std.specs.List.{list_any};
ghost use Rattle.std.specs.Ordering.{nat_cmp, ord_min, ord_max};
ghost use Rattle.std.specs.Cmp.Lexicographic.{slice_cmp};
ghost use Rattle.wh_history.specs.Accepted.{format_of, sold};
ghost use Rattle.wh_policy.specs.declared.record.SaleRecord.{SaleRecord};
ghost use Rattle.wh_rows.specs.Facts.{facts_in, fact_layout};
ghost use Rattle.wh_rows.specs.declared.key.LineKey.{LineKey};
ghost use Rattle.wh_admission.specs.Admission.{first_line_there};
ghost use Rattle.wh_model.specs.Defined.{void_at};
ghost use Rattle.wh_model.specs.Sound.{IsAccepted, same_line};
ghost use Rattle.wh_engine.specs.Scanned.{ReadsOnlyIn, WhenAtRest, WhenOfCommands};
ghost use Rattle.wh_engine.specs.Tickets.{first_behind, greatest_ticket, is_between, is_past, least_ticket, tells_none};

use sqlite::Alter;
use std::alloc::{AllocError, Global};
use wh_day::Value;
use wh_policy::{Format, SaleRecord};
use wh_rows::{LineKey, tables};
use wh_sql::Page;
use wh_store::{PagedTable, ReadFault, Tables};

/// The lesser of two tickets, by their bytes.
fn lesser<'t>(ticket: &'t str, other: &'t str) -> &'t str
    ensures { result.now ≡ ord_min (slice_cmp nat_cmp) ticket.now other.now }
{
    if other < ticket {
        return other;
    }
    ticket
}

/// The greater of two tickets.
fn greater<'t>(ticket: &'t str, other: &'t str) -> &'t str
    ensures { result.now ≡ ord_max (slice_cmp nat_cmp) ticket.now other.now }
{
    if other < ticket {
        return ticket;
    }
    other
}

/// The least of a ticket and those of sales.
fn least_ticket<'s>(ticket: &'s str, sales: &'s [SaleRecord]) -> &'s str
    ensures { result.now ≡ least_ticket ticket.now sales.now }
{
    let mut least = ticket;
    for sale in sales {
        least = lesser(least, sale.ticket.as_str());
    }
    least
}

/// The greatest of a ticket and those of sales.
fn greatest_ticket<'s>(ticket: &'s str, sales: &'s [SaleRecord]) -> &'s str
    ensures { result.now ≡ greatest_ticket ticket.now sales.now }
{
    let mut greatest = ticket;
    for sale in sales {
        greatest = greater(greatest, sale.ticket.as_str());
    }
    greatest
}

/// The part of a table that begins with the first line of a ticket, which is 1.
fn part_from(alloc: Global, ticket: &str) -> Result<Page<LineKey>, AllocError>
    ensures { IfOk result (λ part. part.after ≡ Some (record { ticket = ticket.now; line = 0 })) }
{
    let before = LineKey {
        ticket: Value::new(alloc, ticket)?,
        line: 0,
    };
    Ok(Page {
        after: Some(before),
    })
}

/// The key of the first of these rows.
fn key_of_first<T: PagedTable>(rows: &[T::Row]) -> Result<Option<T::Key>, AllocError>
    ensures { IfOk result (λ key. key ≡ option_map T.StoredTable.layout.key (slice_get rows.now 0)) }
{
    match rows.first() {
        Some(row) => Ok(Some(T::key_of(row)?)),
        None => Ok(None),
    }
}

/// The first key of a part of a table. `Damaged`: one of the rows that are read with it is out of its type.
fn first_key<T: PagedTable, S: Alter>(
    tables: &mut Tables<S>,
    alloc: Global,
    part: &Page<T::Key>,
) -> Result<Option<T::Key>, ReadFault>
    ensures reads { ReadsOnlyIn S.Store tables.old tables.new result }
    ensures first { WhenAtRest S.Store tables.old tables.new (λ t. IfOk result (λ first. first ≡ first_behind T.StoredTable.layout part.now.after (values (T.StoredTable.rows t)))) }
{
    let rows = tables.ask::<T, Page<T::Key>>(alloc, part)?;
    Ok(key_of_first::<T>(&rows)?)
}

/// The same of a format's facts.
fn first_fact<S: Alter>(
    tables: &mut Tables<S>,
    alloc: Global,
    format: Format,
    part: &Page<LineKey>,
) -> Result<Option<LineKey>, ReadFault>
    ensures reads { ReadsOnlyIn S.Store tables.old tables.new result }
    ensures first { WhenAtRest S.Store tables.old tables.new (λ t. IfOk result (λ first. first ≡ first_behind (fact_layout format) part.now.after (values (facts_in format t)))) }
{
    match format {
        Format::One => first_key::<tables::Fact, S>(tables, alloc, part),
        Format::Two => first_key::<tables::Fact2, S>(tables, alloc, part),
    }
}

/// Whether a line's ticket is greater than the last, or there is none.
fn is_past(key: &Option<LineKey>, last: &str) -> bool
    ensures { result ≡ is_past last.now key.now }
{
    match key {
        Some(key) => last < key.ticket.as_str(),
        None => true,
    }
}

/// Whether this says that no line is there up to the last ticket. Damage says nothing, for the row may be another ticket's: so the batch's lines are asked
/// for one by one, and just their own rows count.
fn tells_none(first: Result<Option<LineKey>, ReadFault>, last: &str) -> Result<bool, ReadFault>
    ensures { result ≡ tells_none last.now first }
{
    match first {
        Ok(key) => Ok(is_past(&key, last)),
        Err(ReadFault::Damaged(_)) => Ok(false),
        Err(fault) => Err(fault),
    }
}

/// Whether no fact of these tickets is stored. It may be so where the answer is `false`, too.
fn has_no_fact<S: Alter>(
    tables: &mut Tables<S>,
    alloc: Global,
    format: Format,
    first: &str,
    last: &str,
) -> Result<bool, ReadFault>
    ensures reads { ReadsOnlyIn S.Store tables.old tables.new result }
    ensures none { WhenAtRest S.Store tables.old tables.new (λ t. IfOk result (λ none. IsTrue none → (key : LineKey) → is_between first.now last.now key.ticket ≡ true → get (facts_in format t) key ≡ None)) }
{
    let part = part_from(alloc, first)?;
    tells_none(first_fact(tables, alloc, format, &part), last)
}

/// The same of withdrawn lines. In the first format there are none.
fn has_no_void<S: Alter>(
    tables: &mut Tables<S>,
    alloc: Global,
    format: Format,
    first: &str,
    last: &str,
) -> Result<bool, ReadFault>
    ensures reads { ReadsOnlyIn S.Store tables.old tables.new result }
    ensures none { WhenOfCommands S.Store tables.old tables.new (λ limits commands. format ≡ format_of commands → IsAccepted limits commands → IfOk result (λ none. IsTrue none → (key : LineKey) → is_between first.now last.now key.ticket ≡ true → void_at commands key ≡ None)) }
{
    match format {
        Format::One => Ok(true),
        Format::Two => {
            let part = part_from(alloc, first)?;
            tells_none(first_key::<tables::Void, S>(tables, alloc, &part), last)
        }
    }
}

/// Whether no line of these tickets was sold, from the first of them to the last.
fn has_no_line<S: Alter>(
    tables: &mut Tables<S>,
    alloc: Global,
    format: Format,
    first: &str,
    last: &str,
) -> Result<bool, ReadFault>
    ensures reads { ReadsOnlyIn S.Store tables.old tables.new result }
    ensures none { WhenOfCommands S.Store tables.old tables.new (λ limits commands. format ≡ format_of commands → IsAccepted limits commands → IfOk result (λ none. IsTrue none → (s : SaleRecord) → is_between first.now last.now s.ticket ≡ true → list_any (λ t. same_line t s) (sold commands) ≡ false)) }
{
    if !has_no_fact(tables, alloc, format, first, last)? {
        return Ok(false);
    }
    has_no_void(tables, alloc, format, first, last)
}

/// Whether no line of these sales is there, as far as one question about all of their tickets says. It may be so where the answer is `false`, too.
pub(crate) fn are_new<S: Alter>(
    tables: &mut Tables<S>,
    alloc: Global,
    format: Format,
    sales: &[SaleRecord],
) -> Result<bool, ReadFault>
    ensures reads { ReadsOnlyIn S.Store tables.old tables.new result }
    ensures new { WhenOfCommands S.Store tables.old tables.new (λ limits commands. format ≡ format_of commands → IsAccepted limits commands → IfOk result (λ new. IsTrue new → first_line_there (sold commands) 1 sales.now ≡ None)) }
{
    match sales.first() {
        Some(sale) => {
            let ticket = sale.ticket.as_str();
            let first = least_ticket(ticket, sales);
            let last = greatest_ticket(ticket, sales);
            has_no_line(tables, alloc, format, first, last)
        }
        None => Ok(false),
    }
}
