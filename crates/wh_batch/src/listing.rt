//! Listing the faults of a batch.

ghost use Rattle.std.specs.Prelude.{◌≡◌, ◌∷◌, [], ◌++◌, map, option_to_list, IfOk, OnOk};
ghost use Rattle.csv.specs.Records.{fields_of};
ghost use Rattle.wh_batch.specs.Batch.{next_record};
ghost use Rattle.wh_batch.specs.Columns.{names};
ghost use Rattle.wh_batch.specs.Faults.{whole, located, fault_of_row, key_of_row, wrong_header, faults_after, faults_of, faults_of_kind, AreFirst};
ghost use Rattle.wh_batch.specs.Keys.{AreSameKeys};

use crate::batch::{BATCH_LIMIT, MOST_RECORDS, next_record};
use crate::column::{Column, is_header};
use crate::dimension::DimensionLayout;
use crate::fault::{BatchFault, FaultKind};
use crate::fields::fields_of;
use crate::keys::Keys;
use crate::kind::BatchKind;
use crate::layout::RecordLayout;
use crate::listed::{Faults, ListedFault, RecordFault};
use crate::place::{field_of, first_difference, place_of};
use crate::row_place::{RowPlace, place_of_row};
use crate::rows::Rows;
use crate::sale::SalesLayout;
use crate::void::VoidsLayout;
use csv::ByteRecord;
use std::alloc::{AllocError, Global};
use wh_day::ParseError;
use wh_policy::{Format, Policy};

/// The first faults of a batch of this kind, at most `most`, in the order of its records, and how many more there are. A batch
/// that is read has none. The error comes where a growth was refused, or where the CSV reader gave up.
pub fn faults(
    alloc: Global,
    kind: BatchKind,
    policy: &Policy,
    format: Format,
    bytes: &[u8],
    most: usize,
) -> Result<Faults, AllocError>
    ensures { IfOk result (λ faults. AreFirst most (faults_of_kind kind policy.now format bytes.now) faults) }
{
    let all = faults_of_kind(alloc, kind, policy, format, bytes)?;
    Ok(first_of(all, most))
}

/// The first of these faults, and how many more there are.
fn first_of(mut all: Vec<ListedFault>, most: usize) -> Faults
    ensures { AreFirst most (map (λ l. l.fault) all.items) result }
{
    let more = all.len().saturating_sub(most) as u64;
    all.truncate(most);
    Faults { listed: all, more }
}

/// All faults of a batch of this kind.
#[tactic(auto, unfolding(crate::specs::Faults::faults_of_kind))]
fn faults_of_kind(
    alloc: Global,
    kind: BatchKind,
    policy: &Policy,
    format: Format,
    bytes: &[u8],
) -> Result<Vec<ListedFault>, AllocError>
    ensures { IfOk result (λ all. map (λ l. l.fault) all.items ≡ faults_of_kind kind policy.now format bytes.now) }
{
    match (kind, format) {
        (BatchKind::Dimension(dim), _) => {
            let attributes = policy.attributes(dim);
            faults_of(alloc, &DimensionLayout { attributes }, bytes)
        }
        (BatchKind::Sales, _) => {
            let years = policy.years;
            faults_of(alloc, &SalesLayout { format, years }, bytes)
        }
        (BatchKind::Voids, Format::One) => only(
            alloc,
            whole(0, FaultKind::NotInFormat),
            RowPlace::of_none(),
        ),
        (BatchKind::Voids, Format::Two) => faults_of(alloc, &VoidsLayout, bytes),
    }
}

/// All faults of a batch.
#[tactic(auto, unfolding(crate::specs::Faults::faults_of, crate::specs::Faults::faults_below_header))]
fn faults_of<L: RecordLayout>(
    alloc: Global,
    layout: &L,
    bytes: &[u8],
) -> Result<Vec<ListedFault>, AllocError>
    ensures { IfOk result (λ all. map (λ l. l.fault) all.items ≡ faults_of (L.layout layout.now) bytes.now) }
{
    if bytes.len() > BATCH_LIMIT {
        return only(alloc, whole(0, FaultKind::TooLarge), RowPlace::of_none());
    }
    let columns = layout.columns(alloc)?;
    let mut rows = Rows::new(alloc, bytes);
    let mut row = ByteRecord::new(alloc);
    if !rows.next(&mut row)? {
        let fault = wrong_header(alloc, &columns, &[])?;
        return only(alloc, fault, RowPlace::of_none());
    }
    let header = fields_of(alloc, &row)?;
    if !is_header(&columns, &header) {
        let fault = wrong_header(alloc, &columns, &header)?;
        return only(alloc, fault, place_of_row(bytes, &rows, &row));
    }
    faults_after(alloc, layout, &columns, bytes, &mut rows)
}

/// The faults below the header.
fn faults_after<L: RecordLayout>(
    alloc: Global,
    layout: &L,
    columns: &[Column],
    bytes: &[u8],
    rows: &mut Rows,
) -> Result<Vec<ListedFault>, AllocError>
    requires { columns.now ≡ (L.layout layout.now).columns }
    ensures { IfOk result (λ all. map (λ l. l.fault) all.items ≡ faults_after (L.layout layout.now) [] 1 rows.old) }
{
    let mut row = ByteRecord::new(alloc);
    let mut keys = Keys::with_capacity(alloc, 0)?;
    let mut all = Vec::new(alloc);
    for number in 1..MOST_RECORDS + 1 {
        if !rows.next(&mut row)? {
            return Ok(all);
        }
        let fault = fault_of_row(alloc, layout, columns, &mut keys, number, &row)?;
        add(&mut all, fault, place_of_row(bytes, rows, &row))?;
    }
    if !rows.next(&mut row)? {
        return Ok(all);
    }
    let fault = whole(MOST_RECORDS + 1, FaultKind::TooLarge);
    add(&mut all, Some(fault), place_of_row(bytes, rows, &row))?;
    Ok(all)
}

/// Adds a fault, if there is one.
fn add(
    all: &mut Vec<ListedFault>,
    fault: Option<RecordFault>,
    row: RowPlace,
) -> Result<(), AllocError>
    ensures { OnOk result (map (λ l. l.fault) all.new.items ≡ map (λ l. l.fault) all.old.items ++ option_to_list fault) }
{
    if let Some(fault) = fault {
        all.push(ListedFault { fault, row })?;
    }
    Ok(())
}

/// The fault of a row, if reading it gives one.
fn fault_of_row<L: RecordLayout>(
    alloc: Global,
    layout: &L,
    columns: &[Column],
    keys: &mut Keys,
    number: u32,
    row: &ByteRecord,
) -> Result<Option<RecordFault>, AllocError>
    ensures fault { IfOk result (λ fault. option_to_list fault ≡ fault_of_row columns.now number (fields_of row.now) (next_record (L.layout layout.now) keys.old (fields_of row.now))) }
    ensures counts { OnOk result (AreSameKeys keys.new (keys.old ++ key_of_row (L.layout layout.now) (fields_of row.now))) }
{
    match next_record(alloc, layout, keys, row) {
        Ok(_) => Ok(None),
        Err(ParseError::Memory) => Err(AllocError),
        Err(ParseError::Fault(kind)) => Ok(Some(located(alloc, columns, number, row, kind)?)),
    }
}

/// A fault of the row with this number.
fn located(
    alloc: Global,
    columns: &[Column],
    number: u32,
    row: &ByteRecord,
    kind: FaultKind,
) -> Result<RecordFault, AllocError>
    ensures { IfOk result (λ fault. fault ≡ located columns.now number (fields_of row.now) kind) }
{
    let fields = fields_of(alloc, row)?;
    let field = match place_of(alloc, columns, &fields, kind)? {
        Some(place) => Some(field_of(alloc, &fields, place)?),
        None => None,
    };
    let fault = BatchFault { kind, number };
    Ok(RecordFault { fault, field })
}

fn whole(number: u32, kind: FaultKind) -> RecordFault
    ensures { result ≡ whole number kind }
{
    let fault = BatchFault { kind, number };
    RecordFault { fault, field: None }
}

fn wrong_header(
    alloc: Global,
    columns: &[Column],
    header: &[&[u8]],
) -> Result<RecordFault, AllocError>
    ensures { IfOk result (λ fault. fault ≡ wrong_header (map (λ f. f.now) header.now) (names columns.now)) }
{
    let place = first_difference(columns, header);
    let field = Some(field_of(alloc, header, place)?);
    let fault = BatchFault {
        kind: FaultKind::WrongHeader,
        number: 0,
    };
    Ok(RecordFault { fault, field })
}

fn only(alloc: Global, fault: RecordFault, row: RowPlace) -> Result<Vec<ListedFault>, AllocError>
    ensures { IfOk result (λ all. map (λ l. l.fault) all.items ≡ fault ∷ []) }
{
    let mut all = Vec::new(alloc);
    all.push(ListedFault { fault, row })?;
    Ok(all)
}
