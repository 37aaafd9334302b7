//! Batches under the policy of a trial: the records that are read of them, or their fault.
//!
//! KIND is `product`, `store`, `customer`, `sales`; `discounted`, sales in the second format; `void`, voids in the second format; or
//! `early`, voids in the first, which has none. In BYTES `\n`, `\r` and `\x` with two hexadecimal digits are bytes that a line
//! can't have. A batch's answer is its records, one a line, or the number and the fault. The verbs:
//!
//! - `batch KIND BYTES`: the answer to a batch of these bytes.
//! - `rows KIND BYTES`: to one of the kind's header, the end of that line and these bytes.
//! - `any KIND BYTES`: to the same, read as a batch of any kind; of its records the number alone.
//! - `cuts BYTES`: to each beginning of a batch of customers. An answer is written once, after the length from which it holds.
//! - `many KIND NUMBER TEXT`: to a batch of so many records and this text; of its records the number alone.
//! - `long KIND LENGTH BYTES`: the answer to these bytes with line ends after them, in all so many bytes.
//! - `faults KIND MOST BYTES`: the first faults of a batch of these bytes, one a line: its number, its line in the file, the place
//!   of the field (`-` where there is none), the fault and the field's text; and how many more there are.
//! - `crowd KIND NUMBER TEXT`: all faults of a batch of so many records and this text.
//! - `columns KIND`: the names of the columns, and what each holds.
//! - `made KIND`: a record that is made by hand.
//! - `manifest BYTES`: the commands that a manifest of these bytes lists, one a line, or the number of the record that is none.
//! - `reports BYTES`: the reports that a list of these bytes asks for, in the same way, the words of each parted by `|`.

use crate::words::{dim, number, push_next, push_number, push_values};
use std::alloc::{AllocError, Global};
use std::fmt::Write;
use wh_batch::{
    BadManifest, BatchFault, BatchKind, DimensionRecords, Faults, ListedFault, ListedReport,
    Manifest, ManifestEntry, Records, ReportList, SaleRecords, VoidRecords, columns_of,
    dimension_records, faults, lines_above, read, sale_records, void_records,
};
use wh_day::{Day, NaturalKey, ParseError, Values};
use wh_policy::{DimensionRecord, Format, Policy, SaleRecord, VoidRecord};
use wh_scenarios::{Driver, NotMade, Step, bytes_of, parted};

#[derive(Drop)]
pub struct BatchDriver;

impl Driver for BatchDriver {
    fn start(_alloc: Global) -> Result<BatchDriver, NotMade> {
        Ok(BatchDriver)
    }

    fn perform(
        self,
        alloc: Global,
        step: &Step<'_>,
        answer: &mut String,
    ) -> Result<BatchDriver, NotMade> {
        batch_step(alloc, step.words, answer)?;
        Ok(self)
    }
}

fn batch_step(alloc: Global, words: &str, answer: &mut String) -> Result<(), AllocError> {
    let (verb, rest) = parted(words, ' ');
    let (word, text) = parted(rest, ' ');
    match verb {
        "batch" => push_batch(alloc, answer, word, &bytes_of(alloc, text)?),
        "rows" => push_batch(alloc, answer, word, &with_header(alloc, word, text)?),
        "any" => push_any(alloc, answer, word, &with_header(alloc, word, text)?),
        "cuts" => push_cuts(alloc, answer, &bytes_of(alloc, rest)?),
        "many" => push_many(alloc, answer, word, text),
        "long" => push_long(alloc, answer, word, text),
        "faults" => push_faults(alloc, answer, word, text),
        "crowd" => push_crowd(alloc, answer, word, text),
        "columns" => push_columns(alloc, answer, word),
        "made" => push_made(alloc, answer, word),
        "manifest" => push_manifest(alloc, answer, &bytes_of(alloc, rest)?),
        "reports" => push_reports(alloc, answer, &bytes_of(alloc, rest)?),
        _ => answer.push_str("no such step"),
    }
}

/// The kind that a word names.
fn kind(word: &str) -> BatchKind {
    match word {
        "sales" | "discounted" => BatchKind::Sales,
        "void" | "early" => BatchKind::Voids,
        _ => BatchKind::Dimension(dim(word)),
    }
}

/// The format that a batch is written in.
fn format_of(word: &str) -> Format {
    match word {
        "discounted" | "void" => Format::Two,
        _ => Format::One,
    }
}

fn header(word: &str) -> &'static str {
    match word {
        "product" => "id,day,description,brand\n",
        "store" => "id,day,city\n",
        "customer" => "id,day,tier\n",
        "discounted" => { "ticket,line,day,store,product,customer,quantity,amount,cost,discount\n" }
        "void" | "early" => "ticket,line\n",
        _ => "ticket,line,day,store,product,customer,quantity,amount,cost\n",
    }
}

/// The header of a kind and the bytes that a text writes.
fn with_header(alloc: Global, word: &str, text: &str) -> Result<Vec<u8>, AllocError> {
    let mut found = Vec::from_slice(alloc, header(word).as_bytes())?;
    found.extend_from_slice(&bytes_of(alloc, text)?)?;
    Ok(found)
}

fn push_fault(answer: &mut String, e: ParseError<BatchFault>) -> Result<(), AllocError> {
    match e {
        ParseError::Memory => Err(AllocError),
        ParseError::Fault(fault) => {
            push_number(answer, fault.number as i128)?;
            write!(answer, " {:?}", fault.kind)
        }
    }
}

fn push_batch(
    alloc: Global,
    answer: &mut String,
    word: &str,
    text: &[u8],
) -> Result<(), AllocError> {
    let policy = Policy::trial(alloc)?;
    match kind(word) {
        BatchKind::Dimension(dim) => {
            match dimension_records(alloc, dim, &policy, text) {
                Ok(records) => push_members(answer, &records),
                Err(e) => push_fault(answer, e),
            }
        }
        BatchKind::Sales => match sale_records(alloc, &policy, format_of(word), text) {
            Ok(records) => push_sales(answer, &records),
            Err(e) => push_fault(answer, e),
        },
        BatchKind::Voids => match void_records(alloc, format_of(word), text) {
            Ok(records) => push_voids(answer, &records),
            Err(e) => push_fault(answer, e),
        },
    }
}

fn push_any(alloc: Global, answer: &mut String, word: &str, text: &[u8]) -> Result<(), AllocError> {
    let policy = Policy::trial(alloc)?;
    match read(alloc, kind(word), &policy, format_of(word), text) {
        Ok(Records::Dimension(records)) => {
            push_count(answer, "of a dimension", records.as_slice().len())
        }
        Ok(Records::Sales(records)) => push_count(answer, "of sales", records.as_slice().len()),
        Ok(Records::Voids(records)) => push_count(answer, "of voids", records.as_slice().len()),
        Err(e) => push_fault(answer, e),
    }
}

fn push_count(answer: &mut String, what: &str, count: usize) -> Result<(), AllocError> {
    answer.push_str(what)?;
    push_next(answer, count as i128)
}

fn push_members(answer: &mut String, records: &DimensionRecords) -> Result<(), AllocError> {
    if records.as_slice().is_empty() {
        return answer.push_str("no record");
    }
    for incoming in records.as_slice() {
        push_member(answer, incoming)?;
    }
    Ok(())
}

fn push_member(answer: &mut String, incoming: &DimensionRecord) -> Result<(), AllocError> {
    answer.push_str(incoming.natural.as_str())?;
    push_next(answer, incoming.day.key() as i128)?;
    answer.push_str("|")?;
    push_values(answer, &incoming.values)?;
    answer.push_str("\n")
}

fn push_sales(answer: &mut String, records: &SaleRecords) -> Result<(), AllocError> {
    if records.as_slice().is_empty() {
        return answer.push_str("no record");
    }
    for sale in records.as_slice() {
        push_sale(answer, sale)?;
    }
    Ok(())
}

fn push_sale(answer: &mut String, sale: &SaleRecord) -> Result<(), AllocError> {
    answer.push_str(sale.ticket.as_str())?;
    push_next(answer, sale.line as i128)?;
    push_next(answer, sale.day.key() as i128)?;
    push_key(answer, &sale.store)?;
    push_key(answer, &sale.product)?;
    match &sale.customer {
        Some(customer) => push_key(answer, customer)?,
        None => answer.push_str(" -")?,
    }
    push_next(answer, sale.quantity as i128)?;
    push_next(answer, sale.amount as i128)?;
    push_next(answer, sale.cost as i128)?;
    if sale.discount > 0 {
        push_next(answer, sale.discount as i128)?;
    }
    answer.push_str("\n")
}

fn push_voids(answer: &mut String, records: &VoidRecords) -> Result<(), AllocError> {
    if records.as_slice().is_empty() {
        return answer.push_str("no record");
    }
    for void in records.as_slice() {
        push_void(answer, void)?;
    }
    Ok(())
}

fn push_void(answer: &mut String, void: &VoidRecord) -> Result<(), AllocError> {
    answer.push_str(void.ticket.as_str())?;
    push_next(answer, void.line as i128)?;
    answer.push_str("\n")
}

fn push_key(answer: &mut String, key: &NaturalKey) -> Result<(), AllocError> {
    answer.push_str(" ")?;
    answer.push_str(key.as_str())
}

fn push_cuts(alloc: Global, answer: &mut String, text: &[u8]) -> Result<(), AllocError> {
    let mut before = String::new(alloc);
    for end in 0..text.len() + 1 {
        let mut found = String::new(alloc);
        push_batch(alloc, &mut found, "customer", &text[..end])?;
        if found.as_str() != before.as_str() {
            push_number(answer, end as i128)?;
            answer.push_str(": ")?;
            answer.push_str(found.as_str().trim())?;
            answer.push_str("\n")?;
        }
        before = found;
    }
    Ok(())
}

/// A row of its own for each number.
fn push_row(text: &mut String, word: &str, number: u64) -> Result<(), AllocError> {
    match word {
        "sales" => write!(text, "T{number},1,2024-01-05,S1,P1,,1,1,1\n"),
        "void" => write!(text, "T{number},1\n"),
        _ => write!(text, "C{number},2024-07-01,Gold\n"),
    }
}

/// The header, as many rows as the first word says, and the text after it.
fn many_rows(alloc: Global, word: &str, rest: &str) -> Result<String, AllocError> {
    let (count, after) = parted(rest, ' ');
    let mut text = String::from_str(alloc, header(word))?;
    for at in 0..number(count) {
        push_row(&mut text, word, at)?;
    }
    text.push_str(after)?;
    Ok(text)
}

fn push_many(alloc: Global, answer: &mut String, word: &str, rest: &str) -> Result<(), AllocError> {
    let text = many_rows(alloc, word, rest)?;
    push_any(alloc, answer, word, text.as_str().as_bytes())
}

fn push_crowd(
    alloc: Global,
    answer: &mut String,
    word: &str,
    rest: &str,
) -> Result<(), AllocError> {
    let text = many_rows(alloc, word, rest)?;
    push_first(alloc, answer, word, text.as_str().as_bytes(), usize::MAX)
}

fn push_faults(
    alloc: Global,
    answer: &mut String,
    word: &str,
    rest: &str,
) -> Result<(), AllocError> {
    let (most, text) = parted(rest, ' ');
    let bytes = bytes_of(alloc, text)?;
    push_first(alloc, answer, word, &bytes, number(most) as usize)
}

/// The first faults of a batch, at most so many.
fn push_first(
    alloc: Global,
    answer: &mut String,
    word: &str,
    bytes: &[u8],
    most: usize,
) -> Result<(), AllocError> {
    let policy = Policy::trial(alloc)?;
    let found = faults(alloc, kind(word), &policy, format_of(word), bytes, most)?;
    push_found(answer, bytes, &found)
}

fn push_found(answer: &mut String, bytes: &[u8], found: &Faults) -> Result<(), AllocError> {
    if found.listed.is_empty() && found.more == 0 {
        return answer.push_str("no fault");
    }
    for listed in &found.listed {
        push_located(answer, bytes, listed)?;
    }
    if found.more > 0 {
        push_number(answer, found.more as i128)?;
        answer.push_str(" more")?;
    }
    Ok(())
}

/// The row of a fault, the line of the file where it begins, the column's place or `-`, the kind, and after `|` the text that stands there.
fn push_located(answer: &mut String, bytes: &[u8], listed: &ListedFault) -> Result<(), AllocError> {
    let fault = &listed.fault.fault;
    push_number(answer, fault.number as i128)?;
    push_next(
        answer,
        lines_above(bytes, listed.row.start).saturating_add(1) as i128,
    )?;
    match &listed.fault.field {
        None => write!(answer, " - {:?}", fault.kind)?,
        Some(field) => {
            push_next(answer, field.place as i128)?;
            write!(answer, " {:?}|", fault.kind)?;
            push_bytes(answer, field.text.as_bytes())?;
        }
    }
    answer.push_str("\n")
}

/// The bytes, with `\x` and two digits for those that a line can't have.
fn push_bytes(answer: &mut String, bytes: &[u8]) -> Result<(), AllocError> {
    for byte in bytes {
        match byte {
            32..=126 => answer.push(*byte as char)?,
            _ => write!(answer, "\\x{byte:02X}")?,
        }
    }
    Ok(())
}

fn push_columns(alloc: Global, answer: &mut String, word: &str) -> Result<(), AllocError> {
    let policy = Policy::trial(alloc)?;
    let found = columns_of(alloc, kind(word), &policy, format_of(word))?;
    for column in &found {
        answer.push_str(column.name())?;
        write!(answer, " {:?}\n", column.holds())?;
    }
    Ok(())
}

fn push_long(alloc: Global, answer: &mut String, word: &str, rest: &str) -> Result<(), AllocError> {
    let (length, text) = parted(rest, ' ');
    let mut text = bytes_of(alloc, text)?;
    for _ in text.len() as u64..number(length) {
        text.push(b'\n')?;
    }
    push_batch(alloc, answer, word, &text)
}

fn key(text: &str) -> Option<NaturalKey> {
    NaturalKey::read(32, text.as_bytes())
}

fn push_made(alloc: Global, answer: &mut String, word: &str) -> Result<(), AllocError> {
    match kind(word) {
        BatchKind::Dimension(_) => {
            let mut records = DimensionRecords::new(alloc);
            if let Some(natural) = key("C9") {
                let day = Day::first();
                let values = Values::new(alloc);
                records.push(DimensionRecord {
                    natural,
                    day,
                    values,
                })?;
            }
            push_members(answer, &records)
        }
        BatchKind::Sales => push_made_sale(alloc, answer),
        BatchKind::Voids => push_made_void(alloc, answer),
    }
}

fn push_made_sale(alloc: Global, answer: &mut String) -> Result<(), AllocError> {
    let mut records = SaleRecords::new(alloc);
    if let (Some(ticket), Some(store), Some(product)) = (key("T1"), key("S1"), key("P1")) {
        records.push(SaleRecord {
            ticket,
            line: 1,
            day: Day::last(),
            store,
            product,
            customer: None,
            quantity: -1,
            amount: -250,
            cost: -160,
            discount: 0,
        })?;
    }
    push_sales(answer, &records)
}

fn push_made_void(alloc: Global, answer: &mut String) -> Result<(), AllocError> {
    let mut records = VoidRecords::new(alloc);
    if let Some(ticket) = key("T1") {
        records.push(VoidRecord { ticket, line: 9999 })?;
    }
    push_voids(answer, &records)
}

fn push_manifest(alloc: Global, answer: &mut String, text: &[u8]) -> Result<(), AllocError> {
    match Manifest::read(alloc, text) {
        Ok(manifest) => push_entries(answer, manifest.as_slice()),
        Err(e) => push_bad(answer, e),
    }
}

fn push_bad(answer: &mut String, e: ParseError<BadManifest>) -> Result<(), AllocError> {
    match e {
        ParseError::Fault(bad) => write!(answer, "{} is none", bad.number),
        ParseError::Memory => Err(AllocError),
    }
}

fn push_entries(answer: &mut String, entries: &[ManifestEntry]) -> Result<(), AllocError> {
    if entries.is_empty() {
        return answer.push_str("no command");
    }
    for entry in entries {
        let (word, id, path) = (entry.kind.word(), entry.id.as_str(), entry.path.as_str());
        write!(answer, "{word} {id} {path}\n")?;
    }
    Ok(())
}

fn push_reports(alloc: Global, answer: &mut String, text: &[u8]) -> Result<(), AllocError> {
    match ReportList::read(alloc, text) {
        Ok(list) => push_listed(answer, list.as_slice()),
        Err(e) => push_bad(answer, e),
    }
}

fn push_listed(answer: &mut String, reports: &[ListedReport]) -> Result<(), AllocError> {
    if reports.is_empty() {
        return answer.push_str("no report");
    }
    for report in reports {
        let (attribute, mode) = (report.attribute.as_str(), report.mode.as_str());
        let (from, to) = (report.from.as_str(), report.to.as_str());
        write!(answer, "{attribute}|{mode}|{from}|{to}\n")?;
    }
    Ok(())
}
