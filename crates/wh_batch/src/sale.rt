//! Batches of sales.

ghost use Rattle.std.specs.Prelude.{◌≡◌, ◌≤◌, map, length, take, IfOk};
ghost use Rattle.csv.specs.Records.{fields_of};
ghost use Rattle.wh_day.specs.Reading.{Gives};
ghost use Rattle.wh_batch.specs.Layouts.{sales_columns, fields_of_a_sale, undiscounted, discount_in, sale_record, sale_records};

use crate::batch::batch_of;
use crate::column::Column;
use crate::fault::{BatchFault, FaultKind};
use crate::fields::{customer_of, day_of, key_of};
use crate::holds::Holds;
use crate::keys::RecordKey;
use crate::layout::RecordLayout;
use crate::numbers::{amount_of, discount_of, line_of, quantity_of};
use crate::records::SaleRecords;
use csv::ByteRecord;
use std::alloc::{AllocError, Global};
use wh_day::{KEY_LIMIT, ParseError, TICKET_LIMIT};
use wh_policy::{Format, Policy, SaleRecord, Years};

/// The records of a batch of sales, in order. `Memory` comes where a growth was refused, or where the CSV reader gave up.
#[tactic(auto, unfolding(crate::specs::Layouts::sale_records))]
pub fn sale_records(
    alloc: Global,
    policy: &Policy,
    format: Format,
    bytes: &[u8],
) -> Result<SaleRecords, ParseError<BatchFault>>
    ensures { Gives (λ records. records) result (sale_records policy.now format bytes.now) }
{
    let layout = SalesLayout {
        format,
        years: policy.years,
    };
    Ok(SaleRecords::of(batch_of(alloc, &layout, bytes)?))
}

/// The columns of a sale; the first format has nine of them.
pub(crate) fn sales_columns<'a>(
    alloc: Global,
    format: Format,
) -> Result<Vec<Column<'a>>, AllocError>
    ensures { IfOk result (λ columns. columns.items ≡ sales_columns format) }
{
    let all = [
        Column::new("ticket", Holds::Ticket),
        Column::new("line", Holds::Line),
        Column::new("day", Holds::Day),
        Column::new("store", Holds::Key),
        Column::new("product", Holds::Key),
        Column::new("customer", Holds::CustomerKey),
        Column::new("quantity", Holds::Quantity),
        Column::new("amount", Holds::Amount),
        Column::new("cost", Holds::Amount),
        Column::new("discount", Holds::Discount),
    ];
    let mut columns = Vec::from_array(alloc, all)?;
    columns.truncate(fields_of_a_sale(format));
    Ok(columns)
}

/// A record has a ticket and a line, a day, a store, a product and perhaps a customer, a quantity, an amount and a cost; in the second
/// format a discount too.
#[derive(Drop)]
pub(crate) struct SalesLayout {
    pub(crate) format: Format,
    pub(crate) years: Years,
}

impl RecordLayout for SalesLayout {
    ghost use Rattle.wh_batch.specs.Layouts.{sales_layout};

    type Record = SaleRecord;

    ghost layout = { λ s. sales_layout s.format s.years };

    fn columns(&self, alloc: Global) -> Result<Vec<Column<'_>>, AllocError> {
        sales_columns(alloc, self.format)
    }

    fn read(&self, _alloc: Global, row: &ByteRecord) -> Result<SaleRecord, ParseError<FaultKind>> {
        sale_record(self.format, row)
    }

    fn key(&self, record: &SaleRecord) -> RecordKey {
        RecordKey::new(&record.ticket, record.line)
    }

    fn is_within(&self, record: &SaleRecord) -> bool {
        self.years.contains(record.day)
    }
}

// How many fields a sale has.
fn fields_of_a_sale(format: Format) -> usize
    ensures { result ≡ fields_of_a_sale format }
{
    match format {
        Format::One => 9,
        Format::Two => 10,
    }
}

#[tactic(auto, unfolding(crate::specs::Layouts::sale_record))]
fn sale_record(format: Format, row: &ByteRecord) -> Result<SaleRecord, ParseError<FaultKind>>
    ensures { Gives (λ r. r) result (sale_record format (fields_of row.now)) }
{
    if row.len() != fields_of_a_sale(format) {
        return Err(ParseError::Fault(FaultKind::WrongLength));
    }
    let sale = undiscounted(&nine_fields(row))?;
    let discount = discount_in(format, row)?;
    Ok(SaleRecord { discount, ..sale })
}

// The discount of a row that has as many fields as the format says.
#[tactic(auto, unfolding(crate::specs::Layouts::discount_in))]
fn discount_in(format: Format, row: &ByteRecord) -> Result<u64, ParseError<FaultKind>>
    ensures { Gives (λ discount. discount) result (discount_in format (fields_of row.now)) }
{
    match format {
        Format::One => Ok(0),
        Format::Two => discount_of(row.get(9).unwrap_or(&[])),
    }
}

// The first nine fields of a row.
fn nine_fields(row: &ByteRecord) -> [&[u8]; 9]
    requires { 9 ≤ length (fields_of row.now) }
    ensures { map (λ f. f.now) result ≡ take 9 (fields_of row.now) }
{
    let mut fields: [&[u8]; 9] = [&[]; 9];
    for i in 0..9 {
        if let Some(field) = row.get(i) {
            fields[i] = field;
        }
    }
    fields
}

// The sale that nine fields write, without a discount.
#[tactic(auto, using(crate::proofs::FieldLemmas::nine_fields), unfolding(crate::specs::Layouts::undiscounted))]
fn undiscounted(fields: &[&[u8]; 9]) -> Result<SaleRecord, ParseError<FaultKind>>
    ensures { Gives (λ r. r) result (undiscounted (map (λ f. f.now) fields.now)) }
{
    let [
        ticket,
        line,
        day,
        store,
        product,
        customer,
        quantity,
        amount,
        cost,
    ] = fields;
    Ok(SaleRecord {
        ticket: key_of(TICKET_LIMIT, ticket)?,
        line: line_of(line)?,
        day: day_of(day)?,
        store: key_of(KEY_LIMIT, store)?,
        product: key_of(KEY_LIMIT, product)?,
        customer: customer_of(customer)?,
        quantity: quantity_of(quantity)?,
        amount: amount_of(amount)?,
        cost: amount_of(cost)?,
        discount: 0,
    })
}
