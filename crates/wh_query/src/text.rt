//! The text of an answer.

ghost use Rattle.std.specs.Prelude.{◌≡◌, ◌++◌, ◌∷◌, [], IfOk, IfErr, OnOk, map};
ghost use Rattle.std.specs.Fmt.{decimal, signed_decimal};
ghost use Rattle.csv.specs.Records.{fields_of};
ghost use Rattle.wh_report.specs.Sums.{margin};
ghost use Rattle.wh_report.specs.Text.{money};
ghost use Rattle.wh_query.specs.Asked.{words_of, column_name};
ghost use Rattle.wh_query.specs.Answer.{line_fields, header_fields, answer_text, text_in};
ghost use Rattle.wh_query.specs.Answered.{IsUntold};

use crate::asked::{Column, Query};
use crate::fault::SaleFault;
use crate::form::Form;
use crate::lines::Lines;
use crate::table::table_text;
use csv::StringRecord;
use itoa::Buffer;
use std::alloc::{AllocError, Global};
use wh_report::{CsvBuffer, Totals, money};

fn push_lines(fields: &mut StringRecord, totals: &Totals) -> Result<(), AllocError>
    ensures { OnOk result (fields_of fields.new ≡ fields_of fields.old ++ decimal totals.now.lines ∷ []) }
{
    fields.push_field(Buffer::new().format(totals.lines()))
}

fn push_quantity(fields: &mut StringRecord, totals: &Totals) -> Result<(), AllocError>
    ensures { OnOk result (fields_of fields.new ≡ fields_of fields.old ++ signed_decimal totals.now.quantity ∷ []) }
{
    fields.push_field(Buffer::new().format(totals.quantity()))
}

fn push_amount(alloc: Global, fields: &mut StringRecord, totals: &Totals) -> Result<(), AllocError>
    ensures { OnOk result (fields_of fields.new ≡ fields_of fields.old ++ money totals.now.amount ∷ []) }
{
    let text = money(alloc, totals.amount())?;
    fields.push_field(text.as_str())
}

fn push_cost(alloc: Global, fields: &mut StringRecord, totals: &Totals) -> Result<(), AllocError>
    ensures { OnOk result (fields_of fields.new ≡ fields_of fields.old ++ money totals.now.cost ∷ []) }
{
    let text = money(alloc, totals.cost())?;
    fields.push_field(text.as_str())
}

fn push_margin(alloc: Global, fields: &mut StringRecord, totals: &Totals) -> Result<(), AllocError>
    ensures { OnOk result (fields_of fields.new ≡ fields_of fields.old ++ money (margin totals.now) ∷ []) }
{
    let text = money(alloc, totals.margin())?;
    fields.push_field(text.as_str())
}

fn push_figures(alloc: Global, fields: &mut StringRecord, totals: &Totals) -> Result<(), AllocError>
    ensures { OnOk result (fields_of fields.new ≡ fields_of fields.old ++ (decimal totals.now.lines ∷ signed_decimal totals.now.quantity ∷ money totals.now.amount ∷ money totals.now.cost ∷ money (margin totals.now) ∷ [])) }
{
    push_lines(fields, totals)?;
    push_quantity(fields, totals)?;
    push_amount(alloc, fields, totals)?;
    push_cost(alloc, fields, totals)?;
    push_margin(alloc, fields, totals)?;
    Ok(())
}

fn push_labels(fields: &mut StringRecord, labels: &[&str]) -> Result<(), AllocError>
    ensures { OnOk result (fields_of fields.new ≡ fields_of fields.old ++ words_of labels.now) }
{
    'labels: for label in labels {
        fields.push_field(label)?;
    }
    Ok(())
}

fn push_names(
    alloc: Global,
    fields: &mut StringRecord,
    columns: &[Column],
) -> Result<(), AllocError>
    ensures { OnOk result (fields_of fields.new ≡ fields_of fields.old ++ map column_name columns.now) }
{
    'columns: for column in columns {
        let name = column.name(alloc)?;
        fields.push_field(name.as_str())?;
    }
    Ok(())
}

fn line_fields(alloc: Global, labels: &[&str], totals: &Totals) -> Result<StringRecord, AllocError>
    ensures { IfOk result (λ fields. fields_of fields ≡ line_fields (words_of labels.now) totals.now) }
{
    let mut fields = StringRecord::new(alloc);
    push_labels(&mut fields, labels)?;
    push_figures(alloc, &mut fields, totals)?;
    Ok(fields)
}

fn header_fields(alloc: Global, columns: &[Column]) -> Result<StringRecord, AllocError>
    ensures { IfOk result (λ fields. fields_of fields ≡ header_fields columns.now) }
{
    let mut fields = StringRecord::new(alloc);
    push_names(alloc, &mut fields, columns)?;
    fields.push_field("lines")?;
    fields.push_field("quantity")?;
    fields.push_field("amount")?;
    fields.push_field("cost")?;
    fields.push_field("margin")?;
    Ok(fields)
}

/// The header, and a line for each tuple of labels.
fn answer_text(alloc: Global, query: &Query, lines: &Lines) -> Result<Vec<u8>, AllocError>
    ensures { IfOk result (λ text. text.items ≡ answer_text query.now.columns lines.now) }
{
    let mut text = CsvBuffer::new(alloc);
    text.add_fields(header_fields(alloc, query.columns())?)?;
    for (labels, totals) in lines.figures.iter() {
        text.add_fields(line_fields(alloc, labels, totals)?)?;
    }
    Ok(text.into_lines())
}

/// The text in the form that is asked for.
pub(crate) fn text_in(alloc: Global, query: &Query, lines: &Lines) -> Result<Vec<u8>, SaleFault>
    ensures text { IfOk result (λ text. text.items ≡ text_in query.now.form query.now.columns lines.now) }
    ensures untold { IfErr result (IsUntold lines.now) }
{
    match query.form() {
        Form::Csv => {
            let text = answer_text(alloc, query, lines)?;
            Ok(text)
        }
        Form::Table => table_text(alloc, query, lines),
    }
}
