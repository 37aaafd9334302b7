//! Which sales are in the slice, and under which labels.

ghost use Rattle.std.specs.Prelude.{◌≡◌, ◌≢◌, if◌then◌else◌, Some, None, Ok, Err, IfOk, IfErr, map};
ghost use Rattle.wh_report.specs.declared.column.LabelColumn.{LabelColumn as OfColumn};
ghost use Rattle.wh_query.specs.Asked.{words_of};
ghost use Rattle.wh_query.specs.Led.{lead_of};
ghost use Rattle.wh_query.specs.Slice.{slice_label};
ghost use Rattle.wh_query.specs.declared.fault.SaleFault.TheVariants.{NoLabel, Damaged};

use crate::asked::Query;
use crate::fault::SaleFault;
use crate::led::{LedColumn, put_labels};
use wh_rows::LinkedSale;

/// Puts the labels of a sale in the columns, where it is as the conditions want it; where it isn't, the answer is `false`.
/// `NoLabel`: the first column in which it lacks one.
pub(crate) fn slice_label<'r>(
    query: &Query,
    filters: &'r [LedColumn],
    columns: &'r [LedColumn],
    sale: &LinkedSale,
    labels: &mut Vec<&'r str>,
) -> Result<bool, SaleFault>
    ensures within { IfOk result (λ within. slice_label query.now.conditions (map lead_of filters.now) (map lead_of columns.now) sale.now ≡ Ok (if within then Some (words_of labels.new.items) else None)) }
    ensures lacks { IfErr result (λ e. (column : OfColumn) → e ≡ NoLabel column → slice_label query.now.conditions (map lead_of filters.now) (map lead_of columns.now) sale.now ≡ Err column) }
    ensures kinds { IfErr result (λ e. e ≢ Damaged) }
{
    put_labels(filters, sale, labels)?;
    if !query.holds(labels.as_slice()) {
        return Ok(false);
    }
    put_labels(columns, sale, labels)?;
    Ok(true)
}
