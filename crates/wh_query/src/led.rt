//! Where the keys of facts lead in several columns.

ghost use Rattle.std.specs.Prelude.{◌≡◌, ◌≢◌, ◌++◌, ◌∷◌, [], OnOk, IfErr, Ok, Err, map, option_map};
ghost use Rattle.wh_report.specs.declared.column.LabelColumn.{LabelColumn as OfColumn};
ghost use Rattle.wh_query.specs.Asked.{words_of};
ghost use Rattle.wh_query.specs.Led.{lead_of};
ghost use Rattle.wh_query.specs.Slice.{lead_label, lead_labels};
ghost use Rattle.wh_query.specs.declared.fault.SaleFault.TheVariants.{NoLabel, Damaged};

use crate::fault::SaleFault;
use std::alloc::AllocError;
use wh_report::{LabelColumn, Labels};
use wh_rows::LinkedSale;

/// A column, and the labels to which the keys of facts lead there.
#[derive(Drop)]
pub(crate) struct LedColumn {
    pub(crate) column: LabelColumn,
    pub(crate) labels: Labels,
}

impl LedColumn {
    /// The label of a sale there, by one of its fact's keys.
    fn label(&self, sale: &LinkedSale) -> Option<&str>
        ensures { option_map (λ text. text.now) result ≡ lead_label (lead_of self.now) sale.now }
    {
        match self.labels.get(sale.link(self.column.fact_key())) {
            Some(text) => Some(text.as_str()),
            None => None,
        }
    }
}

/// Adds a further column.
pub(crate) fn push_led(
    leds: &mut Vec<LedColumn>,
    column: LabelColumn,
    labels: Labels,
) -> Result<(), AllocError>
    ensures { OnOk result (leds.new.items ≡ leds.old.items ++ record { column = column; labels = labels } ∷ []) }
{
    leds.push(LedColumn { column, labels })?;
    Ok(())
}

/// Puts the labels of a sale in several columns in place of those that are there. `NoLabel`: the first column in which it has none.
pub(crate) fn put_labels<'r>(
    columns: &'r [LedColumn],
    sale: &LinkedSale,
    labels: &mut Vec<&'r str>,
) -> Result<(), SaleFault>
    ensures found { OnOk result (lead_labels (map lead_of columns.now) sale.now ≡ Ok (words_of labels.new.items)) }
    ensures lacks { IfErr result (λ e. (column : OfColumn) → e ≡ NoLabel column → lead_labels (map lead_of columns.now) sale.now ≡ Err column) }
    ensures kinds { IfErr result (λ e. e ≢ Damaged) }
{
    labels.clear();
    'columns: for column in columns {
        match column.label(sale) {
            Some(label) => labels.push(label)?,
            None => return Err(SaleFault::NoLabel(column.column)),
        }
    }
    Ok(())
}
