//! Counting the facts of the warehouse for a query.

ghost use Rattle.std.specs.Prelude.{◌≡◌, ◌≢◌, ◌≤◌, ◌++◌, ◌∷◌, [], List, Ok, Err, IsOk, OnOk, IfErr, length, map};
ghost use Rattle.std.specs.Option.{option_to_list};
ghost use Rattle.wh_report.specs.Sums.{IsMeasured};
ghost use Rattle.wh_report.specs.declared.column.LabelColumn.{LabelColumn as OfColumn};
ghost use Rattle.wh_report.specs.Lines.{Labelled, lines};
ghost use Rattle.wh_query.specs.Led.{lead_of};
ghost use Rattle.wh_query.specs.Words.{by_texts};
ghost use Rattle.wh_query.specs.Slice.{slice_label, sold_with, measures_of};
ghost use Rattle.wh_query.specs.Asked.{words_of};
ghost use Rattle.wh_query.specs.Tallied.{HasTallied, tallied};
ghost use Rattle.wh_query.specs.declared.fault.SaleFault.TheVariants.{NoLabel, Damaged};

use crate::asked::Query;
use crate::fault::SaleFault;
use crate::led::LedColumn;
use crate::lines::Lines;
use crate::slice::slice_label;
use std::alloc::Global;
use wh_report::{AddError, Measures};
use wh_rows::LinkedSale;
use wh_store::LinkAggregate;

/// Counts a sale under these labels.
fn count_sale<'r>(
    kept: &mut Lines<'r>,
    labels: &[&'r str],
    sale: &LinkedSale,
) -> Result<(), SaleFault>
    ensures added { OnOk result ((sold : List (Labelled _)) → kept.old ≡ lines by_texts sold → kept.new ≡ lines by_texts (sold ++ record { label = words_of labels.now; measures = measures_of sale.now } ∷ [])) }
    ensures damaged { (sold : List (Labelled _)) → kept.old ≡ lines by_texts sold → IfErr result (λ e. e ≡ Damaged → IsMeasured (measures_of sale.now) → 4_294_967_295 ≤ length sold) }
    ensures kinds { IfErr result (λ e. (column : OfColumn) → e ≢ NoLabel column) }
{
    let Some(measures) = Measures::new(sale.quantity, sale.amount, sale.cost) else {
        return Err(SaleFault::Damaged);
    };
    match kept.add(labels, measures) {
        Ok(()) => Ok(()),
        Err(AddError::Memory) => Err(SaleFault::Memory),
        Err(AddError::Damaged) => Err(SaleFault::Damaged),
    }
}

/// Counts a sale of the range where it is in the slice.
fn add_sale<'r>(
    query: &Query,
    filters: &'r [LedColumn],
    columns: &'r [LedColumn],
    sale: &LinkedSale,
    labels: &mut Vec<&'r str>,
    kept: &mut Lines<'r>,
) -> Result<(), SaleFault>
    ensures led { OnOk result (IsOk (slice_label query.now.conditions (map lead_of filters.now) (map lead_of columns.now) sale.now)) }
    ensures added { OnOk result ((sold : List (Labelled _)) → kept.old ≡ lines by_texts sold → kept.new ≡ lines by_texts (sold ++ option_to_list (sold_with (measures_of sale.now) (slice_label query.now.conditions (map lead_of filters.now) (map lead_of columns.now) sale.now)))) }
    ensures lacks { IfErr result (λ e. (column : OfColumn) → e ≡ NoLabel column → slice_label query.now.conditions (map lead_of filters.now) (map lead_of columns.now) sale.now ≡ Err column) }
    ensures damaged { (sold : List (Labelled _)) → kept.old ≡ lines by_texts sold → IfErr result (λ e. e ≡ Damaged → IsMeasured (measures_of sale.now) → 4_294_967_295 ≤ length sold) }
{
    if slice_label(query, filters, columns, sale, labels)? {
        count_sale(kept, labels.as_slice(), sale)?;
    }
    Ok(())
}

/// What the sales that were counted come to, and why one wasn't: then no further one is.
#[derive(Drop)]
pub(crate) struct QuerySums<'r> {
    query: &'r Query,
    filters: &'r [LedColumn],
    columns: &'r [LedColumn],
    labels: Vec<&'r str>,
    lines: Lines<'r>,
    fault: Option<SaleFault>,
}

impl LinkAggregate for QuerySums<'_> {
    ghost use Rattle.wh_query.specs.Tallied.{HasTallied};

    ghost counts = { λ first sales now. HasTallied first sales now };

    fn count(&mut self, sale: LinkedSale) {
        if self.fault.is_some() || !self.query.contains(sale.day) {
            return;
        }
        if let Err(fault) = add_sale(
            self.query,
            self.filters,
            self.columns,
            &sale,
            &mut self.labels,
            &mut self.lines,
        ) {
            self.fault = Some(fault);
        }
    }
}

impl<'r> QuerySums<'r> {
    /// No sale yet.
    pub(crate) fn new(
        alloc: Global,
        query: &'r Query,
        filters: &'r [LedColumn],
        columns: &'r [LedColumn],
    ) -> QuerySums<'r>
        ensures none { HasTallied result [] result }
        ensures query { result.query.now ≡ query.now }
        ensures filters { result.filters.now ≡ filters.now }
        ensures columns { result.columns.now ≡ columns.now }
    {
        QuerySums {
            query,
            filters,
            columns,
            labels: Vec::new(alloc),
            lines: Lines::new(alloc),
            fault: None,
        }
    }

    /// What they come to, or why they can't be counted.
    pub(crate) fn into_lines(self) -> Result<Lines<'r>, SaleFault>
        ensures { result ≡ tallied self.entry.lines self.entry.fault }
    {
        let QuerySums {
            query: _,
            filters: _,
            columns: _,
            labels: _,
            lines,
            fault,
        } = self;
        match fault {
            None => Ok(lines),
            Some(fault) => Err(fault),
        }
    }
}
