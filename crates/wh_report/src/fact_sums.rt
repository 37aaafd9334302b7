//! Counting the facts of the warehouse for a report.

ghost use Rattle.std.specs.Prelude.{◌≡◌, List, IfErr};
ghost use Rattle.std.specs.FinMap.{values};
ghost use Rattle.wh_engine.specs.Scanned.{ReadsThrough};
ghost use Rattle.wh_rows.specs.Facts.{facts_in, facts_table};
ghost use Rattle.wh_rows.specs.declared.keyed_sale.KeyedSale.{KeyedSale};
ghost use Rattle.wh_sql.specs.Answers.{state_of, WhenAtRest, WhenStored};
ghost use Rattle.wh_report.specs.Labels.{labels_get};
ghost use Rattle.wh_report.specs.Output.{IsOfTables, of_warehouse};
ghost use Rattle.wh_report.specs.Reported.{IsSummed, IsSummedOf, uncounted};
ghost use Rattle.wh_report.specs.Tallied.{IsTally, IsCounted};

use crate::column::LabelColumn;
use crate::fact::FactFault;
use crate::key_sums::KeySums;
use crate::labels::Labels;
use crate::output::ReportFault;
use crate::request::Request;
use crate::summary::{AddError, Summary};
use sqlite::Alter;
use std::alloc::Global;
use wh_engine::{Engine, Fault};
use wh_policy::Format;
use wh_rows::KeyedSale;
use wh_sql::facts_table;
use wh_store::FactAggregate;

/// Why a sale isn't counted, as a fault of the report. A row that a sale names for its label isn't there; or there are more
/// sales than can be counted.
fn uncounted(format: Format, column: LabelColumn, fault: FactFault) -> ReportFault
    ensures { result ≡ uncounted format column fault }
{
    match fault {
        FactFault::Memory => ReportFault::Warehouse(Fault::Memory),
        FactFault::NoLabel => ReportFault::Inconsistent(column.table()),
        FactFault::Damaged => ReportFault::Inconsistent(facts_table(format)),
    }
}

/// What the sales that were counted come to by their keys, and why one wasn't: then no further one is.
#[derive(Drop)]
struct FactSums<'r> {
    request: &'r Request,
    sums: KeySums,
    fault: Option<AddError>,
}

impl FactAggregate for FactSums<'_> {
    ghost use Rattle.wh_report.specs.Tallied.{HasTallied};

    ghost counts = { λ first sales now. HasTallied first sales now };

    fn count(&mut self, sale: KeyedSale) {
        if self.fault.is_some() || !self.request.contains(sale.day) {
            return;
        }
        if let Err(fault) = self.sums.add(sale) {
            self.fault = Some(fault);
        }
    }
}

impl FactSums<'_> {
    /// What the sales come to by the labels that their keys lead to.
    fn by_label(&self, alloc: Global, labels: &Labels) -> Result<Summary, FactFault>
        ensures { (sales : List KeyedSale) → IsTally self.now.request.now sales self.now.sums self.now.fault → IsCounted self.now.request.now (labels_get labels.now) sales result }
    {
        match self.fault {
            Some(fault) => Err(FactFault::from(fault)),
            None => self.sums.by_label(alloc, labels),
        }
    }
}

/// What the facts of the range come to by their labels. `Memory`: also where there are more facts than a `u64` counts.
pub(crate) fn summary_of<S: Alter>(
    alloc: Global,
    engine: &mut Engine<S>,
    request: &Request,
    column: LabelColumn,
    labels: &Labels,
) -> Result<Summary, ReportFault>
    ensures reads { ReadsThrough engine.old.session engine.new.session (state_of S.Store engine.old.tables) (state_of S.Store engine.new.tables) (of_warehouse result) }
    ensures writes { engine.new.writes ≡ engine.old.writes }
    ensures sums { WhenAtRest S.Store engine.old.tables engine.new.tables (λ t. IsSummed engine.old.session.format request.now column (labels_get labels.now) (values (facts_in engine.old.session.format t)) result) }
    ensures stored { WhenStored S.Store engine.old.tables engine.new.tables (λ stored. IsSummedOf engine.old.session.format request.now column (labels_get labels.now) stored result) }
    ensures only { IfErr result IsOfTables }
{
    let mut sums = FactSums {
        request,
        sums: KeySums::new(alloc),
        fault: None,
    };
    let format = engine.format();
    engine.tally_facts(column.fact_key(), &mut sums)?;
    match sums.by_label(alloc, labels) {
        Ok(summary) => Ok(summary),
        Err(fault) => Err(uncounted(format, column, fault)),
    }
}
