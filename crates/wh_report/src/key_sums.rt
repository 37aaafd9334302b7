//! What sales come to by the keys that lead to their labels.

ghost use Rattle.std.specs.Prelude.{◌≡◌, ◌≤◌, ◌++◌, ◌∷◌, [], List, IfErr, IfSome, IsSome, OnOk, length, ◌↔◌};
ghost use Rattle.wh_rows.specs.declared.keyed_sale.KeyedSale.{KeyedSale};
ghost use Rattle.wh_report.specs.Counting.{measures_of};
ghost use Rattle.wh_report.specs.KeySums.{AreKeySums, IsLabelled};
ghost use Rattle.wh_report.specs.Labels.{labels_get};
ghost use Rattle.wh_report.specs.Sums.{IsMeasured};
ghost use Rattle.wh_report.specs.declared.summary.AddError.TheVariants.{Damaged};

use crate::fact::FactFault;
use crate::labels::Labels;
use crate::summary::{AddError, Summary};
use crate::totals::{Measures, Totals};
use std::alloc::Global;
use std::collections::BTreeMap;
use std::marker::Model;
use wh_rows::KeyedSale;

/// What sales come to by the keys that lead to their labels: figures for each key that a sale has. There are far fewer keys
/// than sales, and a key is found sooner than a label.
#[derive(Drop)]
pub(crate) struct KeySums {
    figures: BTreeMap<u64, Totals>,
}

impl Model for KeySums {
    ghost use Rattle.std.specs.Prelude.{ℕ, List};
    ghost use Rattle.wh_report.specs.Sums.{Figures};

    ghost Value = { List (ℕ × Figures) };

    ghost view = { λ s. s.figures.entries };
}

impl KeySums {
    /// No sale yet.
    pub(crate) fn new(alloc: Global) -> KeySums
        ensures { AreKeySums result [] }
    {
        KeySums {
            figures: BTreeMap::new(alloc),
        }
    }

    /// Counts a further sale. After an error the sums are of no use.
    pub(crate) fn add(&mut self, sale: KeyedSale) -> Result<(), AddError>
        ensures sums { (sales : List KeyedSale) → AreKeySums self.old sales → OnOk result (AreKeySums self.new (sales ++ sale ∷ [])) }
        ensures damaged { (sales : List KeyedSale) → AreKeySums self.old sales → IfErr result (λ e. e ≡ Damaged → IsMeasured (measures_of sale) → 4_294_967_295 ≤ length sales) }
    {
        let Some(measures) = measures_of(sale) else {
            return Err(AddError::Damaged);
        };
        let figures = self.figures.entry(sale.key)?.or_insert(Totals::new());
        if figures.is_full() {
            return Err(AddError::Damaged);
        }
        figures.add(measures);
        Ok(())
    }

    /// What the sales come to by the labels that their keys lead to.
    pub(crate) fn by_label(&self, alloc: Global, labels: &Labels) -> Result<Summary, FactFault>
        ensures { (sales : List KeyedSale) → AreKeySums self.now sales → IsLabelled (labels_get labels.now) sales result }
    {
        let mut summary = Summary::new(alloc);
        for (key, figures) in self.figures.iter() {
            let Some(label) = labels.get(*key) else {
                return Err(FactFault::NoLabel);
            };
            summary.add(label.as_str(), *figures)?;
        }
        Ok(summary)
    }
}

/// A sale's measures, where they are within what a sale may have.
fn measures_of(sale: KeyedSale) -> Option<Measures>
    ensures some { IsSome result ↔ IsMeasured (measures_of sale) }
    ensures value { IfSome result (λ m. m ≡ measures_of sale) }
{
    Measures::new(sale.quantity, sale.amount, sale.cost)
}
