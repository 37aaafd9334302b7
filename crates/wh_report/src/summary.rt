//! What sales come to by their labels.

ghost use Rattle.std.specs.Prelude.{◌≡◌, ◌≤◌, ◌++◌, ◌∷◌, [], List, OnOk, IfErr, length, unwrap_or};
ghost use Rattle.std.specs.Map.{lookup};
ghost use Rattle.std.specs.BTreeMap.{is_at, insert_entry};
ghost use Rattle.wh_report.specs.Sums.{nothing};
ghost use Rattle.wh_report.specs.Maps.{by_text};
ghost use Rattle.wh_report.specs.Summary.{Sold, AreSoldAs, summed, by_bytes};
ghost use Rattle.wh_report.specs.declared.summary.AddError.TheVariants.{Memory, Damaged};

use crate::totals::Totals;
use std::alloc::{AllocError, AllocFailed, Global};
use std::collections::BTreeMap;
use std::marker::Model;
use thiserror::Error;

/// Why sales weren't counted.
#[derive(Clone, Copy, Debug, PartialEq, Eq, Error)]
pub enum AddError {
    /// A growth was refused.
    #[error("memory ran out")]
    Memory,
    /// There are more than 4,294,967,295 sales, or the measures of one are out of range. No warehouse of accepted commands has such sales.
    #[error("a sale is out of range, or there are too many")]
    Damaged,
}

impl From<AllocError> for AddError {
    ghost from_gives = { λ _ e. e ≡ Memory };

    fn from(_e: AllocError) -> AddError {
        AddError::Memory
    }
}

impl<T: Drop> From<AllocFailed<T>> for AddError {
    ghost from_gives = { λ _ e. e ≡ Memory };

    fn from(_e: AllocFailed<T>) -> AddError {
        AddError::Memory
    }
}

/// What sales come to: a line for each label, and one for all.
#[derive(Drop)]
pub struct Summary {
    alloc: Global,
    pub(crate) lines: BTreeMap<String, Totals>,
    pub(crate) total: Totals,
}

impl Model for Summary {
    ghost use Rattle.wh_report.specs.Summary.{Summed};
    ghost use Rattle.wh_report.specs.Maps.{by_text};

    ghost Value = { Summed };

    ghost view = { λ s. record { lines = by_text s.lines.entries; total = s.total } };
}

impl Summary {
    /// No sale yet.
    #[tactic(auto, unfolding(crate::specs::Lines::lines, crate::specs::Summary::summed))]
    pub fn new(alloc: Global) -> Summary
        ensures { result ≡ summed [] }
    {
        Summary {
            alloc,
            lines: BTreeMap::new(alloc),
            total: Totals::new(),
        }
    }

    /// Adds what sales of a label come to, one at least. After an error the summary is of no use.
    pub fn add(&mut self, label: &str, figures: Totals) -> Result<(), AddError>
        // After a list of sales it is what they come to with these.
        ensures sums { (sales more : List Sold) → self.old ≡ summed sales → AreSoldAs label.now figures more → OnOk result (self.new ≡ summed (sales ++ more)) }
        ensures damaged { (sales more : List Sold) → self.old ≡ summed sales → AreSoldAs label.now figures more → IfErr result (λ e. e ≡ Damaged → 4_294_967_295 ≤ length (sales ++ more)) }
    {
        let Some(line) = totals_under(&self.lines, label).checked_add(figures) else {
            return Err(AddError::Damaged);
        };
        let Some(total) = self.total.checked_add(figures) else {
            return Err(AddError::Damaged);
        };
        put(self.alloc, &mut self.lines, label, line)?;
        self.total = total;
        Ok(())
    }
}

/// What is there to a label so far.
fn totals_under(lines: &BTreeMap<String, Totals>, label: &str) -> Totals
    ensures { result ≡ unwrap_or (lookup (is_at (by_bytes label.now)) (by_text lines.now.entries)) nothing }
{
    lines.get(label).copied().unwrap_or(Totals::new())
}

#[tactic(auto, using(crate::proofs::TextMaps::insert_by_text))]
fn put(
    alloc: Global,
    lines: &mut BTreeMap<String, Totals>,
    label: &str,
    figures: Totals,
) -> Result<(), AllocError>
    ensures { OnOk result (by_text lines.new.entries ≡ insert_entry by_bytes (by_text lines.old.entries) label.now figures) }
{
    let label = String::from_str(alloc, label)?;
    lines.insert(label, figures)?;
    Ok(())
}
