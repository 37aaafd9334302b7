//! What sales come to by their labels in several columns.

ghost use Rattle.std.specs.Prelude.{◌≡◌, ◌≤◌, ◌++◌, ◌∷◌, [], List, OnOk, IfErr, length};
ghost use Rattle.std.specs.BTreeMap.{insert_entry};
ghost use Rattle.wh_report.specs.Sums.{nothing, with_line};
ghost use Rattle.wh_report.specs.declared.summary.AddError.TheVariants.{Damaged};
ghost use Rattle.wh_report.specs.Lines.{Labelled, lines};
ghost use Rattle.wh_query.specs.Asked.{words_of};
ghost use Rattle.wh_query.specs.Found.{IsFound};
ghost use Rattle.wh_query.specs.Words.{by_texts, by_words};

use std::alloc::{AllocError, Global};
use std::collections::BTreeMap;
use std::marker::Model;
use wh_report::{AddError, Measures, Totals};

/// What sales come to: a line for each tuple of labels.
#[derive(Drop)]
pub(crate) struct Lines<'r> {
    alloc: Global,
    pub(crate) figures: BTreeMap<Vec<&'r str>, Totals>,
}

impl<'r> Model for Lines<'r> {
    ghost use Rattle.std.specs.Prelude.{ℕ, List};
    ghost use Rattle.wh_report.specs.Sums.{Figures};
    ghost use Rattle.wh_query.specs.Found.{IsFound};
    ghost use Rattle.wh_query.specs.Words.{by_words};

    ghost Value = { List (List (List ℕ) × Figures) };

    ghost view = { λ l. by_words l.figures.entries };
}

impl<'r> Lines<'r> {
    /// No sale yet.
    #[tactic(auto, unfolding(wh_report::specs::Lines::lines))]
    pub(crate) fn new(alloc: Global) -> Lines<'r>
        ensures { result ≡ lines by_texts [] }
    {
        Lines {
            alloc,
            figures: BTreeMap::new(alloc),
        }
    }

    /// Adds a sale with these labels. After an error the lines are of no use.
    pub(crate) fn add(&mut self, labels: &[&'r str], measures: Measures) -> Result<(), AddError>
        ensures sums { (sales : List (Labelled _)) → self.old ≡ lines by_texts sales → OnOk result (self.new ≡ lines by_texts (sales ++ record { label = words_of labels.now; measures = measures } ∷ [])) }
        ensures damaged { (sales : List (Labelled _)) → self.old ≡ lines by_texts sales → IfErr result (λ e. e ≡ Damaged → 4_294_967_295 ≤ length sales) }
    {
        match add_to(&mut self.figures, labels, measures) {
            Found::Added => Ok(()),
            Found::Full => Err(AddError::Damaged),
            Found::Wanting => {
                put(self.alloc, &mut self.figures, labels, one_line(measures))?;
                Ok(())
            }
        }
    }
}

/// The figures of one sale.
fn one_line(measures: Measures) -> Totals
    ensures { result ≡ with_line measures nothing }
{
    let mut line = Totals::new();
    line.add(measures);
    line
}

/// Whether there was a line to some labels, and whether a sale was added to it.
#[derive(Clone, Copy, Debug, PartialEq, Eq)]
enum Found {
    /// There was, and it was.
    Added,
    /// No further sale can be counted there.
    Full,
    /// There is no such line.
    Wanting,
}

/// Adds a sale to the line of its labels, where there is one.
fn add_to<'r>(
    figures: &mut BTreeMap<Vec<&'r str>, Totals>,
    labels: &[&'r str],
    measures: Measures,
) -> Found
    ensures { IsFound (words_of labels.now) measures (by_words figures.old.entries) (by_words figures.new.entries) result }
{
    match figures.get_mut(labels) {
        Some(line) => {
            if line.is_full() {
                return Found::Full;
            }
            line.add(measures);
            Found::Added
        }
        None => Found::Wanting,
    }
}

fn put<'r>(
    alloc: Global,
    figures: &mut BTreeMap<Vec<&'r str>, Totals>,
    labels: &[&'r str],
    line: Totals,
) -> Result<(), AllocError>
    ensures { OnOk result (by_words figures.new.entries ≡ insert_entry by_texts (by_words figures.old.entries) (words_of labels.now) line) }
{
    let labels = Vec::from_slice(alloc, labels)?;
    figures.insert(labels, line)?;
    Ok(())
}
