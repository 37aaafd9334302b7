//! The text of a report.

ghost use Rattle.std.specs.Prelude.{◌≡◌, List, IfOk, string_bytes, decimal};
ghost use Rattle.std.specs.Fmt.{signed_decimal};
ghost use Rattle.wh_report.specs.Summary.{Sold, summed};
ghost use Rattle.wh_report.specs.Text.{aligned, hundredths, money, line_text, lines_text, summary_text, titles, heading, report_text};
ghost use Rattle.wh_report.specs.Label.{text_asked};

use crate::request::Request;
use crate::summary::Summary;
use crate::totals::Totals;
use std::alloc::{AllocError, Global};

/// A text at the right end of so many places, or of as many as it needs.
#[tactic(auto, unfolding(crate::specs::Text::aligned))]
fn aligned(alloc: Global, width: usize, text: &str) -> Result<String, AllocError>
    ensures { IfOk result (λ s. string_bytes s ≡ aligned width text.now) }
{
    let mut line = String::new(alloc);
    let spaces = width.saturating_sub(text.len());
    'spaces: for _count in 0..spaces {
        line.push(' ')?;
    }
    line.push_str(text)?;
    Ok(line)
}

/// So many hundredths, with two decimals.
#[tactic(auto, unfolding(crate::specs::Text::hundredths))]
fn hundredths(alloc: Global, count: u64) -> Result<String, AllocError>
    ensures { IfOk result (λ s. string_bytes s ≡ hundredths count) }
{
    let (units, tenths, rest) = (count / 100, count / 10 % 10, count % 10);
    format!(in alloc; "{units}.{tenths}{rest}")
}

/// An amount of money in hundredths.
#[tactic(auto, unfolding(crate::specs::Text::money))]
pub fn money(alloc: Global, amount: i64) -> Result<String, AllocError>
    ensures { IfOk result (λ s. string_bytes s ≡ money amount) }
{
    let size = hundredths(alloc, amount.unsigned_abs())?;
    if amount < 0 {
        return format!(in alloc; "-{size}");
    }
    Ok(size)
}

fn lines_cell(alloc: Global, lines: u32) -> Result<String, AllocError>
    ensures { IfOk result (λ s. string_bytes s ≡ aligned 8 (decimal lines)) }
{
    let text = format!(in alloc; "{lines}")?;
    aligned(alloc, 8, text.as_str())
}

fn quantity_cell(alloc: Global, quantity: i64) -> Result<String, AllocError>
    ensures { IfOk result (λ s. string_bytes s ≡ aligned 10 (signed_decimal quantity)) }
{
    let text = format!(in alloc; "{quantity}")?;
    aligned(alloc, 10, text.as_str())
}

fn money_cell(alloc: Global, amount: i64) -> Result<String, AllocError>
    ensures { IfOk result (λ s. string_bytes s ≡ aligned 14 (money amount)) }
{
    let text = money(alloc, amount)?;
    aligned(alloc, 14, text.as_str())
}

/// A line of a report: the figures at the right of their columns, and the label behind them.
#[tactic(auto, unfolding(crate::specs::Text::line_text))]
pub fn line_text(alloc: Global, label: &str, totals: Totals) -> Result<String, AllocError>
    ensures { IfOk result (λ s. string_bytes s ≡ line_text label.now totals) }
{
    let lines = lines_cell(alloc, totals.lines())?;
    let quantity = quantity_cell(alloc, totals.quantity())?;
    let amount = money_cell(alloc, totals.amount())?;
    let cost = money_cell(alloc, totals.cost())?;
    let margin = money_cell(alloc, totals.margin())?;
    format!(in alloc; "{lines} {quantity} {amount} {cost} {margin}  {label}\n")
}

impl Summary {
    /// A line for each label, and one for the total.
    #[tactic(auto, unfolding(crate::specs::Text::summary_text))]
    pub fn text(&self, alloc: Global) -> Result<String, AllocError>
        ensures { IfOk result (λ s. string_bytes s ≡ summary_text self.now) }
    {
        let mut text = String::new(alloc);
        for (label, totals) in self.lines.iter() {
            let line = line_text(alloc, label.as_str(), *totals)?;
            text.push_str(line.as_str())?;
        }
        let total = line_text(alloc, "total", self.total)?;
        text.push_str(total.as_str())?;
        Ok(text)
    }
}

/// The titles of the columns, with this one over the labels.
#[tactic(auto, unfolding(crate::specs::Text::titles))]
pub fn titles(alloc: Global, label: &str) -> Result<String, AllocError>
    ensures { IfOk result (λ s. string_bytes s ≡ titles label.now) }
{
    format!(in alloc; "   lines   quantity         amount           cost         margin  {label}\n")
}

/// The words of a request, and the titles of the columns.
#[tactic(auto, unfolding(crate::specs::Text::heading))]
fn heading(
    alloc: Global,
    attribute: &str,
    mode: &str,
    from: &str,
    to: &str,
) -> Result<String, AllocError>
    ensures { IfOk result (λ s. string_bytes s ≡ heading attribute.now mode.now from.now to.now) }
{
    let titles = titles(alloc, "label")?;
    format!(in alloc; "report {attribute} {mode} {from} {to}\n{titles}")
}

/// The words of a request, and what the sales come to.
#[tactic(auto, unfolding(crate::specs::Text::report_text))]
pub fn report_text(
    alloc: Global,
    attribute: &str,
    mode: &str,
    from: &str,
    to: &str,
    summary: &Summary,
) -> Result<String, AllocError>
    ensures { (sales : List Sold) → summary.now ≡ summed sales
        → IfOk result (λ s. string_bytes s ≡ report_text attribute.now mode.now from.now to.now sales) }
{
    let mut text = heading(alloc, attribute, mode, from, to)?;
    let lines = summary.text(alloc)?;
    text.push_str(lines.as_str())?;
    Ok(text)
}

impl Request {
    /// The text of the report that is asked for, where the summary is of the sales of its range.
    pub fn text(&self, alloc: Global, summary: &Summary) -> Result<String, AllocError>
        ensures { (sales : List Sold) → summary.now ≡ summed sales → IfOk result (λ text. string_bytes text ≡ text_asked self.now sales) }
    {
        let from = format!(in alloc; "{}", self.from())?;
        let to = format!(in alloc; "{}", self.to())?;
        report_text(
            alloc,
            self.attribute(),
            self.mode().word(),
            from.as_str(),
            to.as_str(),
            summary,
        )
    }
}
