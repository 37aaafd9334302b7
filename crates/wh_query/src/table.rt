//! An answer as a table for people.

ghost use Rattle.std.specs.Prelude.{◌≡◌, ◌-◌, ◌≤◌, ◌++◌, None, OnOk, IfOk, IfErr, IfSome, map, replicate, string_bytes};
ghost use Rattle.wh_report.specs.Lines.{added};
ghost use Rattle.wh_report.specs.Text.{line_text, lines_text, summary_text, titles};
ghost use Rattle.wh_query.specs.Answered.{IsUntold};
ghost use Rattle.wh_query.specs.Asked.{words_of, column_name};
ghost use Rattle.wh_query.specs.Table.{continues, characters, in_column, in_columns, side_by_side, table_text};

use crate::asked::{Column, Query};
use crate::fault::SaleFault;
use crate::lines::Lines;
use std::alloc::{AllocError, Global};
use std::convert::AsStr;
use wh_report::{Totals, line_text, titles};

/// Whether a byte continues a character.
fn continues(byte: u8) -> bool
    ensures { result ≡ continues byte }
{
    128 <= byte && byte < 192
}

/// How many spaces a text needs to fill its column.
#[tactic(auto, unfolding(crate::specs::Table::characters))]
fn spaces_behind(text: &str) -> usize
    ensures { result ≡ 24 - characters text.now }
{
    let mut spaces: usize = 24;
    'bytes: for byte in text.as_bytes() {
        if !continues(*byte) {
            spaces = spaces.saturating_sub(1);
        }
    }
    spaces
}

fn push_spaces(line: &mut String, count: usize) -> Result<(), AllocError>
    ensures { OnOk result (string_bytes line.new ≡ string_bytes line.old ++ replicate count 32) }
{
    'spaces: for _count in 0..count {
        line.push(' ')?;
    }
    Ok(())
}

/// Puts a text into a column.
#[tactic(auto, unfolding(crate::specs::Table::in_column))]
fn push_in_column(line: &mut String, text: &str) -> Result<(), AllocError>
    ensures { OnOk result (string_bytes line.new ≡ string_bytes line.old ++ in_column text.now) }
{
    line.push_str(text)?;
    push_spaces(line, spaces_behind(text))?;
    line.push(' ')?;
    Ok(())
}

/// Texts side by side, each but the last in a column.
fn in_columns<S: AsStr>(alloc: Global, texts: &[S]) -> Result<String, AllocError>
    ensures { IfOk result (λ line. string_bytes line ≡ in_columns (map S.text texts.now)) }
{
    let mut line = String::new(alloc);
    let Some((last, others)) = texts.split_last() else {
        return Ok(line);
    };
    'others: for text in others {
        push_in_column(&mut line, text.as_str())?;
    }
    line.push_str(last.as_str())?;
    Ok(line)
}

/// How the columns are called.
fn names_of(alloc: Global, columns: &[Column]) -> Result<Vec<String>, AllocError>
    ensures { IfOk result (λ names. map string_bytes names.items ≡ map column_name columns.now) }
{
    let mut names = Vec::new(alloc);
    'columns: for column in columns {
        names.push(column.name(alloc)?)?;
    }
    Ok(names)
}

fn titles_of(alloc: Global, columns: &[Column]) -> Result<String, AllocError>
    ensures { IfOk result (λ text. string_bytes text ≡ titles (in_columns (map column_name columns.now))) }
{
    let names = names_of(alloc, columns)?;
    let labels = in_columns(alloc, names.as_slice())?;
    titles(alloc, labels.as_str())
}

/// The line of some labels.
fn line_of(alloc: Global, labels: &[&str], totals: &Totals) -> Result<String, AllocError>
    ensures { IfOk result (λ line. string_bytes line ≡ line_text (in_columns (words_of labels.now)) totals.now) }
{
    let labels = in_columns(alloc, labels)?;
    line_text(alloc, labels.as_str(), *totals)
}

/// Adds a line for each tuple of labels.
fn push_lines(alloc: Global, text: &mut String, lines: &Lines) -> Result<(), AllocError>
    ensures { OnOk result (string_bytes text.new ≡ string_bytes text.old ++ lines_text (side_by_side lines.now)) }
{
    for (labels, totals) in lines.figures.iter() {
        let line = line_of(alloc, labels, totals)?;
        text.push_str(line.as_str())?;
    }
    Ok(())
}

/// What all lines come to, unless they are more than can be counted.
fn total_of(lines: &Lines) -> Option<Totals>
    ensures value { IfSome result (λ total. total ≡ added lines.now) }
    ensures full { result ≡ None → 4_294_967_295 ≤ (added lines.now).lines }
{
    let mut total = Totals::new();
    for (labels, totals) in lines.figures.iter() {
        let _labels = labels;
        match total.checked_add(*totals) {
            Some(more) => total = more,
            None => return None,
        }
    }
    Some(total)
}

/// The table with this total.
#[tactic(auto, unfolding(crate::specs::Table::table_text, wh_report::specs::Text::summary_text))]
fn text_with(
    alloc: Global,
    query: &Query,
    lines: &Lines,
    total: Totals,
) -> Result<String, AllocError>
    ensures { total ≡ added lines.now → IfOk result (λ text. string_bytes text ≡ table_text query.now.columns lines.now) }
{
    let mut text = titles_of(alloc, query.columns())?;
    push_lines(alloc, &mut text, lines)?;
    let total = line_text(alloc, "total", total)?;
    text.push_str(total.as_str())?;
    Ok(text)
}

/// The titles, a line for each tuple of labels, and one for all. `Damaged`: together they are more than can be counted.
pub(crate) fn table_text(alloc: Global, query: &Query, lines: &Lines) -> Result<Vec<u8>, SaleFault>
    ensures text { IfOk result (λ text. text.items ≡ table_text query.now.columns lines.now) }
    ensures untold { IfErr result (IsUntold lines.now) }
{
    let Some(total) = total_of(lines) else {
        return Err(SaleFault::Damaged);
    };
    let text = text_with(alloc, query, lines, total)?;
    Ok(text.into_bytes())
}
