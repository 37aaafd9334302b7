//! What a batch of voids writes.

ghost use Rattle.std.specs.Prelude.{◌≡◌, ◌++◌, ◌∷◌, [], suc, true, List, length, map, Some, IfOk};
ghost use Rattle.std.specs.List.{AllByRecursion, IsDistinct};
ghost use Rattle.std.specs.List.Sorted.{IsPermutation, IsSorted};
ghost use Rattle.wh_policy.specs.declared.format.Format.TheVariants.{Two};
ghost use Rattle.wh_history.specs.Accepted.{Accepted, Withdraws, format_of, standing};
ghost use Rattle.wh_model.specs.Defined.{command_at};
ghost use Rattle.wh_model.specs.Sound.{is_sold_line, same_void};
ghost use Rattle.wh_plan.specs.Edits.{AreEdits};
ghost use Rattle.wh_plan.specs.VoidEdits.{by_line, fact_removed, void_edits, void_of};

use crate::batch_rows::puts;
use crate::edits::{Edits, FactEdit};
use crate::fact_edits::{line_cmp, remove_at};
use std::alloc::{AllocError, Global};
use std::cmp::Ordering;
use wh_day::Value;
use wh_history::Edit;
use wh_policy::VoidRecord;
use wh_rows::{CommandRow, VoidRow};

/// The rows of lines that the command of a number withdraws, one after the other.
fn void_rows(alloc: Global, number: u64, lines: &[VoidRecord]) -> Result<Vec<VoidRow>, AllocError>
    ensures { IfOk result (λ rows. rows.items ≡ map (void_of number) lines.now) }
{
    let mut rows = Vec::new(alloc);
    for line in lines {
        rows.push(VoidRow {
            ticket: Value::new(alloc, line.ticket.as_str())?,
            line: line.line,
            command: number,
        })?;
    }
    Ok(rows)
}

/// How the lines of two rows stand to each other.
fn by_line(a: &VoidRow, b: &VoidRow) -> Ordering
    ensures { result ≡ by_line a.now b.now }
{
    line_cmp(&a.ticket, a.line, &b.ticket, b.line)
}

/// Puts rows in order of their lines.
fn sort_by_line(rows: &mut Vec<VoidRow>)
    ensures same { IsPermutation rows.old.items rows.new.items }
    ensures sorted { IsSorted by_line rows.new.items }
{
    rows.sort_unstable_by(|a, b| by_line(a, b));
}

/// The edits that take out the facts of these lines, one after the other.
fn facts_removed(alloc: Global, rows: &[VoidRow]) -> Result<Vec<FactEdit>, AllocError>
    ensures { IfOk result (λ edits. edits.items ≡ map fact_removed rows.now) }
{
    let mut edits = Vec::new(alloc);
    for row in rows {
        edits.push(remove_at(&row.ticket, row.line)?)?;
    }
    Ok(edits)
}

/// The edits of the rows of withdrawn lines, with the batch's own row. All other tables stay.
fn void_edits(alloc: Global, command: CommandRow, rows: Vec<VoidRow>) -> Result<Edits, AllocError>
    ensures { IfOk result (λ e. e ≡ void_edits command rows.items) }
{
    let mut edits = Edits::none(alloc);
    edits.commands.push(Edit::Put(command))?;
    edits.facts2 = facts_removed(alloc, &rows)?;
    edits.voids = puts(alloc, rows)?;
    Ok(edits)
}

/// What a batch of voids writes: its own row, and for each line a removal of its fact and a row of void with the
/// command's number. Nothing is read. The error comes where memory ran out.
pub fn plan_voids(
    alloc: Global,
    command: CommandRow,
    lines: &[VoidRecord],
) -> Result<Edits, AllocError>
    ensures edits { (commands : List Accepted) (c : Accepted) → c.content ≡ Withdraws lines.now → format_of commands ≡ Two → command_at (commands ++ c ∷ []) (suc (length commands)) ≡ Some command
        → AllByRecursion (λ v. is_sold_line (standing commands) v ≡ true) lines.now → IsDistinct same_void lines.now → IfOk result (AreEdits commands (commands ++ c ∷ [])) }
    // Whatever is stored, a command that is planned writes its own row.
    ensures own { IfOk result (λ edits. length edits.commands ≡ 1) }
{
    let mut rows = void_rows(alloc, command.number, lines)?;
    sort_by_line(&mut rows);
    void_edits(alloc, command, rows)
}
