//! The edits of facts, in order of their tickets and lines.

ghost use Rattle.std.specs.Prelude.{◌≡◌, map, IfOk, None};
ghost use Rattle.std.specs.List.{AllByRecursion};
ghost use Rattle.std.specs.List.Sorted.{IsPermutation, IsSorted};
ghost use Rattle.wh_rows.specs.Rows.{fact as layout, line_cmp};
ghost use Rattle.wh_plan.specs.BatchRows.{AreFacts, AreRekeyed};
ghost use Rattle.wh_plan.specs.Edits.{IsFactPlan};
ghost use Rattle.wh_plan.specs.FactEdits.{Facts, by_line, edits_in, put_of, remove_of, rekey_of};
ghost use Rattle.wh_policy.specs.declared.format.Format.TheVariants.{One, Two};
ghost use Rattle.wh_history.specs.declared.plan.Edit.TheVariants.{Remove};
ghost use Rattle.wh_plan.specs.declared.edits.FactEdit.TheVariants.{Row};

use crate::edits::FactEdit;
use std::alloc::{AllocError, Global};
use std::cmp::Ordering;
use wh_day::Value;
use wh_history::{Edit, Fact};
use wh_policy::Format;
use wh_rows::LineKey;

/// How two lines stand to each other: by the bytes of their tickets, and then by number.
pub(crate) fn line_cmp(ticket: &Value, line: u32, other: &Value, another: u32) -> Ordering
    ensures { result ≡ line_cmp (record { ticket = ticket.now; line = line }) (record { ticket = other.now; line = another }) }
{
    ticket.as_str().cmp(other.as_str()).then(line.cmp(&another))
}

/// How the lines of two facts stand to each other.
fn by_line(a: &Fact, b: &Fact) -> Ordering
    ensures { result ≡ by_line a.now b.now }
{
    line_cmp(&a.ticket, a.line, &b.ticket, b.line)
}

/// Puts facts in order of their lines.
fn sort_by_line(facts: &mut Vec<Fact>)
    ensures same { IsPermutation facts.old.items facts.new.items }
    ensures sorted { IsSorted by_line facts.new.items }
{
    facts.sort_unstable_by(|a, b| by_line(a, b));
}

/// The edit that gives a stored fact the keys of this one.
fn rekey_of(fact: Fact) -> FactEdit
    ensures { result ≡ rekey_of fact }
{
    let Fact {
        ticket,
        line,
        day: _,
        keys,
        store_durable: _,
        product_durable: _,
        customer_durable: _,
        quantity: _,
        amount: _,
        cost: _,
        discount: _,
    } = fact;
    FactEdit::Rekey(LineKey { ticket, line }, keys)
}

/// The edits that put facts, one after the other.
fn each_put(alloc: Global, facts: Vec<Fact>) -> Result<Vec<FactEdit>, AllocError>
    ensures { IfOk result (λ edits. edits.items ≡ map put_of facts.items) }
{
    let mut edits = Vec::new(alloc);
    for fact in facts {
        edits.push(FactEdit::Row(Edit::Put(fact)))?;
    }
    Ok(edits)
}

/// The edits that give the facts of these lines the keys of these, one after the other.
fn each_rekeyed(alloc: Global, facts: Vec<Fact>) -> Result<Vec<FactEdit>, AllocError>
    ensures { IfOk result (λ edits. edits.items ≡ map rekey_of facts.items) }
{
    let mut edits = Vec::new(alloc);
    for fact in facts {
        edits.push(rekey_of(fact))?;
    }
    Ok(edits)
}

/// The edit that takes out the fact of a line.
pub(crate) fn remove_at(ticket: &Value, line: u32) -> Result<FactEdit, AllocError>
    ensures { IfOk result (λ edit. edit ≡ Row (Remove (record { ticket = ticket.now; line = line }))) }
{
    let line = LineKey {
        ticket: ticket.copy()?,
        line,
    };
    Ok(FactEdit::Row(Edit::Remove(line)))
}

/// The edits that take facts out, one after the other.
fn each_removed(alloc: Global, facts: &[Fact]) -> Result<Vec<FactEdit>, AllocError>
    ensures { IfOk result (λ edits. edits.items ≡ map remove_of facts.now) }
{
    let mut edits = Vec::new(alloc);
    for fact in facts {
        edits.push(remove_at(&fact.ticket, fact.line)?)?;
    }
    Ok(edits)
}

/// The edits that put facts, whose lines are not there, in order of their lines.
pub(crate) fn fact_puts(alloc: Global, facts: Vec<Fact>) -> Result<Vec<FactEdit>, AllocError>
    ensures { (before after : Facts) → AreFacts before after facts.items → AllByRecursion (λ f. before (layout.key f) ≡ None) facts.items → IfOk result (λ edits. IsFactPlan before after edits.items) }
{
    let mut facts = facts;
    sort_by_line(&mut facts);
    each_put(alloc, facts)
}

/// The edits that give stored facts other keys, in order of their lines.
pub fn fact_rekeys(alloc: Global, facts: Vec<Fact>) -> Result<Vec<FactEdit>, AllocError>
    ensures { (before after : Facts) → AreFacts before after facts.items → AreRekeyed before facts.items → IfOk result (λ edits. IsFactPlan before after edits.items) }
{
    let mut facts = facts;
    sort_by_line(&mut facts);
    each_rekeyed(alloc, facts)
}

/// The edits of the facts in the table of each format.
#[derive(Drop)]
pub struct FactTables {
    /// Of the table of format 1.
    pub one: Vec<FactEdit>,
    /// Of the table of format 2.
    pub two: Vec<FactEdit>,
}

/// Edits of the facts of a format, which stand in its table alone.
pub fn in_tables(alloc: Global, format: Format, edits: Vec<FactEdit>) -> FactTables
    ensures one { result.one.items ≡ edits_in One format edits.items }
    ensures two { result.two.items ≡ edits_in Two format edits.items }
{
    let none = Vec::new(alloc);
    match format {
        Format::One => FactTables {
            one: edits,
            two: none,
        },
        Format::Two => FactTables {
            one: none,
            two: edits,
        },
    }
}

/// The edits that carry all facts from the first format's table to the second's, each in order of their lines.
pub fn carried_over(alloc: Global, facts: Vec<Fact>) -> Result<FactTables, AllocError>
    ensures one { (kept : Facts) → AreFacts (λ _. None) kept facts.items → IfOk result (λ edits. IsFactPlan kept (λ _. None) edits.one.items) }
    ensures two { (kept : Facts) → AreFacts (λ _. None) kept facts.items → IfOk result (λ edits. IsFactPlan (λ _. None) kept edits.two.items) }
{
    let mut facts = facts;
    sort_by_line(&mut facts);
    let one = each_removed(alloc, &facts)?;
    let two = each_put(alloc, facts)?;
    Ok(FactTables { one, two })
}
