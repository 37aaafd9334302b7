//! The rows that a batch brings, and the edits that they are.

ghost use Rattle.std.specs.Prelude.{◌≡◌, ◌++◌, ◌∷◌, [], false, List, map, length, IfOk};
ghost use Rattle.wh_history.specs.Accepted.{Accepted, format_of, withdrawn_by};
ghost use Rattle.wh_history.specs.Laws.{governs};
ghost use Rattle.wh_history.specs.declared.plan.Edit.TheVariants.{Put};
ghost use Rattle.wh_plan.specs.BatchRows.{with_rows, AreBatchRows};
ghost use Rattle.wh_plan.specs.Edits.{AreEdits};

use crate::edits::{Edits, FactEdit};
use crate::fact_edits::in_tables;
use std::alloc::{AllocError, Global};
use std::marker::Model;
use wh_history::{DimRow, Edit};
use wh_policy::{Dim, Format};
use wh_rows::{ChangeRow, CommandRow, MemberRow, ProfileRow};

/// What a batch brings: its own row, the rows of the members that it is the first to mention, of its records and of the profiles
/// that it is the first to show, the edits of facts, and those of the rows of the three dimensions.
#[derive(Drop)]
pub(crate) struct BatchRows {
    pub(crate) command: CommandRow,
    pub(crate) members: Vec<MemberRow>,
    pub(crate) changes: Vec<ChangeRow>,
    pub(crate) profiles: Vec<ProfileRow>,
    pub(crate) facts: Vec<FactEdit>,
    pub(crate) products: Vec<Edit<DimRow, u64>>,
    pub(crate) stores: Vec<Edit<DimRow, u64>>,
    pub(crate) customers: Vec<Edit<DimRow, u64>>,
}

impl Model for BatchRows {
    ghost use Rattle.wh_plan.specs.BatchRows.{BatchRows as Lists};

    ghost Value = { Lists };

    ghost view = { λ r. record {
      command = r.command;
      members = r.members.items;
      changes = r.changes.items;
      profiles = r.profiles.items;
      facts = r.facts.items;
      products = r.products.items;
      stores = r.stores.items;
      customers = r.customers.items;
    } };
}

impl BatchRows {
    /// Sets the edits of the rows of one dimension.
    pub(crate) fn set_rows(&mut self, dim: Dim, edits: Vec<Edit<DimRow, u64>>)
        ensures { self.new ≡ with_rows dim edits.items self.old }
    {
        match dim {
            Dim::Product => self.products = edits,
            Dim::Store => self.stores = edits,
            Dim::Customer => self.customers = edits,
        }
    }
}

/// Rows as edits that put them.
pub(crate) fn puts<Row: Drop, Key: Drop>(
    alloc: Global,
    rows: Vec<Row>,
) -> Result<Vec<Edit<Row, Key>>, AllocError>
    ensures { IfOk result (λ edits. edits.items ≡ map Put rows.items) }
{
    let mut edits = Vec::new(alloc);
    for row in rows {
        edits.push(Edit::Put(row))?;
    }
    Ok(edits)
}

/// The edits of a batch, by the rows that it brings and the format of the tables, which it leaves as it is.
pub(crate) fn edits_of_batch(
    alloc: Global,
    format: Format,
    rows: BatchRows,
) -> Result<Edits, AllocError>
    ensures exact { (commands : List Accepted) (c : Accepted) → format ≡ format_of commands → format_of (commands ++ c ∷ []) ≡ format_of commands → governs c.content ≡ false → withdrawn_by c.content ≡ []
        → AreBatchRows commands c rows → IfOk result (AreEdits commands (commands ++ c ∷ [])) }
    ensures own { IfOk result (λ edits. length edits.commands ≡ 1) }
{
    let mut commands = Vec::new(alloc);
    commands.push(Edit::Put(rows.command))?;
    let facts = in_tables(alloc, format, rows.facts);
    Ok(Edits {
        upgrades: false,
        meta: Vec::new(alloc),
        commands,
        members: puts(alloc, rows.members)?,
        changes: puts(alloc, rows.changes)?,
        products: rows.products,
        stores: rows.stores,
        customers: rows.customers,
        profiles: puts(alloc, rows.profiles)?,
        calendar: Vec::new(alloc),
        facts: facts.one,
        facts2: facts.two,
        voids: Vec::new(alloc),
    })
}
