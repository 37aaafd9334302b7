//! The edits of a command.

ghost use Rattle.std.specs.Prelude.{◌≡◌};
ghost use Rattle.wh_plan.specs.Edits.{no_edits};

use std::alloc::Global;
use std::marker::Model;
use wh_day::{DateRow, Day, Value};
use wh_history::{DimRow, Edit, Fact, FactKeys};
use wh_rows::{
    ChangeKey, ChangeRow, CommandRow, LineKey, MemberKey, MemberRow, MetaRow, ProfileRow, VoidRow,
};

/// A change of one fact.
#[derive(Debug, Drop)]
pub enum FactEdit {
    /// The fact is new, is there with other contents, or is no longer there.
    Row(Edit<Fact, LineKey>),
    /// A fact that is there gets other keys, and nothing else of it changes.
    Rekey(LineKey, FactKeys),
}

/// What a command writes: for each table the edits of its rows, in order of their keys. A key whose row stays the same has none.
#[derive(Debug, Drop)]
pub struct Edits {
    /// The tables of the second format are made first, and no fact of the first format stays.
    pub upgrades: bool,
    /// Of meta: an upgrade alone has one.
    pub meta: Vec<Edit<MetaRow, Value>>,
    /// Of command: the command's own row.
    pub commands: Vec<Edit<CommandRow, u64>>,
    /// Of member.
    pub members: Vec<Edit<MemberRow, MemberKey>>,
    /// Of change.
    pub changes: Vec<Edit<ChangeRow, ChangeKey>>,
    /// Of product, by surrogate key.
    pub products: Vec<Edit<DimRow, u64>>,
    /// Of store, by surrogate key.
    pub stores: Vec<Edit<DimRow, u64>>,
    /// Of customer, by surrogate key.
    pub customers: Vec<Edit<DimRow, u64>>,
    /// Of profile, by number.
    pub profiles: Vec<Edit<ProfileRow, u64>>,
    /// Of calendar, by day.
    pub calendar: Vec<Edit<DateRow, Day>>,
    /// Of the facts of the first format.
    pub facts: Vec<FactEdit>,
    /// Of those of the second.
    pub facts2: Vec<FactEdit>,
    /// Of the lines that were withdrawn.
    pub voids: Vec<Edit<VoidRow, LineKey>>,
}

impl Edits {
    /// No edit of any table.
    pub fn none(alloc: Global) -> Edits
        ensures { result ≡ no_edits }
    {
        Edits {
            upgrades: false,
            meta: Vec::new(alloc),
            commands: Vec::new(alloc),
            members: Vec::new(alloc),
            changes: Vec::new(alloc),
            products: Vec::new(alloc),
            stores: Vec::new(alloc),
            customers: Vec::new(alloc),
            profiles: Vec::new(alloc),
            calendar: Vec::new(alloc),
            facts: Vec::new(alloc),
            facts2: Vec::new(alloc),
            voids: Vec::new(alloc),
        }
    }
}

impl Model for Edits {
    ghost use Rattle.wh_plan.specs.Edits.{Edits as Lists};

    ghost Value = { Lists };

    ghost view = { λ e. record {
      upgrades = e.upgrades;
      meta = e.meta.items;
      commands = e.commands.items;
      members = e.members.items;
      changes = e.changes.items;
      products = e.products.items;
      stores = e.stores.items;
      customers = e.customers.items;
      profiles = e.profiles.items;
      calendar = e.calendar.items;
      facts = e.facts.items;
      facts2 = e.facts2.items;
      voids = e.voids.items;
    } };
}
