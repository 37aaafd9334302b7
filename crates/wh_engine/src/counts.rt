//! How much a warehouse holds.

ghost use Rattle.std.specs.Prelude.{◌≡◌, List, length, Ok, IfOk};
ghost use Rattle.wh_history.specs.Accepted.{Accepted, format_of, members};
ghost use Rattle.wh_history.specs.Tables.{Limits};
ghost use Rattle.wh_engine.specs.Answered.{IsCounted, CountsStored, counts_of};
ghost use Rattle.wh_engine.specs.Faults.{Judges};
ghost use Rattle.wh_engine.specs.Scanned.{EngineReads, Reads, WhenAtRest, WhenReady, WhenStored};
ghost use Rattle.wh_model.specs.Defined.{AreOf};
ghost use Rattle.wh_model.specs.Sound.{IsAccepted};

use crate::engine::Engine;
use crate::fault::{Fault, stops};
use sqlite::Alter;
use std::alloc::Global;
use wh_plan::reading::last_member;
use wh_policy::{Dim, Format};
use wh_rows::tables;
use wh_store::Tables;

/// How much a warehouse holds.
#[derive(Clone, Copy, Debug, PartialEq, Eq)]
pub struct Counts {
    /// The number of the format: 1 or 2.
    pub format: u64,
    /// Accepted commands, with the making.
    pub commands: u64,
    /// Accepted records of products, stores and customers.
    pub changes: u64,
    /// The sales that stand: withdrawn ones aren't counted, although they count for the limit of facts.
    pub facts: u64,
    /// Products that were mentioned: the greatest durable key.
    pub products: u64,
    /// Stores, in the same way.
    pub stores: u64,
    /// Customers, in the same way.
    pub customers: u64,
}

/// How many members a dimension has.
fn member_count<S: Alter>(tables: &mut Tables<S>, alloc: Global, dim: Dim) -> Result<u64, Fault>
    ensures reads { Reads S.Store tables.old tables.new result }
    ensures members { WhenAtRest S.Store tables.old tables.new (λ t. (limits : Limits) (commands : List Accepted) → AreOf limits commands t → Judges (λ count due. count ≡ due) result (Ok (length (members dim commands)))) }
{
    let last = last_member(tables, alloc, dim)?;
    Ok(last.durable)
}

/// The rows that are there, the facts in the table of this format.
fn counts_of<S: Alter>(
    tables: &mut Tables<S>,
    alloc: Global,
    format: Format,
) -> Result<Counts, Fault>
    ensures reads { Reads S.Store tables.old tables.new result }
    ensures counts { WhenAtRest S.Store tables.old tables.new (λ t. (limits : Limits) (commands : List Accepted) → AreOf limits commands t → IsAccepted limits commands → format ≡ format_of commands → Judges (λ counts due. counts ≡ due) result (Ok (counts_of commands))) }
    ensures stored { WhenStored S.Store tables.old tables.new (λ stored. IfOk result (CountsStored format stored)) }
{
    let commands = tables.count::<tables::Command>(alloc)?;
    let changes = tables.count::<tables::Change>(alloc)?;
    let facts = tables.count_facts(alloc, format)?;
    let products = member_count(tables, alloc, Dim::Product)?;
    let stores = member_count(tables, alloc, Dim::Store)?;
    let customers = member_count(tables, alloc, Dim::Customer)?;
    Ok(Counts {
        format: format.number(),
        commands,
        changes,
        facts,
        products,
        stores,
        customers,
    })
}

impl<S: Alter> Engine<S> {
    /// How much the warehouse holds. `Damaged`: the last member of a dimension is out of its type. `Memory` and `Store`: as reading has them. After a
    /// refusal of the database it answers `Reopen`.
    pub fn counts(&mut self, alloc: Global) -> Result<Counts, Fault>
        ensures reads { EngineReads S.Store self.old self.new result }
        ensures counted { WhenReady S.Store self.old self.new (λ limits commands. IsCounted limits commands result) }
        // Of any stored rows: how many are stored, damaged or not.
        ensures stored { WhenStored S.Store self.old.tables self.new.tables (λ stored. IfOk result (CountsStored self.old.session.format stored)) }
    {
        if self.session.must_reopen {
            return Err(Fault::Reopen);
        }
        let counts = counts_of(&mut self.tables, alloc, self.session.format);
        self.session.must_reopen = stops(&counts);
        counts
    }
}
