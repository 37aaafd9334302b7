//! Counting all facts of a warehouse, in whatever order they are stored.

ghost use Rattle.std.specs.Prelude.{◌≡◌, [], IsTrue, IfErr};
ghost use Rattle.wh_engine.specs.Scanned.{EngineReads, IsServing, IsWanting, Reads, WhenAtRest, WhenReady};
ghost use Rattle.wh_engine.specs.Tallied.{Tallies};

use crate::engine::Engine;
use crate::fault::{Fault, stops};
use sqlite::Alter;
use wh_policy::Format;
use wh_rows::FactColumn;
use wh_store::{FactAggregate, Tables};

/// Has a tally count each fact of a format by one of its keys.
fn tally_facts<C: FactAggregate, S: Alter>(
    tables: &mut Tables<S>,
    format: Format,
    which: FactColumn,
    tally: &mut C,
) -> Result<(), Fault>
    requires { C.counts tally.old [] tally.old }
    ensures reads { Reads S.Store tables.old tables.new result }
    ensures tallies { Tallies S.Store C.counts format which tally.old tally.new tables.old tables.new result }
    ensures sound { WhenAtRest S.Store tables.old tables.new (λ _. IfErr result IsWanting) }
{
    tables.tally_facts(format, which, tally)?;
    Ok(())
}

impl<S: Alter> Engine<S> {
    /// Has a tally count each fact by one of its keys, in whatever order they are stored. After a refusal of the database it
    /// answers `Reopen`. `Memory`: a growth was refused, or there are more facts than a `u64` counts. `Damaged`: a column that is read of a fact is out
    /// of its type.
    pub fn tally_facts<C: FactAggregate>(
        &mut self,
        which: FactColumn,
        tally: &mut C,
    ) -> Result<(), Fault>
        requires { C.counts tally.old [] tally.old }
        ensures reads { EngineReads S.Store self.old self.new result }
        ensures serves { WhenReady S.Store self.old self.new (λ limits commands. IsServing limits commands result) }
        // It counts each fact once.
        ensures tallies { Tallies S.Store C.counts self.old.session.format which tally.old tally.new self.old.tables self.new.tables result }
        ensures unread { IsTrue self.old.session.must_reopen → tally.new ≡ tally.old }
    {
        if self.session.must_reopen {
            return Err(Fault::Reopen);
        }
        let counted = tally_facts(&mut self.tables, self.session.format, which, tally);
        self.session.must_reopen = stops(&counted);
        counted
    }
}
