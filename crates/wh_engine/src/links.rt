//! Counting all facts of a warehouse by all of their keys, in whatever order they are stored.

ghost use Rattle.std.specs.Prelude.{◌≡◌, [], IsTrue, IfErr};
ghost use Rattle.wh_engine.specs.Scanned.{EngineReads, IsServing, IsWanting, Reads, WhenAtRest, WhenReady};
ghost use Rattle.wh_engine.specs.Links.{TalliesLinks};

use crate::engine::Engine;
use crate::fault::{Fault, stops};
use sqlite::Alter;
use wh_policy::Format;
use wh_store::{LinkAggregate, Tables};

/// Has a tally count each fact of a format by all of its keys.
fn tally_links<C: LinkAggregate, S: Alter>(
    tables: &mut Tables<S>,
    format: Format,
    tally: &mut C,
) -> Result<(), Fault>
    requires { C.counts tally.old [] tally.old }
    ensures reads { Reads S.Store tables.old tables.new result }
    ensures tallies { TalliesLinks S.Store C.counts format tally.old tally.new tables.old tables.new result }
    ensures sound { WhenAtRest S.Store tables.old tables.new (λ _. IfErr result IsWanting) }
{
    tables.tally_links(format, tally)?;
    Ok(())
}

impl<S: Alter> Engine<S> {
    /// Has a tally count each fact by all of its keys, in whatever order they are stored. After a refusal of the database it
    /// answers `Reopen`. `Memory`: a growth was refused, or there are more facts than a `u64` counts. `Damaged`: a column that is read of a fact is out
    /// of its type.
    pub fn tally_links<C: LinkAggregate>(&mut self, tally: &mut C) -> Result<(), Fault>
        requires { C.counts tally.old [] tally.old }
        ensures reads { EngineReads S.Store self.old self.new result }
        ensures serves { WhenReady S.Store self.old self.new (λ limits commands. IsServing limits commands result) }
        // It counts each fact once.
        ensures tallies { TalliesLinks S.Store C.counts self.old.session.format tally.old tally.new self.old.tables self.new.tables result }
        ensures unread { IsTrue self.old.session.must_reopen → tally.new ≡ tally.old }
    {
        if self.session.must_reopen {
            return Err(Fault::Reopen);
        }
        let counted = tally_links(&mut self.tables, self.session.format, tally);
        self.session.must_reopen = stops(&counted);
        counted
    }
}
