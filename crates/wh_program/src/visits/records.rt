//! The records that carry the members of a warehouse in a file to another.

ghost use Rattle.std.specs.Prelude.{◌≡◌, List, Some};
ghost use Rattle.wh_engine.specs.Scanned.{WhenReady};
ghost use Rattle.wh_program.specs.Looking.{Looks};
ghost use Rattle.wh_program.specs.Readings.{AnswersRecords, IsAnsweredBy, records_answered};
ghost use Rattle.wh_program.specs.ReportsRead.{IsReadFor};
ghost use Rattle.wh_program.specs.Standing.{DatabaseContent, Rests};
ghost use Rattle.wh_program.specs.Tasks.{SparesOthers};
ghost use Rattle.wh_program.specs.Warehouse.{AnswersShut, IsNoFile};

use crate::host::Host;
use crate::lines::answer::Answer;
use crate::lines::records_answer;
use crate::visits::opened::{Work, work_on};
use sqlite::Alter;
use std::alloc::{AllocError, Global};
use wh_engine::Engine;
use wh_policy::Dim;

/// The batch of a dimension's records from one on, over a warehouse that is open.
fn batch_answer<S: Alter>(
    alloc: Global,
    engine: &mut Engine<S>,
    dim: Dim,
    from: u32,
) -> Result<Answer, AllocError>
    ensures looks { Looks S.Store engine.old engine.new }
    ensures answered { WhenReady S.Store engine.old engine.new (λ limits commands. IsReadFor (records_answered dim from commands) result limits commands) }
{
    records_answer(alloc, engine.carried_batch(alloc, dim, from as usize))
}

/// Prints a batch of records.
#[derive(Clone, Copy, Drop)]
struct Carrying {
    dim: Dim,
    from: u32,
}

impl Work for Carrying {
    ghost does = { λ carrying. IsAnsweredBy (records_answered carrying.dim carrying.from) };

    fn work<S: Alter>(self, alloc: Global, engine: &mut Engine<S>) -> Result<Answer, AllocError> {
        batch_answer(alloc, engine, self.dim, self.from)
    }
}

/// Prints the records that carry the members of a dimension of the warehouse in a file, from one on, as one batch.
pub fn records<H: Host>(
    alloc: Global,
    file: &str,
    dim: Dim,
    from: u32,
    host: &mut H,
) -> Result<Answer, AllocError>
    ensures answers { (content : DatabaseContent) → H.stores host.old file.now (Rests content) → AnswersRecords (H.refuses host.old) (H.stores host.new file.now) content file.now dim from result }
    ensures others { SparesOthers (H.stores host.old) (H.stores host.new) (Some file.now) }
    ensures shut { H.shut host.old file.now → AnswersShut (host.new ≡ host.old) (IsNoFile file.now) result }
{
    work_on(alloc, file, Carrying { dim, from }, host)
}
