//! What a word does with a warehouse that is open.

ghost use Rattle.std.specs.Prelude.{◌≡◌, List, Some};
ghost use Rattle.sqlite.specs.State.{HasCleanDisk};
ghost use Rattle.wh_history.specs.Accepted.{Accepted};
ghost use Rattle.wh_history.specs.Tables.{Limits};
ghost use Rattle.wh_engine.specs.Answered.{IsReady};
ghost use Rattle.wh_sql.specs.Answers.{state_of};
ghost use Rattle.wh_program.specs.Standing.{DatabaseContent, IsAt, Rests, Standing, Stands};
ghost use Rattle.wh_program.specs.Warehouse.{Shown, LooksAt, Opens, AnswersWork, AnswersShut, IsNoFile};
ghost use Rattle.wh_program.specs.Tasks.{SparesOthers};

use crate::host::{Host, Visitor};
use crate::lines::answer::Answer;
use crate::lines::opening_answer;
use crate::visits::warehouse::answered;
use sqlite::{Alter, Connection};
use std::alloc::{AllocError, Global};
use std::io;
use std::io::Write;
use wh_engine::{Engine, OpenFault};

/// What is done with a warehouse that is open, and answered.
pub trait Work: Drop {
    /// Of these accepted commands, what is answered, and what then stands.
    ghost does: { Self → Limits → List Accepted → Shown → Standing → Type 0 };

    /// Of what anybody wrote, what is answered, and what then stands. Work that looks leaves it.
    ghost over: { Self → DatabaseContent → Shown → Standing → Type 0 } = { λ _. LooksAt };

    fn work<S: Alter>(self, alloc: Global, engine: &mut Engine<S>) -> Result<Answer, AllocError>
        ensures clean { HasCleanDisk (state_of S.Store engine.new.tables) → HasCleanDisk (state_of S.Store engine.old.tables) }
        ensures done { HasCleanDisk (state_of S.Store engine.new.tables) → (limits : Limits) (commands : List Accepted) → IsReady limits commands engine.old.session (state_of S.Store engine.old.tables)
            → (after : Standing) × does self limits commands result after × Stands after (state_of S.Store engine.new.tables) }
        ensures over { HasCleanDisk (state_of S.Store engine.new.tables) → (content : DatabaseContent) → IsAt content (state_of S.Store engine.old.tables)
            → (after : Standing) × over self content result after × Stands after (state_of S.Store engine.new.tables) };
}

/// Whether it was the database that refused an opening.
pub fn is_of_store(fault: &OpenFault) -> bool {
    matches!(fault, OpenFault::Store(_))
}

/// Opens what stands as a warehouse, and works on it; or answers why it isn't one that is opened.
#[derive(Drop)]
struct OnOpened<K: Work> {
    work: K,
}

impl<K: Work> Visitor for OnOpened<K> {
    type Output = Result<Answer, AllocError>;

    ghost promises = { λ visitor content shown old new after. Opens (K.does visitor.work) (K.over visitor.work) content shown after };

    fn visit<T: Alter + Drop, W: Write>(
        self,
        alloc: Global,
        connection: Connection<T>,
        _out: &mut W,
    ) -> (Result<Answer, AllocError>, Connection<T>, bool) {
        match Engine::open(alloc, connection) {
            Ok(mut engine) => {
                let answer = self.work.work(alloc, &mut engine);
                let must_reopen = engine.must_reopen();
                (answer, engine.close(), must_reopen)
            }
            Err((fault, connection)) => {
                let answer = opening_answer(alloc, fault);
                (answer, connection, is_of_store(&fault))
            }
        }
    }
}

/// Works on the warehouse in a file.
pub fn work_on<H: Host, K: Work>(
    alloc: Global,
    file: &str,
    work: K,
    host: &mut H,
) -> Result<Answer, AllocError>
    ensures answers { (content : DatabaseContent) → H.stores host.old file.now (Rests content) → AnswersWork (H.refuses host.old) (H.stores host.new file.now) (Opens (K.does work) (K.over work)) content file.now result }
    ensures others { SparesOthers (H.stores host.old) (H.stores host.new) (Some file.now) }
    ensures shut { H.shut host.old file.now → AnswersShut (host.new ≡ host.old) (IsNoFile file.now) result }
{
    let visit = host.with_existing(alloc, file, OnOpened { work }, &mut io::sink());
    answered(alloc, file, visit)
}
