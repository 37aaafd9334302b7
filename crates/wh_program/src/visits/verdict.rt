//! Whether the warehouse in a file is what its commands define.

ghost use Rattle.std.specs.Prelude.{◌≡◌, Some};
ghost use Rattle.wh_program.specs.Check.{Checks, AnswersCheck};
ghost use Rattle.wh_program.specs.Standing.{DatabaseContent, Standing, Rests};
ghost use Rattle.wh_program.specs.Tasks.{SparesOthers};
ghost use Rattle.wh_program.specs.Warehouse.{AnswersShut, IsNoFile};

use crate::host::{Host, Visitor};
use crate::lines::answer::Answer;
use crate::lines::{opening_answer, verdict_answer};
use crate::visits::opened::is_of_store;
use crate::visits::warehouse::answered;
use sqlite::{Alter, Connection};
use std::alloc::{AllocError, Global};
use std::io;
use std::io::Write;
use wh_checking::Check;
use wh_engine::Engine;

/// Checks what is stored.
#[derive(Clone, Copy)]
struct Checking;

impl Visitor for Checking {
    type Output = Result<Answer, AllocError>;

    ghost promises = { λ _ content shown old new after. Checks content shown after };

    fn visit<T: Alter + Drop, W: Write>(
        self,
        alloc: Global,
        connection: Connection<T>,
        _out: &mut W,
    ) -> (Result<Answer, AllocError>, Connection<T>, bool) {
        match Engine::open(alloc, connection) {
            Ok(mut engine) => {
                let verdict = engine.check(alloc);
                let must_reopen = engine.must_reopen();
                (verdict_answer(alloc, verdict), engine.close(), must_reopen)
            }
            Err((fault, connection)) => {
                let answer = opening_answer(alloc, fault);
                (answer, connection, is_of_store(&fault))
            }
        }
    }
}

/// Tells whether the warehouse in a file is what its commands define, or which table is the first that isn't.
pub fn check<H: Host>(alloc: Global, file: &str, host: &mut H) -> Result<Answer, AllocError>
    ensures answers { (content : DatabaseContent) → H.stores host.old file.now (Rests content) → AnswersCheck (H.refuses host.old) (H.stores host.new file.now) content file.now result }
    ensures others { SparesOthers (H.stores host.old) (H.stores host.new) (Some file.now) }
    ensures shut { H.shut host.old file.now → AnswersShut (host.new ≡ host.old) (IsNoFile file.now) result }
{
    let visit = host.with_existing(alloc, file, Checking, &mut io::sink());
    answered(alloc, file, visit)
}
