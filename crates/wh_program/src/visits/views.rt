//! The views of a warehouse in a file.

ghost use Rattle.std.specs.Prelude.{◌≡◌, IfOk, List, Some};
ghost use Rattle.wh_explain.specs.Views.{views_text};
ghost use Rattle.wh_program.specs.Answer.{done};
ghost use Rattle.wh_program.specs.Standing.{DatabaseContent, Rests};
ghost use Rattle.wh_program.specs.Tasks.{SparesOthers};
ghost use Rattle.wh_program.specs.Viewed.{AnswersViews, IsViewed};
ghost use Rattle.wh_program.specs.Warehouse.{AnswersShut, IsNoFile};

use crate::host::Host;
use crate::lines::answer::{Answer, Status};
use crate::visits::opened::{Work, work_on};
use sqlite::Alter;
use std::alloc::{AllocError, Global};
use wh_engine::Engine;
use wh_explain::views_text;
use wh_policy::{Format, Policy};

fn views_answer(alloc: Global, policy: &Policy, format: Format) -> Result<Answer, AllocError>
    ensures { IfOk result (λ answer. answer ≡ done (views_text policy.now format)) }
{
    let text = views_text(alloc, policy, format)?;
    Ok(Answer::new(Status::Done, text))
}

/// Prints the views.
#[derive(Clone, Copy)]
struct Viewing;

impl Work for Viewing {
    ghost does = { λ _. IsViewed };

    fn work<S: Alter>(self, alloc: Global, engine: &mut Engine<S>) -> Result<Answer, AllocError> {
        views_answer(alloc, engine.policy(), engine.format())
    }
}

/// Prints the SQL of the views over the warehouse in a file.
pub fn views<H: Host>(alloc: Global, file: &str, host: &mut H) -> Result<Answer, AllocError>
    ensures answers { (content : DatabaseContent) → H.stores host.old file.now (Rests content) → AnswersViews (H.refuses host.old) (H.stores host.new file.now) content file.now result }
    ensures others { SparesOthers (H.stores host.old) (H.stores host.new) (Some file.now) }
    ensures shut { H.shut host.old file.now → AnswersShut (host.new ≡ host.old) (IsNoFile file.now) result }
{
    work_on(alloc, file, Viewing, host)
}
