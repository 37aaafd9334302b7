//! The questions of a list, over one open of a warehouse.

ghost use Rattle.std.specs.Prelude.{◌≡◌, ◌≢◌, List, IfOk, map};
ghost use Rattle.wh_history.specs.Accepted.{Accepted};
ghost use Rattle.wh_engine.specs.Scanned.{WhenReady};
ghost use Rattle.wh_program.specs.Looking.{Looks};
ghost use Rattle.wh_program.specs.Answer.{Printed};
ghost use Rattle.wh_program.specs.Lists.{IsListed};
ghost use Rattle.wh_program.specs.ReportsRead.{IsReadFor, AreReadFor};

use crate::lines::answer::Answer;
use crate::lines::reports_text::whole_answer;
use crate::visits::opened::Work;
use sqlite::Alter;
use std::alloc::{AllocError, Global};
use wh_engine::Engine;

/// What a list asks for.
pub trait Question: Drop {
    /// What it is answered over accepted commands.
    ghost answered: { Self → List Accepted → Printed };

    /// Its answer, over a warehouse that is open.
    fn answer<S: Alter>(&self, alloc: Global, engine: &mut Engine<S>) -> Result<Answer, AllocError>
        ensures looks { Looks S.Store engine.old engine.new }
        ensures reported { WhenReady S.Store engine.old engine.new (λ limits commands. IsReadFor (answered self.now commands) result limits commands) }
        // Over accepted commands none fails.
        ensures unfailed { (commands : List Accepted) → (answered self.now commands).status ≢ 3 };
}

/// The answers to questions, in order, up to the first that failed.
fn listed_answers<Q: Question, S: Alter>(
    alloc: Global,
    engine: &mut Engine<S>,
    listed: &[Q],
) -> Result<Vec<Answer>, AllocError>
    ensures looks { Looks S.Store engine.old engine.new }
    ensures reported { WhenReady S.Store engine.old engine.new (λ limits commands. AreReadFor (map Q.answered listed.now) (λ answers. IfOk result (λ shown. shown.items ≡ answers)) limits commands) }
{
    let mut answers = Vec::with_capacity(alloc, listed.len())?;
    for question in listed {
        let answer = question.answer(alloc, engine)?;
        let has_failed = answer.has_failed();
        answers.push(answer)?;
        if has_failed {
            return Ok(answers);
        }
    }
    Ok(answers)
}

/// Answers the questions of a list.
#[derive(Drop)]
pub struct Listing<'a, Q: Question> {
    pub listed: &'a [Q],
}

impl<Q: Question> Work for Listing<'_, Q> {
    ghost does = { λ listing. IsListed (map Q.answered listing.listed.now) };

    fn work<S: Alter>(self, alloc: Global, engine: &mut Engine<S>) -> Result<Answer, AllocError> {
        let answers = listed_answers(alloc, engine, self.listed)?;
        whole_answer(alloc, &answers)
    }
}
