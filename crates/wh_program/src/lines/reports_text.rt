//! The text of several answers, one after the other.

ghost use Rattle.std.specs.Prelude.{◌≡◌, ◌==◌, IfOk};
ghost use Rattle.std.specs.List.{list_any};
ghost use Rattle.wh_program.specs.Answer.{status_code};
ghost use Rattle.wh_program.specs.Lists.{is_among, status_of, answers_text, whole_answer};

use crate::lines::answer::{Answer, Status};
use std::alloc::{AllocError, Global};

/// Whether one of the answers ended so.
fn is_among(answers: &[Answer], ending: Status) -> bool
    ensures { result ≡ is_among answers.now ending }
{
    answers.iter().any(|answer| answer.status() == ending)
}

/// How the answers end together.
fn status_of(answers: &[Answer]) -> Status
    ensures { result ≡ status_of answers.now }
{
    if is_among(answers, Status::Failed) {
        return Status::Failed;
    }
    if is_among(answers, Status::Refused) {
        return Status::Refused;
    }
    Status::Done
}

/// The texts of the answers, with an empty line between two.
fn answers_text(alloc: Global, answers: &[Answer]) -> Result<Vec<u8>, AllocError>
    ensures { IfOk result (λ text. text.items ≡ answers_text answers.now) }
{
    let mut text = Vec::new(alloc);
    let [first, others @ ..] = answers else {
        return Ok(text);
    };
    text.extend_from_slice(first.text())?;
    for answer in others {
        text.push(b'\n')?;
        text.extend_from_slice(answer.text())?;
    }
    Ok(text)
}

/// The answers as one.
pub fn whole_answer(alloc: Global, answers: &[Answer]) -> Result<Answer, AllocError>
    ensures { IfOk result (λ answer. answer ≡ whole_answer answers.now) }
{
    let text = answers_text(alloc, answers)?;
    Ok(Answer::new(status_of(answers), text))
}
