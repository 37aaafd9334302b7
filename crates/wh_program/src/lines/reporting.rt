//! The lines of a report that isn't had.

ghost use Rattle.std.specs.Prelude.{◌≡◌, ◌++◌, codes, string_bytes, IfOk};
ghost use Rattle.std.specs.Fmt.{decimal};
ghost use Rattle.wh_batch.specs.Mode.{mode_word};
ghost use Rattle.wh_program.specs.Answer.{failed, refused, write_line};
ghost use Rattle.wh_words.specs.WrongWord.{line, no_mode_line};
ghost use Rattle.wh_program.specs.Reply.{no_reading_line, request_line, report_fault_answer, report_answer};

use crate::lines::answer::{Answer, Status};
use crate::lines::{WRITE_LINE, damaged_answer, fault_answer, fixed_line};
use std::alloc::{AllocError, Global};
use wh_batch::Mode;
use wh_policy::AttributeType;
use wh_report::{ReportFault, RequestFault};
use wh_words::{MODES, wrong_word_line};

/// The line where an attribute of the type of this number has nothing to show in the mode of this word.
fn no_reading_text(alloc: Global, number: u64, word: &str) -> Result<String, AllocError>
    ensures { IfOk result (λ text. string_bytes text ≡ line (codes "refused: G2 no reading, type " ++ decimal number ++ codes " " ++ word.now)) }
{
    format!(in alloc; "refused: G2 no reading, type {number} {word}\n")
}

/// The answer where an attribute of this type has nothing to show.
fn no_reading_answer(alloc: Global, kind: AttributeType, mode: Mode) -> Result<Answer, AllocError>
    ensures { IfOk result (λ answer. answer ≡ refused (no_reading_line kind mode)) }
{
    let line = no_reading_text(alloc, u64::from(kind.number()), mode.word())?;
    Ok(Answer::new(Status::Refused, line.into_bytes()))
}

/// The answer where the day of sale has nothing to show.
fn no_date_reading(alloc: Global, mode: Mode) -> Result<Answer, AllocError>
    ensures { IfOk result (λ answer. answer ≡ refused (line (codes "refused: G2 no reading, date " ++ mode_word mode))) }
{
    let word = mode.word();
    let line = format!(in alloc; "refused: G2 no reading, date {word}\n")?;
    Ok(Answer::new(Status::Refused, line.into_bytes()))
}

/// The answer to a report whose mode is no word for one.
pub fn no_mode(alloc: Global, word: &str) -> Result<Answer, AllocError>
    ensures { IfOk result (λ answer. answer ≡ refused (no_mode_line word.now)) }
{
    let line = wrong_word_line(alloc, "MODE", word, MODES)?;
    Ok(Answer::new(Status::Refused, line.into_bytes()))
}

/// The answer to a report that can't be asked for.
pub fn request_answer(alloc: Global, fault: RequestFault) -> Result<Answer, AllocError>
    ensures { IfOk result (λ answer. answer ≡ refused (request_line fault)) }
{
    match fault {
        RequestFault::NoAttribute => fixed_line(
            alloc,
            Status::Refused,
            "refused: G1 no attribute\n",
        ),
        RequestFault::NoReading(kind, mode) => no_reading_answer(alloc, kind, mode),
        RequestFault::NoDateReading(mode) => no_date_reading(alloc, mode),
        RequestFault::BadRange => fixed_line(alloc, Status::Refused, "refused: G3 bad range\n"),
    }
}

/// The answer where the output could not be written.
fn unwritten(alloc: Global) -> Result<Answer, AllocError>
    ensures { IfOk result (λ answer. answer ≡ failed write_line) }
{
    let mut line = Vec::new(alloc);
    line.extend_from_slice(WRITE_LINE)?;
    Ok(Answer::new(Status::Failed, line))
}

/// The answer where no text came about.
pub fn report_fault_answer(alloc: Global, fault: ReportFault) -> Result<Answer, AllocError>
    ensures { IfOk result (λ answer. answer ≡ report_fault_answer fault) }
{
    match fault {
        ReportFault::Write => unwritten(alloc),
        ReportFault::Warehouse(fault) | ReportFault::Unwritten(fault) => fault_answer(alloc, fault),
        ReportFault::Inconsistent(table) => damaged_answer(alloc, table),
    }
}

/// The answer to a report that was worked out.
pub fn report_answer(
    alloc: Global,
    worked: Result<Vec<u8>, ReportFault>,
) -> Result<Answer, AllocError>
    ensures { IfOk result (λ answer. answer ≡ report_answer worked) }
{
    match worked {
        Ok(text) => Ok(Answer::new(Status::Done, text)),
        Err(fault) => report_fault_answer(alloc, fault),
    }
}
