//! What a run answers once its text is written out.

ghost use Rattle.std.specs.Prelude.{◌≡◌, ℕ, take};
ghost use Rattle.std.specs.Io.KnownBytes.{Appends};
ghost use Rattle.wh_program.specs.Answer.{status_code, wrong_words, write_line};
ghost use Rattle.wh_program.specs.Run.{Prints};
ghost use Rattle.wh_program.specs.Warehouse.{printed};
ghost use Rattle.wh_program.specs.declared.lines.answer.Status.TheVariants.{Failed};

use crate::lines::answer::{Answer, Status};
use crate::lines::{MEMORY_LINE, WRITE_LINE};
use std::alloc::AllocError;
use std::io::Write;
use wh_report::write_whole;

/// The status of words that are no command.
const USAGE: u8 = 4;

/// The writer failed: a line says so, as far as it can still be written.
pub fn write_failed<W: Write>(out: &mut W) -> Status
    ensures status { result ≡ Failed }
    ensures shown { (shown : ℕ) × Appends (W.contents out.old) (W.contents out.new) (take shown write_line) }
{
    let _ = write_whole(out, WRITE_LINE);
    Status::Failed
}

/// Prints a text, and answers its status, or `Failed` where the writer fails.
pub fn print<W: Write>(out: &mut W, status: Status, text: &[u8]) -> Status
    ensures { Prints (W.contents out.old) (W.contents out.new) (status_code result) (record { status = status_code status; text = text.now }) }
{
    if write_whole(out, text).is_ok() {
        return status;
    }
    write_failed(out)
}

/// Prints an answer, or that memory ran out.
pub fn print_answer<W: Write>(out: &mut W, answer: Result<Answer, AllocError>) -> Status
    ensures { Prints (W.contents out.old) (W.contents out.new) (status_code result) (printed answer) }
{
    match answer {
        Ok(answer) => print(out, answer.status(), answer.text()),
        Err(_) => print(out, Status::Failed, MEMORY_LINE),
    }
}

/// Prints what is wrong with the words.
pub fn print_usage<W: Write>(out: &mut W, text: &[u8]) -> u8
    ensures { Prints (W.contents out.old) (W.contents out.new) result (wrong_words text.now) }
{
    if write_whole(out, text).is_ok() {
        return USAGE;
    }
    write_failed(out).code()
}
