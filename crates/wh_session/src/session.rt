//! The lines of a console, answered one after the other.

ghost use Rattle.std.specs.Prelude.{◌≡◌, ◌≢◌, ◌⊎◌, ℕ, List, Some, None, Err, IfOk, OnErr, OnOk, map, max, option_map, string_bytes, true};
ghost use Rattle.std.specs.Io.KnownBytes.{Appends};
ghost use Rattle.wh_program.specs.Answer.{failed, wrong_words};
ghost use Rattle.wh_program.specs.Run.{Prints, out_of_memory};
ghost use Rattle.wh_words.specs.CommandLine.{CommandLine, Says, is_operand, task_of};
ghost use Rattle.wh_words.specs.Request.{asked_in};
ghost use Rattle.wh_words.specs.Asked.{asked_by};
ghost use Rattle.wh_words.specs.Task.{Over, Session as SessionAsked};
ghost use Rattle.wh_words.specs.Line.{Passed, meaning_of};
ghost use Rattle.wh_session.specs.Line.{with_file};
ghost use Rattle.wh_session.specs.Session.{Goes, IsAnswered, IsBegun, KeepsTo, OnlyPrints, RunsWords, Session, Stops, no_input_line, session_of, status_line};

use crate::console::Console;
use crate::line::with_file;
use itoa::Buffer;
use std::alloc::{AllocError, Global};
use std::convert::AsStr;
use std::io::Write;
use wh_program::{Host, HostError, no_file, print_answer, print_usage};
use wh_report::{WriteFailed, write_whole};
use wh_words::{LINE_LIMIT, Line, Request, Task, Work, parse, read_line};

/// What is printed for a line that is no command.
const NO_COMMAND_TEXT: &[u8] =
    b"error: a line is at most 65536 bytes of UTF-8, and a word with blanks or double quotes in it stands in double quotes, each of its own doubled\n\nUsage: <COMMAND>, as in `wh help`, without FILE\n";

/// The status of a session that a failure ends, if none of its answers has a greater.
const FAILED: u8 = 3;

/// Answers the words of a line, over the session's warehouse.
fn answer_words<H: Host, W: Write>(
    alloc: Global,
    file: &str,
    words: Vec<String>,
    host: &mut H,
    out: &mut W,
) -> u8
    ensures answered { RunsWords H.holds H.refuses H.stores H.shut (with_file file.now (map string_bytes words.items)) host.old host.new (W.contents out.old) (W.contents out.new) result
        ⊎ OnlyPrints H.holds H.refuses H.stores H.shut out_of_memory host.old host.new (W.contents out.old) (W.contents out.new) result }
    ensures keeps { is_operand file.now ≡ true → KeepsTo H.stores H.shut file.now host.old host.new }
{
    match with_file(alloc, file, words) {
        Ok(words) => wh_program::run(alloc, words.as_slice(), host, out),
        Err(AllocError) => print_answer(out, Err(AllocError)).code(),
    }
}

/// Answers a line, if it says anything.
fn answer<H: Host, W: Write>(
    alloc: Global,
    file: &str,
    line: &[u8],
    host: &mut H,
    out: &mut W,
) -> Option<u8>
    ensures answered { (code : ℕ) → result ≡ Some code → IsAnswered H.holds H.refuses H.stores H.shut file.now (meaning_of line.now) host.old host.new (W.contents out.old) (W.contents out.new) code }
    ensures passed { result ≡ None → (meaning_of line.now ≡ Passed) × (host.new ≡ host.old) × (W.contents out.new ≡ W.contents out.old) }
    ensures keeps { is_operand file.now ≡ true → KeepsTo H.stores H.shut file.now host.old host.new }
{
    match read_line(alloc, line) {
        Ok(Line::Passed) => None,
        Ok(Line::NoCommand) => Some(print_usage(out, NO_COMMAND_TEXT)),
        Ok(Line::Words(words)) => Some(answer_words(alloc, file, words, host, out)),
        Err(AllocError) => Some(print_answer(out, Err(AllocError)).code()),
    }
}

/// Prints the line of an answer's status.
fn write_status<W: Write>(out: &mut W, status: u8) -> Result<(), WriteFailed>
    ensures whole { OnOk result (Appends (W.contents out.old) (W.contents out.new) (status_line status)) }
    ensures begun { OnErr result (IsBegun (W.contents out.old) (W.contents out.new) (status_line status)) }
{
    write_whole(out, b"status ")?;
    write_whole(out, Buffer::new().format(status).as_bytes())?;
    write_whole(out, b"\n")
}

/// Prints the line of an answer's status, and sees to it that the answer is out.
fn end_answer<W: Write>(out: &mut W, status: u8) -> Result<(), WriteFailed>
    ensures whole { OnOk result (Appends (W.contents out.old) (W.contents out.new) (status_line status)) }
    ensures begun { OnErr result (IsBegun (W.contents out.old) (W.contents out.new) (status_line status)) }
{
    write_status(out, status)?;
    match out.flush() {
        Ok(()) => Ok(()),
        Err(_) => Err(WriteFailed),
    }
}

/// Answers a line, and ends the answer. The status is 0 where the line is passed over.
fn answer_line<H: Host, W: Write>(
    alloc: Global,
    file: &str,
    line: &[u8],
    host: &mut H,
    out: &mut W,
) -> Result<u8, WriteFailed>
    ensures went { IfOk result (λ status. Goes H.holds H.refuses H.stores H.shut file.now (meaning_of line.now) host.old host.new (W.contents out.old) (W.contents out.new) status) }
    ensures stopped { OnErr result (Stops H.holds H.refuses H.stores H.shut file.now (meaning_of line.now) host.old host.new (W.contents out.old) (W.contents out.new)) }
    ensures keeps { is_operand file.now ≡ true → KeepsTo H.stores H.shut file.now host.old host.new }
{
    let Some(status) = answer(alloc, file, line, host, out) else {
        return Ok(0);
    };
    end_answer(out, status)?;
    Ok(status)
}

/// Says that the input could not be read further.
fn lose_input<W: Write>(alloc: Global, error: HostError, out: &mut W)
    ensures { Prints (W.contents out.old) (W.contents out.new) 3 (failed no_input_line) ⊎ Prints (W.contents out.old) (W.contents out.new) 3 out_of_memory }
{
    let _ = match error {
        HostError::NoFile => print_answer(out, no_file(alloc, "-")),
        HostError::Memory => print_answer(out, Err(AllocError)),
    };
}

fn greater(first: u8, second: u8) -> u8
    ensures { result ≡ max first second }
{
    if first < second { second } else { first }
}

/// Answers the lines of a console over the warehouse in a file. The status is the greatest of the answers', and at least 3 where a failure
/// ends the session.
fn answer_lines<H: Host, C: Console, W: Write>(
    alloc: Global,
    file: &str,
    host: &mut H,
    console: &mut C,
    out: &mut W,
) -> u8
    ensures session { (lines : List (List ℕ)) → C.hears console.old ≡ Some lines → Session H.holds H.refuses H.stores H.shut file.now lines host.old host.new (W.contents out.old) (W.contents out.new) result }
    ensures keeps { is_operand file.now ≡ true → KeepsTo H.stores H.shut file.now host.old host.new }
{
    let mut greatest = 0;
    'lines: for _ in 0..u64::MAX {
        match console.next_line(alloc, LINE_LIMIT) {
            Ok(None) => return greatest,
            Ok(Some(line)) => match answer_line(alloc, file, &line, host, out) {
                Ok(status) => greatest = greater(greatest, status),
                Err(WriteFailed) => return greater(greatest, FAILED),
            },
            Err(error) => {
                lose_input(alloc, error, out);
                return greater(greatest, FAILED);
            }
        }
    }
    lose_input(alloc, HostError::NoFile, out);
    greater(greatest, FAILED)
}

/// The file of the session that a request asks for, if it asks for one.
fn session_file<'a>(request: &Request<'a>) -> Option<&'a str>
    ensures { option_map (λ file. file.now) result ≡ session_of (asked_in request.now) }
{
    match request {
        Request::Task(
            Task::Over {
                file,
                work: Work::Session,
            },
        ) => Some(file),
        _ => None,
    }
}

/// One run of the program, with the console that a session reads: `session FILE` answers its lines, and all other words are answered as
/// `wh_program` does.
pub fn run<S: AsStr, H: Host, C: Console, W: Write>(
    alloc: Global,
    words: &[S],
    host: &mut H,
    console: &mut C,
    out: &mut W,
) -> u8
    // A session of the lines that are still to come.
    ensures session { (file : List ℕ) (lines : List (List ℕ)) → asked_by (map S.text words.now) ≡ Some (Over file SessionAsked) → C.hears console.old ≡ Some lines
        → Session H.holds H.refuses H.stores H.shut file lines host.old host.new (W.contents out.old) (W.contents out.new) result }
    // Whatever lines come, what stands under other names stays, and all does where the host can't open FILE; where FILE begins with no hyphen.
    ensures keeps { (file : List ℕ) → asked_by (map S.text words.now) ≡ Some (Over file SessionAsked) → is_operand file ≡ true → KeepsTo H.stores H.shut file host.old host.new }
    // All other words.
    ensures runs { ((file : List ℕ) → asked_by (map S.text words.now) ≢ Some (Over file SessionAsked))
        → RunsWords H.holds H.refuses H.stores H.shut (map S.text words.now) host.old host.new (W.contents out.old) (W.contents out.new) result }
    // Where one of them is none of those that are listed, the line that says so is printed.
    ensures wrong_words { (line : CommandLine) (wrong : List ℕ) → Says (map S.text words.now) line → task_of line ≡ Err wrong → (host.new ≡ host.old)
        × (Prints (W.contents out.old) (W.contents out.new) result (wrong_words wrong) ⊎ Prints (W.contents out.old) (W.contents out.new) result out_of_memory) }
{
    match parse(alloc, words) {
        Ok(request) => match session_file(&request) {
            Some(file) => answer_lines(alloc, file, host, console, out),
            None => wh_program::run(alloc, words, host, out),
        },
        Err(AllocError) => print_answer(out, Err(AllocError)).code(),
    }
}
