//! One run of the program.

ghost use Rattle.std.specs.Prelude.{◌≡◌, ◌≢◌, ◌⊎◌, ℕ, List, Some, None, Ok, Err, map};
ghost use Rattle.std.specs.IoError.{error_kind};
ghost use Rattle.std.specs.declared.io.ErrorKind.TheVariants.{OutOfMemory};
ghost use Rattle.clap.specs.Words.{Kinds};
ghost use Rattle.wh_program.specs.Answer.{Printed, wrong_words, no_text_line};
ghost use Rattle.wh_words.specs.CommandLine.{CommandLine, Says, task_of};
ghost use Rattle.wh_words.specs.Request.{IsDeclined, asked_in};
ghost use Rattle.wh_words.specs.Task.{Task as TaskAsked, warehouse_of};
ghost use Rattle.wh_program.specs.Run.{Declines, GoesOut, Prints, out_of_memory};
ghost use Rattle.wh_words.specs.Asked.{asked_by, faults_in};
ghost use Rattle.wh_program.specs.Tasks.{Runs, RunsShut, SparesOthers};
ghost use Rattle.wh_program.specs.Warehouse.{printed};

use crate::host::Host;
use crate::lines::answer::Status;
use crate::lines::{MEMORY_LINE, NO_TEXT_LINE};
use crate::output::{print, print_usage};
use crate::visits::run_task;
use std::alloc::Global;
use std::convert::AsStr;
use std::io;
use std::io::Write;
use wh_words::{Request, parse};

/// Answers a request.
fn run_request<H: Host, W: Write>(alloc: Global, request: Request, host: &mut H, out: &mut W) -> u8
    ensures runs { (task : TaskAsked) → asked_in request.entry ≡ Some (Ok task)
        → Runs (H.holds host.old) (H.refuses host.old) (H.stores host.old) (H.stores host.new) (host.new ≡ host.old) (λ shown. Prints (W.contents out.old) (W.contents out.new) result (printed shown)) (λ cut shown. GoesOut cut (W.contents out.old) (W.contents out.new) result (printed shown)) task }
    ensures others { (task : TaskAsked) → asked_in request.entry ≡ Some (Ok task) → SparesOthers (H.stores host.old) (H.stores host.new) (warehouse_of task) }
    ensures shut { (task : TaskAsked) → asked_in request.entry ≡ Some (Ok task) → RunsShut (H.shut host.old) (H.holds host.old) (host.new ≡ host.old) (λ shown. Prints (W.contents out.old) (W.contents out.new) result (printed shown)) task }
    ensures right_words { (task : TaskAsked) → asked_in request.entry ≡ Some (Ok task) → result ≢ 4 }
    ensures wrong_words { (line : List ℕ) → asked_in request.entry ≡ Some (Err line) → (host.new ≡ host.old) × Prints (W.contents out.old) (W.contents out.new) result (wrong_words line) }
    ensures declined { (faults : Kinds) → IsDeclined faults request.entry → (host.new ≡ host.old) × ((answer : Printed) × Declines faults answer × Prints (W.contents out.old) (W.contents out.new) result answer) }
{
    match request {
        Request::Task(task) => run_task(alloc, task, host, out).code(),
        Request::Help(text) => print(out, Status::Done, text.as_bytes()).code(),
        Request::Usage(text) => print_usage(out, text.as_bytes()),
    }
}

/// One run of the program: answers the words after its name, and gives the status to exit with: 0 done, 2 refused, 3 failed, 4 wrong words.
pub fn run<S: AsStr, H: Host, W: Write>(alloc: Global, words: &[S], host: &mut H, out: &mut W) -> u8
    // What each command prints, with its status, and what it leaves under the name of a warehouse.
    ensures runs { (line : CommandLine) (task : TaskAsked) → Says (map S.text words.now) line → task_of line ≡ Ok task
        → Runs (H.holds host.old) (H.refuses host.old) (H.stores host.old) (H.stores host.new) (host.new ≡ host.old) (λ shown. Prints (W.contents out.old) (W.contents out.new) result (printed shown)) (λ cut shown. GoesOut cut (W.contents out.old) (W.contents out.new) result (printed shown)) task }
    // Its words are right, and no run of it ends as wrong words do.
    ensures right_words { (line : CommandLine) (task : TaskAsked) → Says (map S.text words.now) line → task_of line ≡ Ok task → result ≢ 4 }
    // Where one of its words is none of those that are listed, the line that says so is printed, and the host is as it was.
    ensures wrong_words { (line : CommandLine) (wrong : List ℕ) → Says (map S.text words.now) line → task_of line ≡ Err wrong → (host.new ≡ host.old)
        × (Prints (W.contents out.old) (W.contents out.new) result (wrong_words wrong) ⊎ Prints (W.contents out.old) (W.contents out.new) result out_of_memory) }
    // Any words in which clap reads a command are run as that command.
    ensures reads { (task : TaskAsked) → asked_by (map S.text words.now) ≡ Some task
        → Runs (H.holds host.old) (H.refuses host.old) (H.stores host.old) (H.stores host.new) (host.new ≡ host.old) (λ shown. Prints (W.contents out.old) (W.contents out.new) result (printed shown)) (λ cut shown. GoesOut cut (W.contents out.old) (W.contents out.new) result (printed shown)) task × (result ≢ 4) }
    // They leave what stands under other names as it was.
    ensures others { (task : TaskAsked) → asked_by (map S.text words.now) ≡ Some task → SparesOthers (H.stores host.old) (H.stores host.new) (warehouse_of task) }
    // Where the host can't open FILE, its line is the answer, or what is answered before it is opened, and the host is as it was.
    ensures shut { (task : TaskAsked) → asked_by (map S.text words.now) ≡ Some task → RunsShut (H.shut host.old) (H.holds host.old) (host.new ≡ host.old) (λ shown. Prints (W.contents out.old) (W.contents out.new) result (printed shown)) task }
    // All other words leave the host as it was: the answer is help, or the version, where they ask for it, and else what is wrong with them.
    ensures declines { asked_by (map S.text words.now) ≡ None → (host.new ≡ host.old)
        × (((answer : Printed) × Declines (faults_in (map S.text words.now)) answer × Prints (W.contents out.old) (W.contents out.new) result answer)
        ⊎ Prints (W.contents out.old) (W.contents out.new) result out_of_memory) }
{
    match parse(alloc, words) {
        Ok(request) => run_request(alloc, request, host, out),
        Err(_) => print(out, Status::Failed, MEMORY_LINE).code(),
    }
}

/// A run whose words could not be had: they are no text (status 4), or memory ran out (status 3).
pub fn run_without_words<W: Write>(error: &io::Error, out: &mut W) -> u8
    ensures memory { error_kind error.now ≡ OutOfMemory → Prints (W.contents out.old) (W.contents out.new) result out_of_memory }
    ensures no_text { error_kind error.now ≢ OutOfMemory → Prints (W.contents out.old) (W.contents out.new) result (wrong_words no_text_line) }
{
    match error.kind() {
        io::ErrorKind::OutOfMemory => print(out, Status::Failed, MEMORY_LINE).code(),
        _ => print_usage(out, NO_TEXT_LINE),
    }
}
