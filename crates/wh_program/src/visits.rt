//! What each word does over the files that it names.

ghost use Rattle.std.specs.Prelude.{◌≡◌, Some};
ghost use Rattle.wh_program.specs.Answer.{status_code};
ghost use Rattle.wh_program.specs.Run.{GoesOut, Prints};
ghost use Rattle.wh_program.specs.Tasks.{Runs, RunsShut, SparesOthers};
ghost use Rattle.wh_program.specs.Warehouse.{printed};
ghost use Rattle.wh_words.specs.Task.{Over, task_in, warehouse_of, work_in};

pub(crate) mod delivery;
pub(crate) mod dump;
pub(crate) mod explain;
pub(crate) mod lists;
pub(crate) mod opened;
pub(crate) mod queries;
pub(crate) mod query;
pub(crate) mod records;
pub(crate) mod report;
pub(crate) mod reports;
pub(crate) mod trial;
pub(crate) mod verdict;
pub(crate) mod views;
pub(crate) mod warehouse;

use crate::host::Host;
use crate::lines::SESSION_LINE;
use crate::lines::answer::Status;
use crate::output::{print, print_answer};
use crate::visits::delivery::deliver;
use crate::visits::dump::print_dump;
use crate::visits::explain::{explain, explain_init};
use crate::visits::queries::queries;
use crate::visits::query::visit_query;
use crate::visits::records::records;
use crate::visits::report::visit_report;
use crate::visits::reports::reports;
use crate::visits::trial::trial;
use crate::visits::verdict::check;
use crate::visits::views::views;
use crate::visits::warehouse::{init, plan, send, status, upgrade};
use std::alloc::Global;
use std::io::Write;
use wh_batch::CommandKind;
use wh_words::{Task, Work};

/// Does the work over the warehouse in a file, and prints the answer.
fn run_over<H: Host, W: Write>(
    alloc: Global,
    file: &str,
    work: Work,
    host: &mut H,
    out: &mut W,
) -> Status
    ensures runs { Runs (H.holds host.old) (H.refuses host.old) (H.stores host.old) (H.stores host.new) (host.new ≡ host.old) (λ shown. Prints (W.contents out.old) (W.contents out.new) (status_code result) (printed shown)) (λ cut shown. GoesOut cut (W.contents out.old) (W.contents out.new) (status_code result) (printed shown)) (Over file.now (work_in work.entry)) }
    ensures others { SparesOthers (H.stores host.old) (H.stores host.new) (Some file.now) }
    ensures shut { RunsShut (H.shut host.old) (H.holds host.old) (host.new ≡ host.old) (λ shown. Prints (W.contents out.old) (W.contents out.new) (status_code result) (printed shown)) (Over file.now (work_in work.entry)) }
{
    match work {
        Work::Init { policy } => print_answer(out, init(alloc, file, policy, host)),
        Work::Load { kind, id, path } => {
            let kind = CommandKind::Batch(kind);
            print_answer(out, send(alloc, file, kind, id, path, host))
        }
        Work::Migrate { id, policy } => {
            let kind = CommandKind::Migration;
            print_answer(out, send(alloc, file, kind, id, policy, host))
        }
        Work::Upgrade { id } => print_answer(out, upgrade(alloc, file, id, host)),
        Work::Deliver { manifest } => deliver(alloc, file, manifest, host, out),
        Work::Plan { kind, id, path } => {
            print_answer(out, plan(alloc, file, kind, id, path, host))
        }
        Work::Explain { kind, path } => print_answer(out, explain(alloc, file, kind, path, host)),
        Work::ExplainInit { policy } => print_answer(out, explain_init(alloc, policy, host)),
        Work::Records { dim, from } => print_answer(out, records(alloc, file, dim, from, host)),
        Work::Query(asked) => print_answer(out, visit_query(alloc, file, asked, host)),
        Work::Report(asked) => print_answer(out, visit_report(alloc, file, asked, host)),
        Work::Reports { list } => print_answer(out, reports(alloc, file, list, host)),
        Work::Queries { list } => print_answer(out, queries(alloc, file, list, host)),
        Work::Dump(table) => print_dump(alloc, file, table, host, out),
        Work::Views => print_answer(out, views(alloc, file, host)),
        Work::Check => print_answer(out, check(alloc, file, host)),
        Work::Status => print_answer(out, status(alloc, file, host)),
        Work::Session => print(out, Status::Refused, SESSION_LINE),
    }
}

/// Does what the words of a command ask for, and prints the answer.
pub(crate) fn run_task<H: Host, W: Write>(
    alloc: Global,
    task: Task,
    host: &mut H,
    out: &mut W,
) -> Status
    ensures runs { Runs (H.holds host.old) (H.refuses host.old) (H.stores host.old) (H.stores host.new) (host.new ≡ host.old) (λ shown. Prints (W.contents out.old) (W.contents out.new) (status_code result) (printed shown)) (λ cut shown. GoesOut cut (W.contents out.old) (W.contents out.new) (status_code result) (printed shown)) (task_in task.entry) }
    ensures others { SparesOthers (H.stores host.old) (H.stores host.new) (warehouse_of (task_in task.entry)) }
    ensures shut { RunsShut (H.shut host.old) (H.holds host.old) (host.new ≡ host.old) (λ shown. Prints (W.contents out.old) (W.contents out.new) (status_code result) (printed shown)) (task_in task.entry) }
{
    match task {
        Task::Trial { dim, path, policy } => {
            print_answer(out, trial(alloc, dim, path, policy, host))
        }
        Task::Over { file, work } => run_over(alloc, file, work, host, out),
    }
}
