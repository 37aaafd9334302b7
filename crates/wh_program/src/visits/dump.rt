//! The tables of a warehouse in a file, printed row by row.

ghost use Rattle.std.specs.Prelude.{◌≡◌, List, Some};
ghost use Rattle.sqlite.specs.State.{HasCleanDisk};
ghost use Rattle.wh_history.specs.Accepted.{Accepted};
ghost use Rattle.wh_history.specs.Tables.{Limits};
ghost use Rattle.wh_engine.specs.Answered.{IsReady};
ghost use Rattle.wh_sql.specs.Answers.{state_of};
ghost use Rattle.wh_program.specs.Answer.{status_code};
ghost use Rattle.wh_program.specs.Readings.{SaysStop, IsDumped, AnswersDump};
ghost use Rattle.wh_program.specs.Run.{Prints};
ghost use Rattle.wh_program.specs.Standing.{DatabaseContent, IsOfCommands, Standing, Rests, Stands, LeavesIt};
ghost use Rattle.wh_program.specs.Warehouse.{Shown, Shows, printed, PrintsShut, IsNoFile};
ghost use Rattle.wh_program.specs.Tasks.{LeavesWhatStands, SparesOthers};
ghost use Rattle.wh_program.specs.Looking.{Looks};

use crate::host::{Host, HostError, Visitor};
use crate::lines::answer::Status;
use crate::lines::reporting::report_fault_answer;
use crate::lines::{no_file, opening_answer};
use crate::output::{print_answer, write_failed};
use crate::visits::opened::is_of_store;
use sqlite::{Alter, Connection};
use std::alloc::{AllocError, Global};
use std::io::Write;
use wh_engine::Engine;
use wh_report::{ReportFault, dump};
use wh_rows::Table;

/// Says what ended a dump, after what went out of it.
fn print_stop<W: Write>(alloc: Global, fault: ReportFault, out: &mut W) -> Status
    ensures { SaysStop fault (W.contents out.old) (W.contents out.new) (status_code result) }
{
    match fault {
        ReportFault::Write | ReportFault::Unwritten(_) => write_failed(out),
        fault => print_answer(out, report_fault_answer(alloc, fault)),
    }
}

/// Prints a table of a warehouse that is open, each row as it is handed out.
fn print_table<S: Alter, W: Write>(
    alloc: Global,
    engine: &mut Engine<S>,
    table: Table,
    out: &mut W,
) -> Status
    ensures looks { Looks S.Store engine.old engine.new }
    ensures dumped { HasCleanDisk (state_of S.Store engine.new.tables) → (limits : Limits) (commands : List Accepted) → IsReady limits commands engine.old.session (state_of S.Store engine.old.tables)
        → (after : Standing) × ((shown : Shown) × IsDumped table limits commands shown after × Prints (W.contents out.old) (W.contents out.new) (status_code result) (printed shown)) × Stands after (state_of S.Store engine.new.tables) }
{
    match dump(alloc, engine, table, out) {
        Ok(()) => Status::Done,
        Err(fault) => print_stop(alloc, fault, out),
    }
}

/// Dumps a table of a warehouse.
#[derive(Clone, Copy, Drop)]
struct Dumping {
    table: Table,
}

impl Visitor for Dumping {
    type Output = Status;

    ghost promises = { λ dumping content status old new after. (IsOfCommands content → (shown : Shown) × Shows (IsDumped dumping.table) content shown after × Prints old new (status_code status) (printed shown)) × LeavesIt content after };

    fn visit<T: Alter + Drop, W: Write>(
        self,
        alloc: Global,
        connection: Connection<T>,
        out: &mut W,
    ) -> (Status, Connection<T>, bool) {
        match Engine::open(alloc, connection) {
            Ok(mut engine) => {
                let status = print_table(alloc, &mut engine, self.table, out);
                let must_reopen = engine.must_reopen();
                (status, engine.close(), must_reopen)
            }
            Err((fault, connection)) => {
                let status = print_answer(out, opening_answer(alloc, fault));
                (status, connection, is_of_store(&fault))
            }
        }
    }
}

/// Prints a table of the warehouse in a file.
pub fn print_dump<H: Host, W: Write>(
    alloc: Global,
    file: &str,
    table: Table,
    host: &mut H,
    out: &mut W,
) -> Status
    ensures answers { (content : DatabaseContent) → IsOfCommands content → H.stores host.old file.now (Rests content)
        → (shown : Shown) × AnswersDump (H.refuses host.old) (H.stores host.new file.now) content file.now table shown × Prints (W.contents out.old) (W.contents out.new) (status_code result) (printed shown) }
    ensures leaves { LeavesWhatStands (H.stores host.old) (H.stores host.new) file.now }
    ensures others { SparesOthers (H.stores host.old) (H.stores host.new) (Some file.now) }
    ensures shut { H.shut host.old file.now → PrintsShut (host.new ≡ host.old) (IsNoFile file.now) (λ shown. Prints (W.contents out.old) (W.contents out.new) (status_code result) (printed shown)) }
{
    match host.with_existing(alloc, file, Dumping { table }, out) {
        Ok(status) => status,
        Err(HostError::NoFile) => print_answer(out, no_file(alloc, file)),
        Err(HostError::Memory) => print_answer(out, Err(AllocError)),
    }
}
