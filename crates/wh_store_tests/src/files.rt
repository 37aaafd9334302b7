//! Warehouses in files, which may stop and crash, and what is found after that.
//!
//! What is done with a connection is generic in its store, so that only `on_files` and `on_path` speak of a store over files.

use crate::held::Warehouse;
use crate::opening::{found, free, make_tables};
use crate::second::upgrade_all;
use crate::tables::{on_tables, show};
use crate::trouble::Trouble;
use crate::words::{Step, push_answer, step_of};
use crate::writing::write;
use sqlite::{Alter, Connection, Files, Options, Unknown};
use sqlite_disk::{Crash, Disk, Fuse, Memory};
use std::alloc::Global;
use std::fs;
use wh_store::{OpenFault, into_files, open_path, restart};

/// A log and a database file in memory, which stop after so many calls.
pub type Disks = Files<Fuse<Memory>>;

/// What a run does.
#[derive(Clone, Copy)]
pub enum Task<'a> {
    /// It makes the ten tables.
    Make,
    /// It makes edits in one transaction.
    Write(&'a str),
    /// It makes the second format of the first.
    Upgrade,
    /// It runs a text.
    Run(&'a str),
    /// It tells all rows, and where there is no warehouse those of one that it makes.
    Show,
    /// It answers questions.
    Ask(&'a str),
}

/// How a run ends.
#[derive(Clone, Copy, PartialEq, Eq)]
enum End {
    /// The log is written into the database file.
    Close,
    /// The files stay as they are.
    Leave,
    /// The machine stops and comes back, and the files are opened again.
    Restart,
}

pub type Answer = Result<(), Trouble>;

fn perform<S: Alter + Drop>(
    alloc: Global,
    conn: Connection<S>,
    task: Task<'_>,
    out: &mut String,
) -> (Connection<S>, Answer) {
    match task {
        Task::Make => make_over(alloc, conn),
        Task::Write(edits) => write_over(alloc, conn, edits, out),
        Task::Upgrade => upgrade_over(alloc, conn),
        Task::Run(text) => run_over(conn, text),
        Task::Show => show_over(alloc, conn, out),
        Task::Ask(questions) => ask_over(alloc, conn, questions, out),
    }
}

fn make_over<S: Alter + Drop>(alloc: Global, conn: Connection<S>) -> (Connection<S>, Answer) {
    match free(conn) {
        Ok(mut held) => {
            let answer = make_tables(alloc, &mut held.tables);
            (held.tables.close(), answer)
        }
        Err((fault, conn)) => (conn, Err(Trouble::Unmade(fault))),
    }
}

fn write_over<S: Alter + Drop>(
    alloc: Global,
    conn: Connection<S>,
    edits: &str,
    out: &mut String,
) -> (Connection<S>, Answer) {
    match found(alloc, conn) {
        Ok(mut held) => {
            let answer = write(alloc, &mut held.tables, edits, out);
            (held.tables.close(), answer)
        }
        Err((fault, conn)) => (conn, Err(Trouble::Unopened(fault))),
    }
}

fn upgrade_over<S: Alter + Drop>(alloc: Global, conn: Connection<S>) -> (Connection<S>, Answer) {
    match found(alloc, conn) {
        Ok(mut held) => {
            let answer = upgrade_all(alloc, &mut held);
            (held.tables.close(), answer)
        }
        Err((fault, conn)) => (conn, Err(Trouble::Unopened(fault))),
    }
}

fn run_over<S: Alter + Drop>(mut conn: Connection<S>, text: &str) -> (Connection<S>, Answer) {
    match conn.execute_batch(text) {
        Ok(()) => (conn, Ok(())),
        Err(error) => (conn, Err(Trouble::from(error))),
    }
}

fn show_over<S: Alter + Drop>(
    alloc: Global,
    conn: Connection<S>,
    out: &mut String,
) -> (Connection<S>, Answer) {
    match found(alloc, conn) {
        Ok(mut held) => {
            let answer = show(alloc, &mut held, out);
            (held.tables.close(), answer)
        }
        Err((OpenFault::NotAWarehouse, conn)) => show_unmade(alloc, conn, out),
        Err((fault, conn)) => (conn, Err(Trouble::Unopened(fault))),
    }
}

/// What a database holds that is no warehouse and has no object, and then is made one.
fn show_unmade<S: Alter + Drop>(
    alloc: Global,
    mut conn: Connection<S>,
    out: &mut String,
) -> (Connection<S>, Answer) {
    if objects_of(&mut conn) != Ok(0) {
        return (conn, Err(Trouble::Unopened(OpenFault::NotAWarehouse)));
    }
    match free(conn) {
        Ok(mut held) => {
            let answer = make_and_show(alloc, &mut held, out);
            (held.tables.close(), answer)
        }
        Err((fault, conn)) => (conn, Err(Trouble::Unmade(fault))),
    }
}

fn objects_of<S: Alter>(conn: &mut Connection<S>) -> Result<i64, Trouble> {
    let row = conn.query_row("SELECT count(*) FROM sqlite_master", &[])?;
    Ok(row.get(0)?)
}

fn make_and_show<S: Alter>(alloc: Global, held: &mut Warehouse<S>, out: &mut String) -> Answer {
    push_answer(out, "empty, and then")?;
    make_tables(alloc, &mut held.tables)?;
    show(alloc, held, out)
}

fn ask_over<S: Alter + Drop>(
    alloc: Global,
    conn: Connection<S>,
    questions: &str,
    out: &mut String,
) -> (Connection<S>, Answer) {
    match found(alloc, conn) {
        Ok(mut held) => {
            let answer = ask_all(alloc, &mut held, questions, out);
            (held.tables.close(), answer)
        }
        Err((fault, conn)) => (conn, Err(Trouble::Unopened(fault))),
    }
}

fn ask_all<S: Alter>(
    alloc: Global,
    held: &mut Warehouse<S>,
    questions: &str,
    out: &mut String,
) -> Answer {
    for line in questions.lines() {
        on_tables(alloc, held, step_of(line.trim_start()), out)?;
    }
    Ok(())
}

/// A run over files: the files after it, and what came of its task. It fails where no files are left.
fn on_files<D: Crash + Drop>(
    alloc: Global,
    files: Files<D>,
    task: Task<'_>,
    end: End,
    out: &mut String,
) -> Result<(Files<D>, Answer), Trouble> {
    if !files.may_be_used() {
        return Ok((files, Err(Trouble::Unknown)));
    }
    match Connection::open_files(alloc, files, Options::new(1)) {
        Ok(conn) => {
            let (conn, answer) = perform(alloc, conn, task, out);
            match end {
                End::Close => match conn.close_files() {
                    Ok(files) => Ok((files, answer)),
                    Err((_, store)) => Ok((store.close(), answer)),
                },
                End::Leave => Ok((into_files(conn), answer)),
                End::Restart => match restart(alloc, conn, Options::new(2)) {
                    Ok(again) => Ok((into_files(again), answer)),
                    Err(_) => Err(Trouble::Unknown),
                },
            }
        }
        Err((_, left)) => Ok((left.into_files(), Err(Trouble::Unknown))),
    }
}

/// A step on files that is a run over them.
pub fn run_step<D: Crash + Drop>(
    alloc: Global,
    files: Files<D>,
    step: Step<'_>,
    out: &mut String,
) -> Result<(Files<D>, Answer), Trouble> {
    let end = end_of(step);
    match step.verb {
        "make" => on_files(alloc, files, Task::Make, end, out),
        "upgrade" => on_files(alloc, files, Task::Upgrade, end, out),
        "write" => on_files(alloc, files, Task::Write(step.body), end, out),
        "ask" => on_files(alloc, files, Task::Ask(step.body), end, out),
        "restart" => on_files(alloc, files, Task::Run(step.body), End::Restart, out),
        _ => Ok((files, Err(Trouble::Unknown))),
    }
}

fn end_of(step: Step<'_>) -> End {
    if step.rest == "left" {
        End::Leave
    } else {
        End::Close
    }
}

/// What the files hold.
pub fn show_copy(alloc: Global, files: &Disks, out: &mut String) -> Answer {
    let text = shown(alloc, fused(alloc, files, u64::MAX, u64::MAX)?)?;
    Ok(out.push_str(text.as_str())?)
}

/// Empty files, which don't stop.
pub fn blank(alloc: Global) -> Disks {
    Files {
        log: Fuse::new(Memory::new(alloc), u64::MAX),
        db: Fuse::new(Memory::new(alloc), u64::MAX),
    }
}

fn copy(alloc: Global, disk: &Memory) -> Result<Memory, Trouble> {
    let mut copied = Memory::new(alloc);
    copied.write_at(0, disk.bytes())?;
    copied.sync()?;
    Ok(copied)
}

/// The same files, which stop after so many calls of the log, and of the database file.
fn fused(alloc: Global, files: &Disks, log: u64, db: u64) -> Result<Disks, Trouble> {
    Ok(Files {
        log: Fuse::new(copy(alloc, files.log.inner())?, log),
        db: Fuse::new(copy(alloc, files.db.inner())?, db),
    })
}

/// What files hold after a crash, as an answer.
fn shown<D: Crash + Drop>(alloc: Global, files: Files<D>) -> Result<String, Trouble> {
    let mut out = String::new(alloc);
    match on_files(alloc, crashed(files), Task::Show, End::Close, &mut out) {
        Ok((_, Ok(()))) => Ok(out),
        Ok((_, Err(trouble))) => Err(trouble),
        Err(trouble) => Err(trouble),
    }
}

fn crashed<D: Crash>(mut files: Files<D>) -> Files<D> {
    files.log.crash();
    files.db.crash();
    files
}

/// Whether a call on the disk fails.
fn fails<D: Disk>(disk: &mut D) -> bool {
    !disk.may_be_used() || disk.len().is_err()
}

fn has_stopped<D: Disk>(files: &mut Files<D>) -> bool {
    fails(&mut files.log) || fails(&mut files.db)
}

/// What a run that may have been stopped came to, and what is found after a crash.
#[derive(Drop)]
struct Attempt {
    is_done: bool,
    is_stopped: bool,
    found: String,
}

fn tried<D: Crash + Drop>(
    alloc: Global,
    files: Files<D>,
    task: Task<'_>,
) -> Result<Attempt, Trouble> {
    let mut out = String::new(alloc);
    match on_files(alloc, files, task, End::Close, &mut out) {
        Ok((files, answer)) => judged(alloc, files, answer.is_ok()),
        Err(trouble) => Err(trouble),
    }
}

fn judged<D: Crash + Drop>(
    alloc: Global,
    mut files: Files<D>,
    is_done: bool,
) -> Result<Attempt, Trouble> {
    let is_stopped = has_stopped(&mut files);
    match shown(alloc, files) {
        Ok(found) => Ok(Attempt {
            is_done,
            is_stopped,
            found,
        }),
        Err(trouble) => Err(trouble),
    }
}

/// Edits, `upgrade`, or nothing, for the making.
fn task_of(body: &str) -> Task<'_> {
    match body {
        "" => Task::Make,
        "upgrade\n" => Task::Upgrade,
        edits => Task::Write(edits),
    }
}

/// `log` or `database`: does the task while that file stops at each call in turn. It tells what was found, and what the whole task leaves.
pub fn stops(alloc: Global, files: &Disks, step: Step<'_>, out: &mut String) -> Answer {
    let task = task_of(step.body);
    let before = shown(alloc, fused(alloc, files, u64::MAX, u64::MAX)?)?;
    let after = tried(alloc, fused(alloc, files, u64::MAX, u64::MAX)?, task)?.found;
    let found = Found {
        before: before.as_str(),
        after: after.as_str(),
    };
    push_answer(
        out,
        each_stop(alloc, files, step.rest == "log", task, found)?,
    )?;
    out.push_str(after.as_str())?;
    Ok(())
}

/// What may be found after a crash.
#[derive(Clone, Copy)]
struct Found<'a> {
    before: &'a str,
    after: &'a str,
}

impl Found<'_> {
    /// What was committed is found; what was not is found whole, or not at all.
    fn allows(self, attempt: &Attempt) -> bool {
        let text = attempt.found.as_str();
        text == self.after || text == self.before && !attempt.is_done
    }
}

/// Stops the task at each call, up to a run that isn't stopped.
fn each_stop(
    alloc: Global,
    files: &Disks,
    is_log: bool,
    task: Task<'_>,
    found: Found<'_>,
) -> Result<&'static str, Trouble> {
    for calls in 0..10_000 {
        let (log, db) = if is_log {
            (calls, u64::MAX)
        } else {
            (u64::MAX, calls)
        };
        let attempt = tried(alloc, fused(alloc, files, log, db)?, task)?;
        if !found.allows(&attempt) {
            return Ok("neither what was there, nor all");
        }
        if !attempt.is_stopped {
            return Ok(if attempt.is_done {
                "at each call what was there, or all"
            } else {
                "not done"
            });
        }
    }
    Ok("no run without a stop")
}

/// A folder of the test's own, in the folder that it is run in.
const FOLDER: &str = "wh_store_tests";

const PATH: &str = "wh_store_tests/shop";

fn on_path(rt: &HostRuntime, task: Task<'_>, out: &mut String) -> Answer {
    match open_path(rt, PATH, Unknown) {
        Ok(conn) => {
            let (conn, answer) = perform(rt.alloc(), conn, task, out);
            let _ = conn.close();
            answer
        }
        Err(_) => Err(Trouble::Unknown),
    }
}

/// A warehouse is made at a path and edited, and opened again for the questions.
pub fn at_path(rt: &HostRuntime, edits: &str, questions: &str) -> Result<String, Trouble> {
    let mut out = String::new(rt.alloc());
    let _ = fs::remove_dir_all(rt, FOLDER);
    fs::create_dir(rt, FOLDER)?;
    on_path(rt, Task::Make, &mut out)?;
    on_path(rt, Task::Write(edits), &mut out)?;
    on_path(rt, Task::Ask(questions), &mut out)?;
    fs::remove_dir_all(rt, FOLDER)?;
    Ok(out)
}
