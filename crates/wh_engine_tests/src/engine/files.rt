//! Warehouses in files on disks in memory, which may stop and crash, and what is found after that.
//!
//! `perform` and all that it calls are generic in the store, so that no proof but those of `on_files` and `redelivered` carries the state of
//! a file store.

use crate::engine::asking::{
    Work, ask, command_of, command_of_work, counts, push_answer, push_fault,
};
use crate::engine::deliveries::{commands_of, push_replies};
use crate::engine::initiated;
use crate::engine::readings::read;
use crate::engine::tables::{Answer, all_over, look_over};
use crate::trouble::Trouble;
use sqlite::{Alter, Connection, FileStore, Files, Options};
use sqlite_disk::{Crash, Disk, Fuse, Memory};
use std::alloc::Global;
use wh_checking::{Check, Verdict};
use wh_engine::{
    Command, Engine, Fault, InitFault, OpenFault, Replies, Reply, deliver_again, redeliver,
};
use wh_rows::Limits;
use wh_scenarios::{number, parted, push_line, push_number};

/// What a crash left of a work: all twelve tables as they were before the work and as they are after each part of it with no stop, empty
/// where there is no warehouse, and how many parts were acknowledged.
#[derive(Clone, Copy)]
struct Left<'a> {
    stages: &'a [String],
    acknowledged: usize,
}

/// What is done with a connection.
#[derive(Clone, Copy)]
enum Task<'a> {
    /// A step of an engine is answered.
    Ask(Work<'a>),
    /// A warehouse is made under a policy.
    Init(&'a str),
    /// What a table holds is told.
    Look(&'a str),
    /// All twelve tables are told, which must be clean, and nothing where there is no warehouse.
    Find,
    /// A work is tried: `done`, `refused`, `stopped` by the store, or `served` in spite of that, and how many parts were acknowledged.
    Attempt(Work<'a>),
    /// It is looked whether the tables are those after the acknowledged parts of a work or with the next one, and the work is done again.
    Recover(Work<'a>, Left<'a>),
}

fn perform<S: Alter + Drop>(
    alloc: Global,
    conn: Connection<S>,
    task: Task<'_>,
) -> (Connection<S>, Answer) {
    match task {
        Task::Ask(work) => ask_over(alloc, conn, work),
        Task::Init(name) => init_over(alloc, conn, name),
        Task::Look(words) => look_over(alloc, conn, words),
        Task::Find => find_clean(alloc, conn),
        Task::Attempt(work) => attempt_over(alloc, conn, work),
        Task::Recover(work, left) => recover_over(alloc, conn, work, left),
    }
}

fn asked<S: Alter>(alloc: Global, engine: &mut Engine<S>, work: Work<'_>) -> Answer {
    let mut out = String::new(alloc);
    ask(alloc, engine, work, &mut out)?;
    Ok(out)
}

fn ask_over<S: Alter + Drop>(
    alloc: Global,
    conn: Connection<S>,
    work: Work<'_>,
) -> (Connection<S>, Answer) {
    match Engine::open(alloc, conn) {
        Ok(mut engine) => {
            let answer = asked(alloc, &mut engine, work);
            (engine.close(), answer)
        }
        Err((_, conn)) => (conn, Err(Trouble)),
    }
}

fn word(alloc: Global, word: &str) -> Answer {
    Ok(String::from_str(alloc, word)?)
}

fn fault_line(alloc: Global, fault: InitFault) -> Answer {
    let mut out = String::new(alloc);
    push_fault(&mut out, fault)?;
    Ok(out)
}

fn init_over<S: Alter + Drop>(
    alloc: Global,
    conn: Connection<S>,
    name: &str,
) -> (Connection<S>, Answer) {
    match initiated(alloc, conn, name, Limits::greatest()) {
        Ok(engine) => (engine.close(), word(alloc, "made\n")),
        Err((fault, conn)) => (conn, fault_line(alloc, fault)),
    }
}

fn find_over<S: Alter + Drop>(alloc: Global, conn: Connection<S>) -> (Connection<S>, Answer) {
    match Engine::open(alloc, conn) {
        Ok(engine) => all_over(alloc, engine.close()),
        Err((OpenFault::NotAWarehouse, conn)) => (conn, word(alloc, "")),
        Err((_, conn)) => (conn, Err(Trouble)),
    }
}

/// The same, where a warehouse must be clean.
fn find_clean<S: Alter + Drop>(alloc: Global, conn: Connection<S>) -> (Connection<S>, Answer) {
    match Engine::open(alloc, conn) {
        Ok(mut engine) => match engine.check(alloc) {
            Ok(Verdict::Clean) => all_over(alloc, engine.close()),
            _ => (engine.close(), Err(Trouble)),
        },
        Err((OpenFault::NotAWarehouse, conn)) => (conn, word(alloc, "")),
        Err((_, conn)) => (conn, Err(Trouble)),
    }
}

fn attempt_over<S: Alter + Drop>(
    alloc: Global,
    conn: Connection<S>,
    work: Work<'_>,
) -> (Connection<S>, Answer) {
    match work.verb {
        "init" => try_making(alloc, conn, work.rest),
        "night" => try_night(alloc, conn, work.rest),
        "open" | "send" | "batch" | "deliver" | "check" | "records" | "query" => {
            try_asking(alloc, conn, work)
        }
        _ => (conn, Err(Trouble)),
    }
}

/// Makes a warehouse, where there is none.
fn try_making<S: Alter + Drop>(
    alloc: Global,
    conn: Connection<S>,
    name: &str,
) -> (Connection<S>, Answer) {
    match initiated(alloc, conn, name, Limits::greatest()) {
        Ok(engine) => (engine.close(), word(alloc, "done 1")),
        Err((InitFault::NotEmpty, conn)) => (conn, word(alloc, "done 1")),
        Err((_, conn)) => (conn, word(alloc, "stopped 0")),
    }
}

/// `POLICY IDS`: makes a warehouse, where there is none, and delivers it worked commands.
fn try_night<S: Alter + Drop>(
    alloc: Global,
    conn: Connection<S>,
    words: &str,
) -> (Connection<S>, Answer) {
    let (name, ids) = parted(words, ' ');
    match initiated(alloc, conn, name, Limits::greatest()) {
        Ok(engine) => deliver_night(alloc, engine, ids),
        Err((InitFault::NotEmpty, conn)) => match Engine::open(alloc, conn) {
            Ok(engine) => deliver_night(alloc, engine, ids),
            Err((_, conn)) => (conn, Err(Trouble)),
        },
        Err((_, conn)) => (conn, word(alloc, "stopped 0")),
    }
}

fn deliver_night<S: Alter + Drop>(
    alloc: Global,
    mut engine: Engine<S>,
    ids: &str,
) -> (Connection<S>, Answer) {
    let answer = delivered(alloc, &mut engine, ids, "", 1);
    (engine.close(), answer)
}

fn try_asking<S: Alter + Drop>(
    alloc: Global,
    conn: Connection<S>,
    work: Work<'_>,
) -> (Connection<S>, Answer) {
    match Engine::open(alloc, conn) {
        Ok(mut engine) => {
            let answer = tried(alloc, &mut engine, work);
            (engine.close(), answer)
        }
        Err((_, conn)) => (conn, Err(Trouble)),
    }
}

fn tried<S: Alter>(alloc: Global, engine: &mut Engine<S>, work: Work<'_>) -> Answer {
    match work.verb {
        "open" => word(alloc, "done 1"),
        "check" => checked(alloc, engine),
        "records" | "query" => looked_at(alloc, engine, work),
        "deliver" => delivered(alloc, engine, work.rest, work.handed, 0),
        _ => sent(alloc, engine, work),
    }
}

fn sent<S: Alter>(alloc: Global, engine: &mut Engine<S>, work: Work<'_>) -> Answer {
    let command = command_of_work(alloc, work)?;
    let answer = engine.apply(alloc, &command);
    word(alloc, word_of(alloc, engine, &command, answer))
}

fn checked<S: Alter>(alloc: Global, engine: &mut Engine<S>) -> Answer {
    let verdict = engine.check(alloc);
    word(alloc, word_of_verdict(alloc, engine, verdict))
}

/// What a check came to. Where the database refused a call, the engine must answer `Reopen` from then on.
fn word_of_verdict<S: Alter>(
    alloc: Global,
    engine: &mut Engine<S>,
    verdict: Result<Verdict, Fault>,
) -> &'static str {
    match verdict {
        Ok(Verdict::Clean) => "done 1",
        Err(Fault::Store(_)) => {
            if counts_nothing(alloc, engine) && must_reopen(&engine.check(alloc)) {
                "stopped"
            } else {
                "served"
            }
        }
        _ => "refused",
    }
}

fn looked_at<S: Alter>(alloc: Global, engine: &mut Engine<S>, work: Work<'_>) -> Answer {
    let found = read(alloc, engine, work)?;
    word(alloc, word_of_reading(alloc, engine, work, found))
}

/// What a reading came to. Where the database refused a call, the engine must answer `Reopen` from then on.
fn word_of_reading<S: Alter>(
    alloc: Global,
    engine: &mut Engine<S>,
    work: Work<'_>,
    found: Result<Vec<u8>, Fault>,
) -> &'static str {
    match found {
        Ok(_) => "done 1",
        Err(Fault::Store(_)) => {
            if counts_nothing(alloc, engine) && reads_nothing(alloc, engine, work) {
                "stopped"
            } else {
                "served"
            }
        }
        Err(_) => "refused",
    }
}

fn reads_nothing<S: Alter>(alloc: Global, engine: &mut Engine<S>, work: Work<'_>) -> bool {
    match read(alloc, engine, work) {
        Ok(found) => must_reopen(&found),
        Err(Trouble) => false,
    }
}

/// Delivers commands, after so many parts that were acknowledged.
fn delivered<S: Alter>(
    alloc: Global,
    engine: &mut Engine<S>,
    ids: &str,
    handed: &str,
    before: usize,
) -> Answer {
    let commands = commands_of(alloc, ids, handed)?;
    let replies = engine.deliver(alloc, &commands);
    let count = before.saturating_add(replies.answers.len());
    let mut out = String::new(alloc);
    out.push_str(word_of_stop(alloc, engine, &commands, replies.stop))?;
    out.push_str(" ")?;
    push_number(&mut out, count as u64)?;
    Ok(out)
}

/// What a delivery came to. Where the database refused a call, the engine must answer `Reopen` from then on.
fn word_of_stop<S: Alter>(
    alloc: Global,
    engine: &mut Engine<S>,
    commands: &[Command],
    stop: Option<Fault>,
) -> &'static str {
    match stop {
        None => "done",
        Some(Fault::Store(_)) => {
            if counts_nothing(alloc, engine) && delivers_nothing(alloc, engine, commands) {
                "stopped"
            } else {
                "served"
            }
        }
        Some(_) => "refused",
    }
}

fn delivers_nothing<S: Alter>(alloc: Global, engine: &mut Engine<S>, commands: &[Command]) -> bool {
    let replies = engine.deliver(alloc, commands);
    replies.answers.is_empty() && matches!(replies.stop, Some(Fault::Reopen))
}

fn must_reopen<T>(answer: &Result<T, Fault>) -> bool {
    matches!(answer, Err(Fault::Reopen))
}

fn counts_nothing<S: Alter>(alloc: Global, engine: &mut Engine<S>) -> bool {
    must_reopen(&engine.counts(alloc))
}

fn takes_nothing<S: Alter>(alloc: Global, engine: &mut Engine<S>, command: &Command) -> bool {
    must_reopen(&engine.apply(alloc, command))
}

/// What a command came to. Where the database refused a call, the engine must answer `Reopen` from then on.
fn word_of<S: Alter>(
    alloc: Global,
    engine: &mut Engine<S>,
    command: &Command,
    answer: Result<Reply, Fault>,
) -> &'static str {
    match answer {
        Ok(_) => "done 1",
        Err(Fault::Store(_)) => {
            if counts_nothing(alloc, engine) && takes_nothing(alloc, engine, command) {
                "stopped"
            } else {
                "served"
            }
        }
        Err(_) => "refused",
    }
}

/// What is found of a work, clean, which is then done again and must lead to what it led to with no stop.
fn recover_over<S: Alter + Drop>(
    alloc: Global,
    conn: Connection<S>,
    work: Work<'_>,
    left: Left<'_>,
) -> (Connection<S>, Answer) {
    let (conn, found) = find_clean(alloc, conn);
    let (conn, answer) = attempt_over(alloc, conn, work);
    let (conn, again) = find_over(alloc, conn);
    (conn, word(alloc, judged(left, &found, &answer, &again)))
}

/// How an attempt ended, and how many parts were acknowledged. One whose warehouse could not be opened was stopped.
fn ending(answer: &Answer) -> (&str, usize) {
    match answer {
        Ok(answer) => {
            let (word, count) = parted(answer.as_str(), ' ');
            (word, count.parse::<usize>().unwrap_or(0))
        }
        Err(_) => ("stopped", 0),
    }
}

fn is_text(answer: &Answer, text: &str) -> bool {
    match answer {
        Ok(answer) => answer.as_str() == text,
        Err(_) => false,
    }
}

fn is_stage(stage: Option<&String>, answer: &Answer) -> bool {
    match stage {
        Some(stage) => is_text(answer, stage.as_str()),
        None => false,
    }
}

fn judged(left: Left<'_>, found: &Answer, answer: &Answer, again: &Answer) -> &'static str {
    let stages = left.stages;
    let next = left.acknowledged.saturating_add(1);
    if ending(answer).0 != "done" || !is_stage(stages.last(), again) {
        "lost"
    } else if is_stage(stages.get(left.acknowledged), found) || is_stage(stages.get(next), found) {
        "right"
    } else {
        "neither"
    }
}

/// Opens the files, performs a task, and closes them, or leaves them as far as the close came.
fn on_files<D: Disk + Drop>(alloc: Global, files: Files<D>, task: Task<'_>) -> (Files<D>, Answer) {
    if !files.may_be_used() {
        return (files, Err(Trouble));
    }
    match Connection::open_files(alloc, files, Options::new(1)) {
        Ok(conn) => {
            let (conn, answer) = perform(alloc, conn, task);
            match conn.close_files() {
                Ok(files) => (files, answer),
                Err((_, store)) => (store.close(), answer),
            }
        }
        Err((_, left)) => (left.into_files(), Err(Trouble)),
    }
}

/// Empty files.
pub fn blank(alloc: Global) -> Files<Memory> {
    Files {
        log: Memory::new(alloc),
        db: Memory::new(alloc),
    }
}

fn copy(alloc: Global, disk: &Memory) -> Result<Memory, Trouble> {
    let mut copied = Memory::new(alloc);
    copied.write_at(0, disk.bytes())?;
    copied.sync()?;
    Ok(copied)
}

fn copy_files(alloc: Global, files: &Files<Memory>) -> Result<Files<Memory>, Trouble> {
    Ok(Files {
        log: copy(alloc, &files.log)?,
        db: copy(alloc, &files.db)?,
    })
}

/// A step over files.
pub fn step(
    alloc: Global,
    files: Files<Memory>,
    words: &str,
    handed: &str,
    out: &mut String,
) -> Result<Files<Memory>, Trouble> {
    let work = Work::of(words, handed);
    let task = match work.verb {
        "stops" => {
            push_found(out, stops(alloc, &files, work)?)?;
            return Ok(files);
        }
        "stops_again" => {
            push_found(out, stops_again(alloc, &files, work)?)?;
            return Ok(files);
        }
        "init" => Task::Init(work.rest),
        "table" | "command" => Task::Look(words),
        _ => Task::Ask(work),
    };
    let (files, answer) = on_files(alloc, files, task);
    out.push_str(answer?.as_str())?;
    Ok(files)
}

/// The parts of a work, of which each is kept whole or not at all.
fn parts_of<'a>(alloc: Global, work: Work<'a>) -> Result<Vec<Work<'a>>, Trouble> {
    let mut parts = Vec::new(alloc);
    match work.verb {
        "night" => {
            let (name, ids) = parted(work.rest, ' ');
            parts.push(part("init", name, ""))?;
            push_named(&mut parts, ids)?;
        }
        "deliver" if work.rest.is_empty() => push_handed(&mut parts, work.handed)?,
        "deliver" => push_named(&mut parts, work.rest)?,
        _ => parts.push(work)?,
    }
    Ok(parts)
}

fn part<'a>(verb: &'a str, rest: &'a str, handed: &'a str) -> Work<'a> {
    Work { verb, rest, handed }
}

fn push_named<'a>(parts: &mut Vec<Work<'a>>, ids: &'a str) -> Result<(), Trouble> {
    for id in ids.split(' ') {
        parts.push(part("deliver", id, ""))?;
    }
    Ok(())
}

fn push_handed<'a>(parts: &mut Vec<Work<'a>>, handed: &'a str) -> Result<(), Trouble> {
    for command in handed.split("\n\n") {
        if !command.trim().is_empty() {
            parts.push(part("deliver", "", command))?;
        }
    }
    Ok(())
}

/// What a work leads to over these files with no stop: all twelve tables before it, and after each of its parts.
fn stages_of(alloc: Global, files: &Files<Memory>, work: Work<'_>) -> Result<Vec<String>, Trouble> {
    let (mut left, before) = on_files(alloc, copy_files(alloc, files)?, Task::Find);
    let mut stages = Vec::new(alloc);
    stages.push(before?)?;
    let parts = parts_of(alloc, work)?;
    for part in &parts {
        left = add_stage(alloc, left, *part, &mut stages)?;
    }
    Ok(stages)
}

fn add_stage(
    alloc: Global,
    files: Files<Memory>,
    part: Work<'_>,
    stages: &mut Vec<String>,
) -> Result<Files<Memory>, Trouble> {
    let (files, answer) = on_files(alloc, files, Task::Attempt(part));
    if ending(&answer).0 != "done" {
        return Err(Trouble);
    }
    let (files, after) = on_files(alloc, files, Task::Find);
    stages.push(after?)?;
    Ok(files)
}

/// Whether the disk of this name is the log's, and not the database file's.
fn is_log(disk: &str) -> Result<bool, Trouble> {
    match disk {
        "log" => Ok(true),
        "database" => Ok(false),
        _ => Err(Trouble),
    }
}

/// What was found of stops: after how many calls it isn't right.
type Stops = Option<u64>;

fn push_found(out: &mut String, found: Stops) -> Result<(), Trouble> {
    match found {
        None => Ok(push_line(out, "as acknowledged, or with the next")?),
        Some(calls) => {
            out.push_str("neither, stopped after so many calls: ")?;
            push_number(out, calls)?;
            Ok(out.push_str("\n")?)
        }
    }
}

/// `DISK STEP`: the disk stops at each call of the step in turn, and the machine crashes. `either` is the log's disk, and then the other.
fn stops(alloc: Global, files: &Files<Memory>, work: Work<'_>) -> Result<Stops, Trouble> {
    let (disk, words) = parted(work.rest, ' ');
    stops_of(alloc, files, disk, Work::of(words, work.handed))
}

fn stops_of(
    alloc: Global,
    files: &Files<Memory>,
    disk: &str,
    work: Work<'_>,
) -> Result<Stops, Trouble> {
    let stages = stages_of(alloc, files, work)?;
    if disk != "either" {
        return all_stops(alloc, files, is_log(disk)?, work, &stages);
    }
    match all_stops(alloc, files, true, work, &stages)? {
        None => all_stops(alloc, files, false, work, &stages),
        found => Ok(found),
    }
}

/// `DISK CALLS DISK STEP`: the first disk stops after none, so many, twice as many calls of the step and so on, the machine crashes, and each
/// time the second disk stops at each call of the step made again.
fn stops_again(alloc: Global, files: &Files<Memory>, work: Work<'_>) -> Result<Stops, Trouble> {
    let (first, rest) = parted(work.rest, ' ');
    let (apart, rest) = parted(rest, ' ');
    let (second, words) = parted(rest, ' ');
    let (is_log, apart) = (is_log(first)?, number(apart)?);
    let work = Work::of(words, work.handed);
    let mut calls = 0;
    for _ in 0..CALLS_MAX {
        let (left, is_stopped) = left_by(alloc, files, is_log, calls, work)?;
        let found = stops_of(alloc, &left, second, work)?;
        if found.is_some() || !is_stopped {
            return Ok(found);
        }
        calls = calls.saturating_add(apart);
    }
    Ok(Some(CALLS_MAX))
}

/// What a crash leaves of a work on files of which one stops after so many calls, on disks that don't stop, and whether it stopped.
fn left_by(
    alloc: Global,
    files: &Files<Memory>,
    is_log: bool,
    calls: u64,
    work: Work<'_>,
) -> Result<(Files<Memory>, bool), Trouble> {
    let fused = fused(copy_files(alloc, files)?, is_log, calls);
    let (mut files, _) = on_files(alloc, fused, Task::Attempt(work));
    let is_stopped = has_stopped(&mut files);
    let files = crashed(files);
    let left = Files {
        log: copy(alloc, files.log.inner())?,
        db: copy(alloc, files.db.inner())?,
    };
    Ok((left, is_stopped))
}

/// More calls than any step makes.
const CALLS_MAX: u64 = 10_000;

/// Stops after more and more calls, up to a run that isn't stopped.
fn all_stops(
    alloc: Global,
    files: &Files<Memory>,
    is_log: bool,
    work: Work<'_>,
    stages: &[String],
) -> Result<Stops, Trouble> {
    for calls in 0..CALLS_MAX {
        let fused = fused(copy_files(alloc, files)?, is_log, calls);
        match stopped(alloc, fused, work, stages) {
            Found::Wrong => return Ok(Some(calls)),
            Found::Whole => return Ok(None),
            Found::Right => {}
        }
    }
    Ok(Some(CALLS_MAX))
}

/// What was found after a stop and a crash.
#[derive(Clone, Copy, PartialEq, Eq)]
enum Found {
    /// It isn't what the answer allows.
    Wrong,
    /// It is, and the disk had stopped.
    Right,
    /// It is what the work leads to, and the disk had not stopped.
    Whole,
}

fn fused(files: Files<Memory>, is_log: bool, calls: u64) -> Files<Fuse<Memory>> {
    let (log, db) = if is_log {
        (calls, u64::MAX)
    } else {
        (u64::MAX, calls)
    };
    Files {
        log: Fuse::new(files.log, log),
        db: Fuse::new(files.db, db),
    }
}

/// Tries the work on disks of which one may stop, and looks at what a crash leaves.
fn stopped<D: Crash + Drop>(
    alloc: Global,
    files: Files<D>,
    work: Work<'_>,
    stages: &[String],
) -> Found {
    let (mut files, answer) = on_files(alloc, files, Task::Attempt(work));
    let is_stopped = has_stopped(&mut files);
    let (word, acknowledged) = ending(&answer);
    let left = Left {
        stages,
        acknowledged,
    };
    let (_, found) = on_files(alloc, crashed(files), Task::Recover(work, left));
    match (word, is_stopped, is_text(&found, "right")) {
        ("done" | "stopped", true, true) => Found::Right,
        ("done", false, true) => Found::Whole,
        _ => Found::Wrong,
    }
}

fn crashed<D: Crash>(mut files: Files<D>) -> Files<D> {
    files.log.crash();
    files.db.crash();
    files
}

/// Whether a call on the disk fails.
fn fails<D: Disk>(disk: &mut D) -> bool {
    !disk.may_be_used() || disk.len().is_err()
}

fn has_stopped<D: Disk>(files: &mut Files<D>) -> bool {
    fails(&mut files.log) || fails(&mut files.db)
}

/// `POLICY KIND ID`: what a command is answered that is sent again after a crash, and how much the warehouse holds then.
pub fn redelivered(
    alloc: Global,
    words: &str,
    handed: &str,
    out: &mut String,
) -> Result<(), Trouble> {
    let (name, words) = parted(words, ' ');
    let command = command_of(alloc, words, handed)?;
    over_a_crash(alloc, blank(alloc), name, &command, out)
}

fn over_a_crash<D: Crash + Drop>(
    alloc: Global,
    files: Files<D>,
    name: &str,
    command: &Command,
    out: &mut String,
) -> Result<(), Trouble> {
    match made_over(alloc, files, name) {
        Ok(engine) => push_again(
            alloc,
            redeliver(alloc, engine, command, Options::new(1)),
            out,
        ),
        Err(trouble) => Err(trouble),
    }
}

/// A warehouse that is made in blank files.
fn made_over<D: Crash + Drop>(
    alloc: Global,
    files: Files<D>,
    name: &str,
) -> Result<Engine<FileStore<D>>, Trouble> {
    if !files.may_be_used() {
        return Err(Trouble);
    }
    match Connection::open_files(alloc, files, Options::new(1)) {
        Ok(conn) => match initiated(alloc, conn, name, Limits::greatest()) {
            Ok(engine) => Ok(engine),
            Err(_) => Err(Trouble),
        },
        Err(_) => Err(Trouble),
    }
}

/// The answer to a command that was sent again, and the counts.
fn push_again<S: Alter + Drop, E: Drop>(
    alloc: Global,
    again: Result<(Result<Reply, Fault>, Engine<S>), E>,
    out: &mut String,
) -> Result<(), Trouble> {
    match again {
        Ok((answer, mut engine)) => {
            push_answer(out, answer)?;
            counts(alloc, &mut engine, out)
        }
        Err(_) => Err(Trouble),
    }
}

/// `POLICY`: what commands are answered that are delivered, and what those are that weren't acknowledged when they are delivered after a crash,
/// and how much the warehouse holds then.
pub fn delivered_again(
    alloc: Global,
    name: &str,
    handed: &str,
    out: &mut String,
) -> Result<(), Trouble> {
    let commands = commands_of(alloc, "", handed)?;
    delivered_over_a_crash(alloc, blank(alloc), name, &commands, out)
}

fn delivered_over_a_crash<D: Crash + Drop>(
    alloc: Global,
    files: Files<D>,
    name: &str,
    commands: &[Command],
    out: &mut String,
) -> Result<(), Trouble> {
    match made_over(alloc, files, name) {
        Ok(engine) => push_both(
            alloc,
            deliver_again(alloc, engine, commands, Options::new(1)),
            out,
        ),
        Err(trouble) => Err(trouble),
    }
}

/// The answers of both deliveries, and the counts.
fn push_both<S: Alter + Drop, E: Drop>(
    alloc: Global,
    again: Result<(Replies, Replies, Engine<S>), E>,
    out: &mut String,
) -> Result<(), Trouble> {
    match again {
        Ok((first, second, mut engine)) => {
            push_replies(out, &first)?;
            push_line(out, "after the crash")?;
            push_replies(out, &second)?;
            counts(alloc, &mut engine, out)
        }
        Err(_) => Err(Trouble),
    }
}
