//! Runs of the program.

use crate::program::host::alter;
use crate::program::page::Page;
use crate::program::printed::{
    push_columns, push_ended, push_other, push_status, push_unsaid, text_of, without_title,
};
use std::alloc::{AllocError, Global};
use wh_memory_host::MemoryHost;
use wh_program::run;
use wh_scenarios::{NotMade, number, parted, push_line, push_number};
use wh_session::ReaderConsole;

/// Adds the words before and between such signs.
fn push_words<'a>(found: &mut Vec<&'a str>, words: &'a str, sign: char) -> Result<(), AllocError> {
    for word in words.split_terminator(sign) {
        found.push(word)?;
    }
    Ok(())
}

/// The words of a run: those of a line, parted by blanks, and then those of the lines that are handed, each a word.
pub fn words_of<'a>(
    alloc: Global,
    line: &'a str,
    handed: &'a str,
) -> Result<Vec<&'a str>, AllocError> {
    let mut found = Vec::new(alloc);
    push_words(&mut found, line, ' ')?;
    push_words(&mut found, handed, '\n')?;
    Ok(found)
}

/// The status of a run over a host, and what it printed. This and `on_page` alone call `run`, so that no other proof carries its clauses.
fn run_on(alloc: Global, host: &mut MemoryHost, words: &[&str]) -> (u8, Vec<u8>) {
    let mut printed = Vec::new(alloc);
    let status = run(alloc, words, host, &mut printed);
    (status, printed)
}

/// The status of a run that prints on a page.
pub fn on_page(alloc: Global, host: &mut MemoryHost, words: &[&str], page: &mut Page) -> u8 {
    run(alloc, words, host, page)
}

fn push_run(
    alloc: Global,
    host: &mut MemoryHost,
    words: &[&str],
    out: &mut String,
) -> Result<(), AllocError> {
    let (status, printed) = run_on(alloc, host, words);
    push_ended(out, text_of(&printed), status)?;
    push_unclean(alloc, host, words, status, out)
}

/// `run WORDS`.
pub fn run_step(
    alloc: Global,
    host: &mut MemoryHost,
    line: &str,
    handed: &str,
    out: &mut String,
) -> Result<(), NotMade> {
    let words = words_of(alloc, line, handed)?;
    Ok(push_run(alloc, host, &words, out)?)
}

/// What a run answers that has words of a line and then of another.
fn answer_to(
    alloc: Global,
    host: &mut MemoryHost,
    line: &str,
    further: &str,
) -> Result<String, AllocError> {
    let mut words = words_of(alloc, line, "")?;
    push_words(&mut words, further, ' ')?;
    let mut answer = String::new(alloc);
    push_run(alloc, host, &words, &mut answer)?;
    Ok(answer)
}

/// `each WORDS`.
pub fn each(
    alloc: Global,
    host: &mut MemoryHost,
    line: &str,
    handed: &str,
    out: &mut String,
) -> Result<(), NotMade> {
    let (first, others) = parted(handed, '\n');
    let common = answer_to(alloc, host, line, first)?;
    out.push_str(common.as_str())?;
    for further in others.lines() {
        let answer = answer_to(alloc, host, line, further)?;
        push_other(out, common.as_str(), further, answer.as_str())?;
    }
    Ok(())
}

/// The status of a session over a host that reads these lines, and what it printed.
fn session_on(alloc: Global, host: &mut MemoryHost, words: &[&str], lines: &str) -> (u8, Vec<u8>) {
    let mut printed = Vec::new(alloc);
    let mut console = ReaderConsole::new(lines.as_bytes());
    let status = wh_session::run(alloc, words, host, &mut console, &mut printed);
    (status, printed)
}

/// `session FILE`.
pub fn session(
    alloc: Global,
    host: &mut MemoryHost,
    file: &str,
    handed: &str,
    out: &mut String,
) -> Result<(), NotMade> {
    let (status, printed) = session_on(alloc, host, &["session", file], handed);
    Ok(push_ended(out, text_of(&printed), status)?)
}

/// The file of a warehouse that such words write to.
fn written_file<'a>(words: &[&'a str]) -> Option<&'a str> {
    match words {
        ["init" | "load" | "migrate" | "deliver", file, ..] => Some(*file),
        _ => None,
    }
}

/// What a check prints of a warehouse that was written to, where it isn't clean.
fn push_unclean(
    alloc: Global,
    host: &mut MemoryHost,
    words: &[&str],
    status: u8,
    out: &mut String,
) -> Result<(), AllocError> {
    match written_file(words) {
        Some(file) if status == 0 => push_unclean_file(alloc, host, file, out),
        _ => Ok(()),
    }
}

fn push_unclean_file(
    alloc: Global,
    host: &mut MemoryHost,
    file: &str,
    out: &mut String,
) -> Result<(), AllocError> {
    let (_, printed) = run_on(alloc, host, &["check", file]);
    match text_of(&printed) {
        "clean\n" => Ok(()),
        text => out.push_str(text),
    }
}

/// `lines WORDS`.
pub fn lines(
    alloc: Global,
    host: &mut MemoryHost,
    line: &str,
    handed: &str,
    out: &mut String,
) -> Result<(), NotMade> {
    let words = words_of(alloc, line, handed)?;
    let (status, printed) = run_on(alloc, host, &words);
    let count = printed.iter().filter(|byte| **byte == b'\n').count();
    push_number(out, count as u64)?;
    out.push_str(" lines\n")?;
    Ok(push_unsaid(out, text_of(&printed), status)?)
}

/// `ends STATUS WORDS`.
pub fn ends(
    alloc: Global,
    host: &mut MemoryHost,
    line: &str,
    handed: &str,
    out: &mut String,
) -> Result<(), NotMade> {
    let (wanted, line) = parted(line, ' ');
    let words = words_of(alloc, line, handed)?;
    let (status, printed) = run_on(alloc, host, &words);
    if printed.is_empty() {
        push_line(out, "nothing")?;
    }
    if number(wanted)? != status as u64 {
        push_status(out, status)?;
    }
    Ok(push_unclean(alloc, host, &words, status, out)?)
}

/// `report NAME WORDS`.
pub fn report(
    alloc: Global,
    host: &mut MemoryHost,
    line: &str,
    out: &mut String,
) -> Result<(), NotMade> {
    let (name, asked) = parted(line, ' ');
    let mut words = words_of(alloc, "report", name)?;
    push_words(&mut words, asked, ' ')?;
    let (status, printed) = run_on(alloc, host, &words);
    Ok(push_ended(out, without_title(text_of(&printed), asked), status)?)
}

/// `table NAME TABLE COLUMN..`.
pub fn table(
    alloc: Global,
    host: &mut MemoryHost,
    line: &str,
    out: &mut String,
) -> Result<(), NotMade> {
    let (name, rest) = parted(line, ' ');
    let (table, columns) = parted(rest, ' ');
    let (status, printed) = run_on(alloc, host, &["dump", name, table]);
    push_columns(out, text_of(&printed), columns)?;
    Ok(push_unsaid(out, text_of(&printed), status)?)
}

/// `changed NAME TEXT`.
pub fn changed(
    alloc: Global,
    host: &mut MemoryHost,
    line: &str,
    handed: &str,
    out: &mut String,
) -> Result<(), NotMade> {
    let (name, text) = parted(line, ' ');
    alter(alloc, host, name, text)?;
    push_run(alloc, host, &["check", name], out)?;
    alter(alloc, host, name, parted(handed, '\n').0)
}
