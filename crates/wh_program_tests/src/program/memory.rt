//! Runs of which a call for memory may be refused. The steps of a scenario call for memory themselves, so these are plain tests, on a page
//! that calls for none.

use crate::program::page::{Page, ROOM};
use crate::program::runs::on_page;
use std::alloc::{AllocError, Global};
use std::process::Abort;
use std::test::Fail;
use wh_memory_host::MemoryHost;
use wh_scenarios::FLAT;

const COLA: &str =
    "id,day,description,brand\nP1,2024-01-10,Cola 1l,Acme\nP1,2024-02-01,Cola 1.0l,Bolt\n";

fn host(alloc: Global) -> Result<MemoryHost, AllocError> {
    let mut host = MemoryHost::new(alloc);
    host.write(alloc, "p.csv", Vec::from_slice(alloc, COLA.as_bytes())?)?;
    host.write(alloc, "flat.toml", Vec::from_slice(alloc, FLAT.as_bytes())?)?;
    Ok(host)
}

fn is_one_of(text: &[u8], lines: &[&str]) -> bool {
    for line in lines {
        if line.as_bytes() == text {
            return true;
        }
    }
    false
}

/// Fails where a run ends otherwise than with a text that begins so, or with one of the lines of a run that is out of memory.
fn expect_done_or_short(
    rt: &impl Abort,
    alloc: Global,
    words: &[&str],
    beginning: &str,
    lines: &[&str],
) {
    let Ok(mut host) = host(alloc) else {
        return;
    };
    let mut page = Page::new(ROOM, ROOM, ROOM);
    let status = on_page(alloc, &mut host, words, &mut page);
    let text = page.text();
    let is_done = status == 0 && text.starts_with(beginning.as_bytes());
    let is_short = status == 3 && is_one_of(text, lines);
    assert!(rt; is_done || is_short, "{status}");
}

/// Where an allocation is refused the answer is that of ample memory, or that memory ran out.
#[test]
fn tells_want_of_memory(rt: HostRuntime) {
    expect_done_or_short(
        &rt,
        rt.alloc(),
        &["trial", "product", "p.csv"],
        "surrogate,durable,natural,from_day,to_day,is_current,a1,a2,a3,a4,a5,a6,b1,b2,b3,b4,b5,b6,profile_now\n",
        &["failed: E8 memory\n"],
    );
}

/// A making answers as with ample memory, or that memory ran out.
#[test]
fn tells_want_of_memory_in_a_making(rt: HostRuntime) {
    expect_done_or_short(
        &rt,
        rt.alloc(),
        &["init", "w", "flat.toml"],
        "accepted 1 init: 0 records, 0 placeholders\n",
        &["failed: E8 memory\n", "failed: E9 store, memory\n"],
    );
}
