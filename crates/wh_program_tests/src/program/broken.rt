//! Runs on pages that fail.

use crate::program::page::{Page, ROOM};
use crate::program::printed::{push_ended, push_unsaid, text_of};
use crate::program::runs::{on_page, words_of};
use std::alloc::Global;
use wh_memory_host::MemoryHost;
use wh_scenarios::{NotMade, number, parted, push_line, push_number};

/// `breaks BYTES WORDS`.
pub fn breaks(
    alloc: Global,
    host: &mut MemoryHost,
    rest: &str,
    out: &mut String,
) -> Result<(), NotMade> {
    let (bytes, line) = parted(rest, ' ');
    let bytes = number(bytes)? as usize;
    let words = words_of(alloc, line, "")?;
    let mut whole = Page::new(bytes, ROOM, ROOM);
    let status = on_page(alloc, host, &words, &mut whole);
    push_unsaid(out, text_of(whole.text()), status)?;
    push_number(out, whole.calls() as u64)?;
    out.push_str(" calls\n")?;
    let broken = Broken {
        words: &words,
        bytes,
        whole: whole.text(),
    };
    Ok(push_line(out, broken.each(alloc, host, whole.calls()))?)
}

/// A page that takes so many bytes a call, and fails from a call to before another, and the words behind these three numbers.
fn failing_page(text: &str) -> Result<(Page, &str), NotMade> {
    let (bytes, rest) = parted(text, ' ');
    let (from, rest) = parted(rest, ' ');
    let (to, words) = parted(rest, ' ');
    let bytes = number(bytes)? as usize;
    let from = number(from)? as usize;
    let to = number(to)? as usize;
    Ok((Page::new(bytes, from, to), words))
}

/// `fails BYTES FROM TO WORDS`.
pub fn fails(
    alloc: Global,
    host: &mut MemoryHost,
    rest: &str,
    out: &mut String,
) -> Result<(), NotMade> {
    let (mut page, line) = failing_page(rest)?;
    let words = words_of(alloc, line, "")?;
    let status = on_page(alloc, host, &words, &mut page);
    Ok(push_ended(out, text_of(page.text()), status)?)
}

/// A run on a page that fails at some call.
#[derive(Clone, Copy)]
struct Broken<'a> {
    words: &'a [&'a str],
    /// How many bytes a call takes.
    bytes: usize,
    /// What is written where no call fails.
    whole: &'a [u8],
}

impl Broken<'_> {
    /// What is written where a call fails, and all after it or none.
    fn each(&self, alloc: Global, host: &mut MemoryHost, calls: usize) -> &'static str {
        for call in 0..calls {
            if !self.leaves(alloc, host, (call, ROOM), b"") {
                return "no beginning is left";
            }
            let end = call.saturating_add(1);
            if !self.leaves(alloc, host, (call, end), b"failed: G4 write\n") {
                return "no line of the failure is written after a beginning";
            }
        }
        "a beginning, and then failed: G4 write where it can be written, status 3"
    }

    /// Whether a run whose page fails at these calls ends with 3, and leaves what was written before them and this line.
    fn leaves(
        &self,
        alloc: Global,
        host: &mut MemoryHost,
        (from, to): (usize, usize),
        line: &[u8],
    ) -> bool {
        let mut page = Page::new(self.bytes, from, to);
        let status = on_page(alloc, host, self.words, &mut page);
        let kept = from.saturating_mul(self.bytes);
        status == 3 && is_beginning_and(page.text(), kept, self.whole, line)
    }
}

/// Whether a text is so many bytes of another, and then a line.
fn is_beginning_and(text: &[u8], kept: usize, whole: &[u8], line: &[u8]) -> bool {
    kept <= text.len()
        && kept <= whole.len()
        && text[..kept] == whole[..kept]
        && &text[kept..] == line
}
