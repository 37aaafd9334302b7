//! A page in memory that may fail.

ghost use Rattle.std.specs.Prelude.{◌≤◌, Some, take};

use std::io;
use std::io::Write;

/// The room of a page.
pub const ROOM: usize = 2048;

/// A writer into a page in memory, which allocates nothing. It takes up to `step` bytes a call. The calls from
/// number `fails_from` to before `fails_to` fail, where the first call has the number 0.
#[derive(Drop)]
pub struct Page {
    bytes: [u8; ROOM],
    len: usize,
    step: usize,
    calls: usize,
    fails_from: usize,
    fails_to: usize,
    ghost in_room: { len ≤ 2048 },
}

impl Page {
    pub fn new(step: usize, fails_from: usize, fails_to: usize) -> Page {
        Page {
            bytes: [0; ROOM],
            len: 0,
            step,
            calls: 0,
            fails_from,
            fails_to,
        }
    }

    pub fn text(&self) -> &[u8] {
        &self.bytes[..self.len]
    }

    pub fn calls(&self) -> usize {
        self.calls
    }
}

impl Write for Page {
    ghost contents = { λ page. Some (take page.len page.bytes) };

    fn write(&mut self, buf: &[u8]) -> io::Result<usize> {
        let call = self.calls;
        self.calls = call.saturating_add(1);
        if self.fails_from <= call && call < self.fails_to {
            return Err(io::Error::from(io::ErrorKind::BrokenPipe));
        }
        let count = buf.len().min(self.step).min(ROOM - self.len);
        let end = self.len + count;
        self.bytes[self.len..end].copy_from_slice(&buf[..count]);
        self.len = end;
        Ok(count)
    }

    fn flush(&mut self) -> io::Result<()> {
        Ok(())
    }
}
