//! Where the lines of a session come from.

ghost use Rattle.std.specs.Prelude.{◌≡◌, ◌++◌, ◌∷◌, [], ℕ, suc, List, Option, Some, None, IfOk, OnOk, option_map, take};
ghost use Rattle.wh_words.specs.Line.{lines_of};
ghost use Rattle.wh_session.specs.Line.{IsNext, IsNextByte, last_line};

use std::alloc::Global;
use std::io;
use std::io::Read;
use wh_program::HostError;

/// What a session reads.
pub trait Console {
    /// The lines that are still to come, each without its end. A console that says nothing of them has `None`.
    ghost hears: { Self → Option (List (List ℕ)) } = { λ _. None };

    /// The next line without its end, up to `most` bytes; of a longer one a byte more, and the others are passed over. `None` is the end of
    /// the input.
    fn next_line(&mut self, alloc: Global, most: usize) -> Result<Option<Vec<u8>>, HostError>
        ensures { IfOk result (λ line. (lines : List (List ℕ)) → hears self.old ≡ Some lines → IsNext most lines (option_map (λ bytes. bytes.items) line) (hears self.new)) };
}

/// A console that reads a reader's bytes one by one, and keeps no more of them than the line that it hands out.
#[derive(Drop)]
pub struct ReaderConsole<R: Read> {
    reader: R,
}

impl<R: Read> ReaderConsole<R> {
    pub fn new(reader: R) -> ReaderConsole<R>
        ensures { ⟦<ReaderConsole<R> as Console>⟧.hears result ≡ option_map lines_of (R.remaining reader) }
    {
        ReaderConsole { reader }
    }
}

/// The next byte, if there is one.
fn next_byte<R: Read>(reader: &mut R) -> Result<Option<u8>, HostError>
    ensures { IfOk result (λ found. (bytes : List ℕ) → R.remaining reader.old ≡ Some bytes → IsNextByte bytes found (R.remaining reader.new)) }
{
    let mut byte = [0];
    match reader.read(&mut byte) {
        Ok(0) => Ok(None),
        Ok(_) => Ok(Some(byte[0])),
        Err(error) => Err(of_io(error)),
    }
}

/// Why no byte was read.
fn of_io(error: io::Error) -> HostError {
    match error.kind() {
        io::ErrorKind::OutOfMemory => HostError::Memory,
        _ => HostError::NoFile,
    }
}

/// Adds a byte to a line, of which `most` bytes and one are kept.
fn add_byte(line: &mut Vec<u8>, byte: u8, most: usize) -> Result<(), HostError>
    ensures { OnOk result ((whole : List ℕ) → line.old.items ≡ take (suc most) whole → line.new.items ≡ take (suc most) (whole ++ byte ∷ [])) }
{
    if line.len() > most {
        return Ok(());
    }
    match line.push(byte) {
        Ok(()) => Ok(()),
        Err(_) => Err(HostError::Memory),
    }
}

/// The last line, if the input doesn't end with the one before.
fn last_line(line: Vec<u8>) -> Option<Vec<u8>>
    ensures { option_map (λ bytes. bytes.items) result ≡ last_line line.items }
{
    if line.is_empty() {
        return None;
    }
    Some(line)
}

impl<R: Read> Console for ReaderConsole<R> {
    ghost hears = { λ console. option_map lines_of (R.remaining console.reader) };

    fn next_line(&mut self, alloc: Global, most: usize) -> Result<Option<Vec<u8>>, HostError> {
        let mut line = Vec::new(alloc);
        'bytes: for _ in 0..u64::MAX {
            match next_byte(&mut self.reader)? {
                Some(b'\n') => return Ok(Some(line)),
                Some(byte) => add_byte(&mut line, byte, most)?,
                None => return Ok(last_line(line)),
            }
        }
        Err(HostError::NoFile)
    }
}
