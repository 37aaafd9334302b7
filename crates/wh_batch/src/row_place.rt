//! Where rows stand in a file.

ghost use Rattle.std.specs.Prelude.{◌≡◌, ◌≤◌, length, slice_range, map, take, IfOk};
ghost use Rattle.csv.specs.Reading.{records, default_config, strip_bom};
ghost use Rattle.csv.specs.Records.{fields_of};
ghost use Rattle.wh_batch.specs.Lines.{line_ends, ends_line};

use crate::rows::Rows;
use csv::ByteRecord;
use std::alloc::{AllocError, Global};

/// Where a row stands in a file. No contract says where: the CSV reader tells it.
#[derive(Clone, Copy, Debug, Drop)]
pub struct RowPlace {
    /// How many bytes come before it.
    pub start: usize,
    /// How many come before what ends it.
    pub end: usize,
    /// How many fields it has.
    pub fields: usize,
}

impl RowPlace {
    /// The place of what is in no row.
    pub(crate) fn of_none() -> RowPlace {
        RowPlace {
            start: 0,
            end: 0,
            fields: 0,
        }
    }

    /// The bytes of the row in its file.
    pub fn bytes_in<'a>(&self, file: &'a [u8]) -> &'a [u8]
        ensures { self.now.start ≤ self.now.end → self.now.end ≤ length file.now → result.now ≡ slice_range file.now self.now.start self.now.end }
    {
        let end = self.end.min(file.len());
        &file[self.start.min(end)..end]
    }
}

/// Whether a byte ends a line, behind another one. CR and the LF behind it end one line.
fn ends_line(previous: u8, byte: u8) -> bool
    ensures { result ≡ ends_line previous byte }
{
    byte == b'\r' || (byte == b'\n' && previous != b'\r')
}

/// How many lines of a file end within so many bytes. LF, CR, and CR with LF end a line.
pub fn lines_above(file: &[u8], start: usize) -> usize
    ensures { result ≡ line_ends 0 (take start file.now) }
{
    let before = &file[..start.min(file.len())];
    let mut ended: usize = 0;
    let mut previous = 0;
    for byte in before {
        if ends_line(previous, *byte) {
            ended += 1;
        }
        previous = *byte;
    }
    ended
}

/// Where the next row begins from here on: behind what is left of the line above, and behind empty lines.
fn behind_line_ends(file: &[u8], from: usize) -> usize {
    for place in from..file.len() {
        if !matches!(file[place], b'\n' | b'\r') {
            return place;
        }
    }
    file.len()
}

/// Where a row begins. The reader stood behind the row above; at first before a byte order mark.
fn start_of(file: &[u8], row: &ByteRecord) -> usize {
    let from = match row.position() {
        Some(position) => position.byte as usize,
        None => file.len(),
    };
    match file {
        [0xEF, 0xBB, 0xBF, ..] if from == 0 => behind_line_ends(file, 3),
        _ => behind_line_ends(file, from),
    }
}

/// Where a row ends, behind which the reader stands: before the line end that it took.
fn end_of(file: &[u8], rows: &Rows) -> usize {
    let end = rows.read_so_far().min(file.len());
    match &file[..end] {
        [.., b'\n' | b'\r'] => end - 1,
        _ => end,
    }
}

/// Where the row stands that was read last.
pub(crate) fn place_of_row(file: &[u8], rows: &Rows, row: &ByteRecord) -> RowPlace
    ensures { result.fields ≡ length (fields_of row.now) }
{
    RowPlace {
        start: start_of(file, row),
        end: end_of(file, rows),
        fields: row.len(),
    }
}

/// Where the rows of a file stand, with its header. The error comes where a growth was refused, or where the CSV reader gave up.
pub fn row_places(alloc: Global, file: &[u8]) -> Result<Vec<RowPlace>, AllocError>
    ensures { IfOk result (λ places. map (λ p. p.fields) places.items ≡ map length (records default_config (strip_bom file.now))) }
{
    let mut rows = Rows::new(alloc, file);
    let mut row = ByteRecord::new(alloc);
    let mut places = Vec::new(alloc);
    'rows: for _ in 0..u64::MAX {
        if !rows.next(&mut row)? {
            return Ok(places);
        }
        places.push(place_of_row(file, &rows, &row))?;
    }
    Err(AllocError)
}
