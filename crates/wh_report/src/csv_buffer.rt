//! The lines of a part of a table, gathered to go out together.

ghost use Rattle.std.specs.Prelude.{◌≡◌, ◌++◌, [], ℕ, List, IfOk, IfErr, OnOk, OnErr};
ghost use Rattle.csv.specs.Records.{fields_of};
ghost use Rattle.csv.specs.Writing.{default_writer, row_text, writer_under};
ghost use Rattle.wh_report.specs.Dump.{header_line, row_line};
ghost use Rattle.wh_report.specs.Output.{IsOutWhole, IsOutBefore, IsOfNoTable, of_warehouse};
ghost use Rattle.wh_report.specs.CsvBuffer.{AreMade, Gathers};

use crate::fields::{column_names, put_row};
use crate::output::{ReportFault, write_whole};
use csv::{ByteRecord, StringRecord, Writer, WriterBuilder};
use std::alloc::{AllocError, Global};
use std::io::Write;
use std::mem;
use wh_engine::Fault;
use wh_store::KeyedTable;

/// How many bytes of lines go out together.
const FULL: usize = 24 * 1024;

/// Lines that are gathered, and the fields of the last of them. The lines that are whole are kept apart from the writer that
/// makes them, since one for which memory ran out may leave a piece there.
#[derive(Drop)]
pub struct CsvBuffer {
    fields: ByteRecord,
    made: Writer<Vec<u8>>,
    lines: Vec<u8>,
}

/// Makes the line of these fields, after those that were made. Over a buffer in memory `csv` fails only where memory runs out.
fn gather_line(made: &mut Writer<Vec<u8>>, fields: &ByteRecord) -> Result<(), AllocError>
    ensures { OnOk result ((text : List ℕ) → AreMade made.old text → AreMade made.new (text ++ row_text default_writer (fields_of fields.now))) }
{
    match made.write_byte_record(fields) {
        Ok(()) => Ok(()),
        Err(_) => Err(AllocError),
    }
}

/// Has all that was made stand underneath.
#[tactic(auto, using(crate::proofs::Parts::flushed))]
fn flush_lines(made: &mut Writer<Vec<u8>>) -> Result<(), AllocError>
    ensures { OnOk result ((text : List ℕ) → AreMade made.old text → AreMade made.new text × ((writer_under made.new).items ≡ text)) }
{
    match made.flush() {
        Ok(()) => Ok(()),
        Err(_) => Err(AllocError),
    }
}

/// Adds what was made after these lines, with which it begins.
fn catch_up(lines: &mut Vec<u8>, made: &[u8]) -> Result<(), AllocError>
    ensures caught { OnOk result ((line : List ℕ) → made.now ≡ lines.old.items ++ line → lines.new.items ≡ made.now) }
    ensures kept { OnErr result (lines.new.items ≡ lines.old.items) }
{
    if made.len() < lines.len() {
        return Ok(());
    }
    lines.extend_from_slice(&made[lines.len()..])
}

impl CsvBuffer {
    /// No line yet.
    pub fn new(alloc: Global) -> CsvBuffer
        ensures { Gathers result [] }
    {
        CsvBuffer {
            fields: ByteRecord::new(alloc),
            made: WriterBuilder::new().from_writer(Vec::new(alloc)),
            lines: Vec::new(alloc),
        }
    }

    /// Adds the line of the fields. Where memory runs out for it, those before are there still.
    fn add(&mut self) -> Result<(), AllocError>
        ensures added { OnOk result ((text : List ℕ) → Gathers self.old text → Gathers self.new (text ++ row_text default_writer (fields_of self.old.fields))) }
        ensures kept { OnErr result (self.new.lines.items ≡ self.old.lines.items) }
    {
        gather_line(&mut self.made, &self.fields)?;
        flush_lines(&mut self.made)?;
        catch_up(&mut self.lines, self.made.get_ref())
    }

    /// Adds the line of these fields.
    pub fn add_fields(&mut self, fields: StringRecord) -> Result<(), AllocError>
        ensures { OnOk result ((text : List ℕ) → Gathers self.old text → Gathers self.new (text ++ row_text default_writer (fields_of fields))) }
    {
        self.fields = fields.into_byte_record();
        self.add()
    }

    /// Adds the line of the columns' names.
    pub(crate) fn add_names<T: KeyedTable>(&mut self, alloc: Global) -> Result<(), AllocError>
        ensures { OnOk result ((text : List ℕ) → Gathers self.old text → Gathers self.new (text ++ header_line T.layout)) }
    {
        self.fields = column_names::<T>(alloc)?;
        self.add()
    }

    /// Adds the line of a row. Where memory runs out for it, those before are there still.
    pub(crate) fn add_row<T: KeyedTable>(
        &mut self,
        alloc: Global,
        row: &T::Row,
    ) -> Result<(), AllocError>
        ensures added { OnOk result ((text : List ℕ) → Gathers self.old text → Gathers self.new (text ++ row_line T.layout row.now)) }
        ensures kept { OnErr result (self.new.lines.items ≡ self.old.lines.items) }
    {
        put_row::<T>(alloc, row, &mut self.fields)?;
        self.add()
    }

    /// Whether the lines are many enough to go out.
    pub(crate) fn is_full(&self) -> bool {
        self.lines.len() >= FULL
    }

    /// The lines.
    pub fn into_lines(self) -> Vec<u8>
        ensures { (text : List ℕ) → Gathers self text → result.items ≡ text }
    {
        let CsvBuffer {
            fields: _,
            made: _,
            lines,
        } = self;
        lines
    }

    /// Forgets the lines, and keeps their memory.
    fn begin_anew(&mut self, alloc: Global)
        ensures { Gathers self.new [] }
    {
        self.lines.clear();
        let none = WriterBuilder::new().from_writer(Vec::new(alloc));
        if let Ok(mut made) = mem::replace(&mut self.made, none).into_inner() {
            made.clear();
            self.made = WriterBuilder::new().from_writer(made);
        }
    }

    /// Writes the lines out. The next are gathered in the same memory.
    pub(crate) fn go_out<W: Write>(&mut self, alloc: Global, out: &mut W) -> Result<(), ReportFault>
        ensures out { IsOutWhole result (W.contents out.old) (W.contents out.new) self.old.lines.items }
        ensures anew { OnOk result (Gathers self.new []) }
        ensures kinds { IfErr result IsOfNoTable }
    {
        write_whole(out, &self.lines)?;
        self.begin_anew(alloc);
        Ok(())
    }

    /// Writes the lines out before a fault of the warehouse is answered, and answers that one, also where the writer fails.
    pub(crate) fn go_out_before<W: Write>(&self, out: &mut W, fault: Fault) -> ReportFault
        ensures { IsOutBefore fault result (W.contents out.old) (W.contents out.new) self.now.lines.items }
    {
        match write_whole(out, &self.lines) {
            Ok(()) => ReportFault::Warehouse(fault),
            Err(_) => ReportFault::Unwritten(fault),
        }
    }
}
