//! Writing the text of a table out, as its rows are handed out.

ghost use Rattle.std.specs.Prelude.{◌≡◌, ℕ, List, Err, false, IsTrue, IfErr};
ghost use Rattle.std.specs.FinMap.{values};
ghost use Rattle.wh_engine.specs.Scanned.{ReadsThrough};
ghost use Rattle.wh_sql.specs.Answers.{SaysInFormat, SaysAsStoredIn, state_of};
ghost use Rattle.wh_report.specs.Dump.{header_line, row_line, table_lines, lines_of_table};
ghost use Rattle.wh_report.specs.Dumped.{IsDumpOf, DumpsStored};
ghost use Rattle.wh_report.specs.Output.{IsOutInLines, IsOfDump, IsOfNoTable, of_warehouse};
ghost use Rattle.wh_report.specs.CsvBuffer.{Gathers, IsOutOrGathered};
ghost use Rattle.wh_engine.specs.declared.fault.Fault.TheVariants as faults;
ghost use Rattle.wh_report.specs.declared.output.ReportFault.TheVariants as report;

use crate::csv_buffer::CsvBuffer;
use crate::output::ReportFault;
use sqlite::Alter;
use std::alloc::{AllocError, Global};
use std::io::Write;
use wh_engine::{Engine, Fault};
use wh_rows::Table;
use wh_sql::{TableVisitor, for_table};
use wh_store::{Cursor, KeyedTable, PagedTable};

/// Adds the line of a row to those that are gathered, and writes them out where they are many enough. Where memory runs out
/// for the line, those before it go out.
fn write_row<T: KeyedTable, W: Write>(
    alloc: Global,
    row: &T::Row,
    part: &mut CsvBuffer,
    out: &mut W,
) -> Result<(), ReportFault>
    ensures out { (lines : List ℕ) → Gathers part.old lines → IsOutOrGathered result part.new (W.contents out.old) (W.contents out.new) lines (row_line T.layout row.now) }
    ensures kinds { IfErr result IsOfNoTable }
{
    match part.add_row::<T>(alloc, row) {
        Ok(()) if part.is_full() => part.go_out(alloc, out),
        Ok(()) => Ok(()),
        Err(AllocError) => Err(part.go_out_before(out, Fault::Memory)),
    }
}

/// Writes what is gathered, the line of the columns' names, and the lines of all rows. `Memory`: also where they are more than
/// can be counted.
fn write_rows<T: PagedTable, S: Alter, W: Write>(
    alloc: Global,
    engine: &mut Engine<S>,
    part: &mut CsvBuffer,
    out: &mut W,
) -> Result<(), ReportFault>
    ensures reads { ReadsThrough engine.old.session engine.new.session (state_of S.Store engine.old.tables) (state_of S.Store engine.new.tables) (of_warehouse result) }
    ensures writes { engine.new.writes ≡ engine.old.writes }
    ensures out { Gathers part.old (header_line T.StoredTable.layout) → engine.old.session.must_reopen ≡ false
        → SaysInFormat S.Store T.KeyedTable.name engine.old.session.format engine.old.tables engine.new.tables (λ t. IsOutInLines result (W.contents out.old) (W.contents out.new) (table_lines T.StoredTable.layout (values (T.StoredTable.rows t)))) }
    ensures stored { Gathers part.old (header_line T.StoredTable.layout) → engine.old.session.must_reopen ≡ false
        → SaysAsStoredIn S.Store T.KeyedTable.name engine.old.session.format engine.old.tables engine.new.tables (λ stored. IsDumpOf T.StoredTable.layout T.KeyedTable.name (stored.rows T.KeyedTable.name) result (W.contents out.old) (W.contents out.new)) }
    ensures kinds { IfErr result IsOfDump }
{
    let mut cursor = Cursor::new(alloc);
    'rows: for _ in 0..u64::MAX {
        match engine.next_row::<T>(alloc, &mut cursor) {
            Ok(Some(row)) => write_row::<T, W>(alloc, &row, part, out)?,
            Ok(None) => return part.go_out(alloc, out),
            Err(fault) => return Err(part.go_out_before(out, fault)),
        }
    }
    Err(part.go_out_before(out, Fault::Memory))
}

/// Writes the text of a table, many lines at a time. Where the writer failed a beginning of it went out. After a fault of the
/// warehouse the lines of some first rows went out, the header at least, unless memory ran out before; no clause says that
/// all rows before the fault did. Nothing went out where no row was asked for yet.
#[tactic(auto, using(crate::proofs::EngineReading::unread_memory))]
pub fn write_table<T: PagedTable, S: Alter, W: Write>(
    alloc: Global,
    engine: &mut Engine<S>,
    out: &mut W,
) -> Result<(), ReportFault>
    ensures reads { ReadsThrough engine.old.session engine.new.session (state_of S.Store engine.old.tables) (state_of S.Store engine.new.tables) (of_warehouse result) }
    ensures writes { engine.new.writes ≡ engine.old.writes }
    ensures out { SaysInFormat S.Store T.KeyedTable.name engine.old.session.format engine.old.tables engine.new.tables (λ t. IsOutInLines result (W.contents out.old) (W.contents out.new) (table_lines T.StoredTable.layout (values (T.StoredTable.rows t)))) }
    // Of any stored rows: all are of their types and went out, or those that come first by key.
    ensures stored { SaysAsStoredIn S.Store T.KeyedTable.name engine.old.session.format engine.old.tables engine.new.tables (λ stored. IsDumpOf T.StoredTable.layout T.KeyedTable.name (stored.rows T.KeyedTable.name) result (W.contents out.old) (W.contents out.new)) }
    ensures reopen { IsTrue engine.old.session.must_reopen → (result ≡ Err (report.Warehouse faults.Reopen)) × (engine.new.tables ≡ engine.old.tables) × (engine.new.session ≡ engine.old.session) × (W.contents out.new ≡ W.contents out.old) }
    ensures only { result ≡ Err (report.Warehouse faults.Reopen) → IsTrue engine.old.session.must_reopen }
    ensures kinds { IfErr result IsOfDump }
{
    if engine.must_reopen() {
        return Err(ReportFault::Warehouse(Fault::Reopen));
    }
    let mut part = CsvBuffer::new(alloc);
    part.add_names::<T>(alloc)?;
    write_rows::<T, S, W>(alloc, engine, &mut part, out)
}

/// Writes the text of a table out.
struct WritesOut;

impl<S: Alter, W: Write> TableVisitor<Engine<S>, W> for WritesOut {
    ghost use Rattle.wh_report.specs.Dumped.{IsWrittenOut};

    type Output = Result<(), ReportFault>;

    ghost promises = { λ table of _ old new out written result. IsWrittenOut S.Store table of old new (W.contents out) (W.contents written) result };

    fn visit<T: PagedTable>(
        &self,
        alloc: Global,
        engine: &mut Engine<S>,
        out: &mut W,
    ) -> Result<(), ReportFault> {
        write_table::<T, S, W>(alloc, engine, out)
    }
}

/// Writes the text of any of the tables, as `write_table` does. `Write`: the writer failed. `Warehouse`: the tables can't be read. `Unwritten`: both.
pub fn dump<S: Alter, W: Write>(
    alloc: Global,
    engine: &mut Engine<S>,
    table: Table,
    out: &mut W,
) -> Result<(), ReportFault>
    ensures reads { ReadsThrough engine.old.session engine.new.session (state_of S.Store engine.old.tables) (state_of S.Store engine.new.tables) (of_warehouse result) }
    ensures writes { engine.new.writes ≡ engine.old.writes }
    ensures out { SaysInFormat S.Store table engine.old.session.format engine.old.tables engine.new.tables (λ t. IsOutInLines result (W.contents out.old) (W.contents out.new) (lines_of_table table t)) }
    ensures stored { SaysAsStoredIn S.Store table engine.old.session.format engine.old.tables engine.new.tables (λ stored. DumpsStored table stored result (W.contents out.old) (W.contents out.new)) }
    ensures reopen { IsTrue engine.old.session.must_reopen → (result ≡ Err (report.Warehouse faults.Reopen)) × (engine.new.tables ≡ engine.old.tables) × (engine.new.session ≡ engine.old.session) × (W.contents out.new ≡ W.contents out.old) }
    ensures only { result ≡ Err (report.Warehouse faults.Reopen) → IsTrue engine.old.session.must_reopen }
    ensures kinds { IfErr result IsOfDump }
{
    for_table::<Engine<S>, W, WritesOut>(table, &WritesOut, alloc, engine, out)
}
