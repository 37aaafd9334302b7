//! Writing a text out, and why a call that writes one fails.

ghost use Rattle.std.specs.Prelude.{◌≡◌, ℕ, ◌<◌, OnOk, OnErr, length, take};
ghost use Rattle.std.specs.Io.KnownBytes.{Appends};
ghost use Rattle.wh_engine.specs.declared.fault.Fault.TheVariants as faults;
ghost use Rattle.wh_report.specs.declared.output.ReportFault.TheVariants as report;

use std::alloc::AllocError;
use std::io::Write;
use thiserror::Error;
use wh_engine::Fault;
use wh_rows::Table;

/// Why a text of a warehouse isn't written.
#[derive(Clone, Copy, Debug, PartialEq, Eq, Error)]
pub enum ReportFault {
    /// The writer failed, or took nothing.
    #[error("the text can't be written")]
    Write,
    /// The warehouse can't be read, by this fault.
    #[error("the warehouse can't be read")]
    Warehouse(Fault),
    /// The warehouse can't be read, and the writer failed as well, at the lines of the rows that were read before.
    #[error("the warehouse can't be read, nor the text be written")]
    Unwritten(Fault),
    /// A row that a fact names is missing in this table, or it has more facts than can be counted. Each row that is stored
    /// has values of its types.
    #[error("the warehouse's tables don't fit together")]
    Inconsistent(Table),
}

impl From<AllocError> for ReportFault {
    ghost from_gives = { λ _ fault. fault ≡ report.Warehouse faults.Memory };

    fn from(_error: AllocError) -> ReportFault {
        ReportFault::Warehouse(Fault::Memory)
    }
}

impl From<Fault> for ReportFault {
    ghost from_gives = { λ cause fault. fault ≡ report.Warehouse cause };

    fn from(cause: Fault) -> ReportFault {
        ReportFault::Warehouse(cause)
    }
}

impl From<WriteFailed> for ReportFault {
    ghost from_gives = { λ _ fault. fault ≡ report.Write };

    fn from(_failed: WriteFailed) -> ReportFault {
        ReportFault::Write
    }
}

/// The writer failed, or took nothing.
#[derive(Clone, Copy, Debug, PartialEq, Eq, Error)]
#[error("the text can't be written")]
pub struct WriteFailed;

/// Writes the text. After an `Err` what went out is a beginning of it.
pub fn write_whole<W: Write>(out: &mut W, text: &[u8]) -> Result<(), WriteFailed>
    ensures whole { OnOk result (Appends (W.contents out.old) (W.contents out.new) text.now) }
    ensures beginning { OnErr result ((kept : ℕ) × (kept < length text.now)
        × Appends (W.contents out.old) (W.contents out.new) (take kept text.now)) }
{
    let mut written = 0;
    'writes: while written < text.len() {
        match out.write(&text[written..]) {
            Ok(0) | Err(_) => return Err(WriteFailed),
            Ok(taken) => written += taken,
        }
    }
    Ok(())
}
