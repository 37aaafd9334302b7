//! A second warehouse, whose files lie in memory: it is made anew and sent each command that the command table tells, so that it holds what
//! these define.

ghost use Rattle.std.specs.Prelude.{◌≡◌, ◌&&◌, ◌==◌, List, [], true, Some, bytes_eq, IfOk, IfErr};
ghost use Rattle.wh_admission.specs.Admission.{kept_bytes};
ghost use Rattle.wh_admission.specs.Checked.{stored_in};
ghost use Rattle.sqlite.specs.Files.{over_files};
ghost use Rattle.wh_history.specs.Accepted.{Accepted};
ghost use Rattle.wh_history.specs.Tables.{Limits as LimitCounts};
ghost use Rattle.wh_rows.specs.Rows as row;
ghost use Rattle.wh_rows.specs.declared.table.Table.TheVariants.{Command as OfCommand};
ghost use Rattle.wh_sql.specs.Reads.{IsOfDamage};
ghost use Rattle.wh_engine.specs.Scanned.{ReadsOnlyIn, WhenStored};
ghost use Rattle.wh_checking.specs.Replica.{is_making_row, IsOpenFor, IsReplica, IsFollowed, IsMadeOrNot, IsReplicated, IsEndOf};

use sqlite::Alter;
use std::alloc::{AllocError, Global};
use wh_admission::{Command, Receipt, Reply};
use wh_batch::CommandKind;
use wh_engine::{Engine, Fault, InitFault};
use wh_policy::Format;
use wh_rows::{CommandRow, Limits, tables};
use wh_store::{Cursor, ReadFault, Scratch, Tables, next_row, open_scratch};

/// Whether a row says of the making what it has to, but for its bytes.
fn is_making_row(row: &CommandRow) -> bool
    ensures { result ≡ is_making_row row.now }
{
    row.id.as_str() == "init"
        && row.kind.as_str() == "init"
        && row.number == 1
        && row.records == 0
        && row.placeholders == 0
}

/// A second warehouse that is made as a row says, if it is the row of a making.
fn made(
    alloc: Global,
    limits: Limits,
    row: &CommandRow,
) -> Result<Option<Engine<Scratch>>, AllocError>
    ensures { IfOk result (IsMadeOrNot over_files limits row.now) }
{
    if !is_making_row(row) {
        return Ok(None);
    }
    let connection = open_scratch(alloc)?;
    match Engine::init(alloc, connection, row.bytes.as_slice(), limits) {
        Ok(engine) => Ok(Some(engine)),
        Err((InitFault::Policy(_), _)) => Ok(None),
        Err(_) => Err(AllocError),
    }
}

/// Whether a receipt has this number, so many records and so many placeholders.
fn says(receipt: Receipt, number: u64, records: u64, placeholders: u64) -> bool
    ensures { result ≡ ((receipt.number == number) && (receipt.records == records) && (receipt.placeholders == placeholders)) }
{
    receipt.number == number && receipt.records == records && receipt.placeholders == placeholders
}

/// Whether all bytes of a command are kept.
fn keeps_all(command: &Command) -> bool
    ensures { result ≡ bytes_eq (kept_bytes command.now.kind command.now.bytes) command.now.bytes }
{
    command.kept_bytes() == command.bytes.as_slice()
}

/// Sends the second warehouse the command of a row, and tells whether it is the next one, and this its row.
fn follow<M: Alter>(
    engine: &mut Engine<M>,
    alloc: Global,
    row: CommandRow,
) -> Result<bool, AllocError>
    ensures { (limits : LimitCounts) (commands : List Accepted) → IsOpenFor M.Store limits commands engine.old → IfOk result (IsFollowed limits commands row (λ list. IsOpenFor M.Store limits list engine.new)) }
{
    let Some(kind) = CommandKind::from_word(row.kind.as_str()) else {
        return Ok(false);
    };
    let CommandRow {
        number,
        id,
        kind: _word,
        bytes,
        records,
        placeholders,
    } = row;
    let command = Command { id, kind, bytes };
    if !keeps_all(&command) {
        return Ok(false);
    }
    match engine.apply(alloc, &command) {
        Ok(Reply::Accepted(receipt)) => Ok(says(receipt, number, records, placeholders)),
        Ok(Reply::Already(_)) => Ok(false),
        Err(Fault::Refused(_)) => Ok(false),
        Err(_) => Err(AllocError),
    }
}

/// The second warehouse, once the first command came.
#[derive(Drop)]
pub(crate) struct Replica {
    limits: Limits,
    engine: Option<Engine<Scratch>>,
}

impl Replica {
    /// No command yet.
    fn new(limits: Limits) -> Replica
        ensures { IsReplica limits [] result }
    {
        Replica {
            limits,
            engine: None,
        }
    }

    /// Whether a row is that of the next command that is accepted. If it is, the warehouse has it; if not, or after an `Err`,
    /// nothing is known any more.
    fn take_row(&mut self, alloc: Global, row: CommandRow) -> Result<bool, AllocError>
        ensures { (limits : LimitCounts) (commands : List Accepted) → IsReplica limits commands self.old → IfOk result (IsFollowed limits commands row (λ list. IsReplica limits list self.new)) }
    {
        if let Some(engine) = &mut self.engine {
            return follow(engine, alloc, row);
        }
        match made(alloc, self.limits, &row)? {
            Some(engine) => {
                self.engine = Some(engine);
                Ok(true)
            }
            None => Ok(false),
        }
    }
}

/// The tables of the warehouse, where it has a command, each row was that of the next, and it is of this format then.
fn replica_tables(format: Format, is_list: bool, replica: Replica) -> Option<Tables<Scratch>>
    ensures { IsEndOf format is_list replica.engine result }
{
    if !is_list {
        return None;
    }
    let Some(engine) = replica.engine else {
        return None;
    };
    if engine.format() != format {
        return None;
    }
    Some(engine.tables)
}

/// Tables of a second warehouse that are those of the commands which the command table tells, where it tells a list that was admitted under
/// these limits, with the receipts that were kept, and makes this format. It is read to its end, so that a damaged row is met wherever it stands.
pub(crate) fn replicated_tables<S: Alter>(
    tables: &mut Tables<S>,
    alloc: Global,
    format: Format,
    limits: Limits,
) -> Result<Option<Tables<Scratch>>, ReadFault>
    ensures reads { ReadsOnlyIn S.Store tables.old tables.new result }
    ensures replicated { WhenStored S.Store tables.old tables.new (λ stored. IfOk result (IsReplicated over_files (stored_in format stored) limits)) }
    ensures damaged { WhenStored S.Store tables.old tables.new (λ stored. IfErr result (IsOfDamage row.command OfCommand (stored.rows OfCommand))) }
{
    // Each is from 1 to its greatest, as these calls say.
    let _each = (limits.commands(), limits.changes(), limits.facts());
    let mut cursor = Cursor::new(alloc);
    let mut replica = Replica::new(limits);
    let mut is_list = true;
    'rows: for _ in 0..u64::MAX {
        match next_row::<tables::Command, S>(tables, alloc, format, &mut cursor)? {
            Some(row) => {
                if is_list {
                    is_list = replica.take_row(alloc, row)?;
                }
            }
            None => return Ok(replica_tables(format, is_list, replica)),
        }
    }
    Err(ReadFault::Memory)
}
