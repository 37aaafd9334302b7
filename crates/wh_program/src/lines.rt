//! The lines that a run can answer.

pub(crate) mod answer;
pub(crate) mod explaining;
pub(crate) mod plan_text;
pub(crate) mod reporting;
pub(crate) mod reports_text;

ghost use Rattle.std.specs.Prelude.{◌≡◌, ◌+◌, ◌≤◌, ◌++◌, ℕ, List, IfOk, OnOk, codes, length, string_bytes, vec_capacity};
ghost use Rattle.std.specs.Fmt.{decimal};
ghost use Rattle.wh_explain.specs.Added.{Fits};
ghost use Rattle.wh_program.specs.Answer.{status_code, done, refused, failed, no_file_line, batch_line, batch_fault_name, policy_line, policy_fault_name};
ghost use Rattle.wh_words.specs.WrongWord.{line};
ghost use Rattle.wh_program.specs.Delivery.{manifest_line};
ghost use Rattle.wh_program.specs.Room.{TellsIn, longest_line, longest_answer, longest_reply};
ghost use Rattle.wh_program.specs.Reply.{receipt_line, reply_answer, limit_name, full_line, sale_there_line, no_sale_line, refused_line, damaged_line, cause_name, store_line, fault_answer, records_answer, sent_answer, plan_answer, wrong_line, verdict_answer, made_line, making_answer, opening_answer, members_line, totals_text, counts_text, status_answer};

use crate::lines::answer::{Answer, Status};
use crate::lines::plan_text::plan_text;
use itoa::Buffer;
use std::alloc::{AllocError, Global};
use wh_batch::{BadManifest, BatchFault, FaultKind};
use wh_checking::Verdict;
use wh_engine::{
    Command, Counts, Fault, InitFault, Limit, OpenFault, Part, Receipt, Refusal, Reply,
};
use wh_explain::push_number;
use wh_plan::Edits;
use wh_policy::PolicyFault;
use wh_rows::{Cause, Table};

/// The line where memory ran out.
pub const MEMORY_LINE: &[u8] = b"failed: E8 memory\n";

/// The line where the output could not be written.
pub const WRITE_LINE: &[u8] = b"failed: G4 write\n";

/// The line where a session is asked for within another.
pub const SESSION_LINE: &[u8] = b"refused: G5 session\n";

/// The line where a word isn't text.
pub const NO_TEXT_LINE: &[u8] = b"error: an argument is not valid UTF-8\n";

/// A line of two texts.
fn push_named_line(text: &mut Vec<u8>, what: &str, name: &str) -> Result<(), AllocError>
    ensures added { OnOk result (text.new.items ≡ text.old.items ++ line (what.now ++ name.now)) }
    ensures fits { Fits (length what.now + length name.now + 1) result text.old text.new }
{
    text.extend_from_slice(what.as_bytes())?;
    text.extend_from_slice(name.as_bytes())?;
    text.extend_from_slice(b"\n")
}

/// A line of a text and a number.
fn push_numbered_line(text: &mut Vec<u8>, what: &str, number: u64) -> Result<(), AllocError>
    ensures added { OnOk result (text.new.items ≡ text.old.items ++ line (what.now ++ decimal number)) }
    ensures fits { Fits (length what.now + 21) result text.old text.new }
{
    push_named_line(text, what, Buffer::new().format(number))
}

/// A line of two texts and the number of a record.
fn push_record_line(
    text: &mut Vec<u8>,
    what: &str,
    name: &str,
    number: u64,
) -> Result<(), AllocError>
    ensures added { OnOk result (text.new.items ≡ text.old.items ++ line (what.now ++ name.now ++ codes ", record " ++ decimal number)) }
    ensures fits { Fits (length what.now + length name.now + 30) result text.old text.new }
{
    text.extend_from_slice(what.as_bytes())?;
    text.extend_from_slice(name.as_bytes())?;
    push_numbered_line(text, ", record ", number)
}

fn batch_fault_name(kind: FaultKind) -> &'static str
    ensures name { result.now ≡ batch_fault_name kind }
    ensures short { length result.now ≤ 32 }
{
    match kind {
        FaultKind::TooLarge => "B1 too large",
        FaultKind::WrongHeader => "B2 wrong header",
        FaultKind::WrongLength => "B3 wrong length",
        FaultKind::BadKey => "B4 bad key",
        FaultKind::BadDay => "B5 bad day",
        FaultKind::BadValue => "B6 bad value",
        FaultKind::BadNumber => "B7 bad number",
        FaultKind::TwiceInBatch => "B8 twice in batch",
        FaultKind::OutsideCalendar => "B9 outside calendar",
        FaultKind::NotInFormat => "B10 not in format",
    }
}

fn push_batch_line(text: &mut Vec<u8>, fault: BatchFault) -> Result<(), AllocError>
    ensures added { OnOk result (text.new.items ≡ text.old.items ++ batch_line fault) }
    ensures fits { Fits longest_line result text.old text.new }
{
    let name = batch_fault_name(fault.kind);
    push_record_line(text, "refused: E3 batch, ", name, u64::from(fault.number))
}

/// The line of a batch that has a fault.
pub fn batch_line(alloc: Global, fault: BatchFault) -> Result<Vec<u8>, AllocError>
    ensures { IfOk result (λ line. line.items ≡ batch_line fault) }
{
    let mut line = Vec::new(alloc);
    push_batch_line(&mut line, fault)?;
    Ok(line)
}

fn policy_fault_name(fault: PolicyFault) -> &'static str
    ensures name { result.now ≡ policy_fault_name fault }
    ensures short { length result.now ≤ 32 }
{
    match fault {
        PolicyFault::NotToml => "P1 not toml",
        PolicyFault::Missing => "P2 missing",
        PolicyFault::UnknownKey => "P3 unknown key",
        PolicyFault::BadName => "P4 bad name",
        PolicyFault::BadType => "P5 bad type",
        PolicyFault::TooMany => "P6 too many",
        PolicyFault::NamedTwice => "P7 named twice",
        PolicyFault::ProfileOutside => "P8 profile outside",
        PolicyFault::ProfileMixed => "P9 profile mixed",
        PolicyFault::BadYears => "P10 bad years",
        PolicyFault::BadHoliday => "P11 bad holiday",
    }
}

fn push_policy_line(text: &mut Vec<u8>, fault: PolicyFault) -> Result<(), AllocError>
    ensures added { OnOk result (text.new.items ≡ text.old.items ++ policy_line fault) }
    ensures fits { Fits longest_line result text.old text.new }
{
    push_named_line(text, "refused: E4 policy, ", policy_fault_name(fault))
}

/// The line of a policy that has a fault.
pub fn policy_line(alloc: Global, fault: PolicyFault) -> Result<Vec<u8>, AllocError>
    ensures { IfOk result (λ line. line.items ≡ policy_line fault) }
{
    let mut line = Vec::new(alloc);
    push_policy_line(&mut line, fault)?;
    Ok(line)
}

/// The answer to a policy that has a fault.
pub fn bad_policy(alloc: Global, fault: PolicyFault) -> Result<Answer, AllocError>
    ensures { IfOk result (λ answer. answer ≡ refused (policy_line fault)) }
{
    Ok(Answer::new(Status::Refused, policy_line(alloc, fault)?))
}

/// The answer to a manifest with a record that is no entry.
pub fn bad_manifest(alloc: Global, bad: BadManifest) -> Result<Answer, AllocError>
    ensures { IfOk result (λ answer. answer ≡ refused (manifest_line bad)) }
{
    let mut line = Vec::new(alloc);
    push_numbered_line(&mut line, "refused: M1 bad manifest, record ", bad.number)?;
    Ok(Answer::new(Status::Refused, line))
}

/// The answer to a run that names a file that isn't there.
pub fn no_file(alloc: Global, path: &str) -> Result<Answer, AllocError>
    ensures { IfOk result (λ answer. answer ≡ failed (no_file_line path.now)) }
{
    let line = format!(in alloc; "failed: F1 file, {path}\n")?;
    Ok(Answer::new(Status::Failed, line.into_bytes()))
}

/// The answer to records that were read as a batch, or why they weren't.
pub fn records_answer(alloc: Global, found: Result<Part, Fault>) -> Result<Answer, AllocError>
    ensures { IfOk result (λ answer. answer ≡ records_answer found) }
{
    match found {
        Ok(part) => Ok(Answer::new(Status::Done, part.text)),
        Err(fault) => fault_answer(alloc, fault),
    }
}

/// A line that is the same each time.
pub fn fixed_line(alloc: Global, status: Status, line: &str) -> Result<Answer, AllocError>
    ensures { IfOk result (λ answer. answer ≡ record { status = status_code status; text = line.now }) }
{
    let text = String::from_str(alloc, line)?;
    Ok(Answer::new(status, text.into_bytes()))
}

/// The most bytes of a line, beside an id.
const LONGEST_LINE: usize = 128;

/// Room for any line with no id. It is taken before a warehouse is made, so that no memory is wanted once it is.
pub fn room_for_line(alloc: Global) -> Result<Vec<u8>, AllocError>
    ensures { IfOk result (λ room. longest_line ≤ vec_capacity room) }
{
    Vec::with_capacity(alloc, LONGEST_LINE)
}

/// Room for the line of any answer to a command under an id. It is taken before the command is sent, so that no memory is wanted
/// once the command is kept.
pub fn room_for_receipt(alloc: Global, id: &str) -> Result<Vec<u8>, AllocError>
    ensures { IfOk result (λ room. longest_answer id.now ≤ vec_capacity room) }
{
    Vec::with_capacity(alloc, id.len() + LONGEST_LINE)
}

/// Room for the line of the reply to any of the commands, one at a time, taken before the first is sent.
pub fn room_for_delivery(alloc: Global, commands: &[Command]) -> Result<Vec<u8>, AllocError>
    ensures { IfOk result (λ room. longest_reply commands.now ≤ vec_capacity room) }
{
    let mut longest = 0;
    for command in commands {
        longest = longest.max(command.id.as_str().len() + LONGEST_LINE);
    }
    Vec::with_capacity(alloc, longest)
}

/// What an accepted command is answered, after the word for how it was taken.
fn push_receipt(
    text: &mut Vec<u8>,
    word: &str,
    id: &str,
    receipt: &Receipt,
) -> Result<(), AllocError>
    ensures added { OnOk result (text.new.items ≡ text.old.items ++ receipt_line word.now id.now receipt.now) }
    ensures fits { Fits (length word.now + length id.now + 88) result text.old text.new }
{
    text.extend_from_slice(word.as_bytes())?;
    text.extend_from_slice(b" ")?;
    push_number(text, receipt.number)?;
    text.extend_from_slice(b" ")?;
    text.extend_from_slice(id.as_bytes())?;
    text.extend_from_slice(b": ")?;
    push_number(text, receipt.records)?;
    text.extend_from_slice(b" records, ")?;
    push_number(text, receipt.placeholders)?;
    text.extend_from_slice(b" placeholders\n")?;
    Ok(())
}

/// The line of a command that is kept.
fn push_reply(text: &mut Vec<u8>, id: &str, reply: &Reply) -> Result<(), AllocError>
    ensures added { OnOk result (text.new.items ≡ text.old.items ++ (reply_answer id.now reply.now).text) }
    ensures fits { Fits (longest_answer id.now) result text.old text.new }
{
    match reply {
        Reply::Accepted(receipt) => push_receipt(text, "accepted", id, receipt),
        Reply::Already(receipt) => push_receipt(text, "already", id, receipt),
    }
}

fn limit_name(limit: Limit) -> &'static str
    ensures name { result.now ≡ limit_name limit }
    ensures short { length result.now ≤ 32 }
{
    match limit {
        Limit::Commands => "commands",
        Limit::Changes => "changes",
        Limit::Facts => "facts",
    }
}

fn push_full_line(text: &mut Vec<u8>, limit: Limit) -> Result<(), AllocError>
    ensures added { OnOk result (text.new.items ≡ text.old.items ++ full_line limit) }
    ensures fits { Fits longest_line result text.old text.new }
{
    push_named_line(text, "refused: E6 full, ", limit_name(limit))
}

fn push_sale_there_line(text: &mut Vec<u8>, number: u64) -> Result<(), AllocError>
    ensures added { OnOk result (text.new.items ≡ text.old.items ++ sale_there_line number) }
    ensures fits { Fits longest_line result text.old text.new }
{
    push_numbered_line(text, "refused: E6 line there, record ", number)
}

fn push_no_sale_line(text: &mut Vec<u8>, number: u64) -> Result<(), AllocError>
    ensures added { OnOk result (text.new.items ≡ text.old.items ++ no_sale_line number) }
    ensures fits { Fits longest_line result text.old text.new }
{
    push_numbered_line(text, "refused: E6 no line, record ", number)
}

/// The line of a command that isn't accepted.
pub fn push_refused(text: &mut Vec<u8>, why: &Refusal) -> Result<(), AllocError>
    ensures added { OnOk result (text.new.items ≡ text.old.items ++ refused_line why.now) }
    ensures fits { Fits longest_line result text.old text.new }
{
    match why {
        Refusal::BadId => text.extend_from_slice(b"refused: E1 bad id\n"),
        Refusal::Reused => text.extend_from_slice(b"refused: E2 id reused\n"),
        Refusal::Batch(fault) => push_batch_line(text, *fault),
        Refusal::Policy(fault) => push_policy_line(text, *fault),
        Refusal::Unfit => text.extend_from_slice(b"refused: E5 policy does not fit\n"),
        Refusal::Upgraded => text.extend_from_slice(b"refused: E6 format, 2\n"),
        Refusal::NameTaken => text.extend_from_slice(b"refused: E11 not empty\n"),
        Refusal::LineThere(number) => push_sale_there_line(text, *number),
        Refusal::NoLine(number) => push_no_sale_line(text, *number),
        Refusal::Full(limit) => push_full_line(text, *limit),
    }
}

fn push_damaged_line(text: &mut Vec<u8>, table: Table) -> Result<(), AllocError>
    ensures added { OnOk result (text.new.items ≡ text.old.items ++ damaged_line table) }
    ensures fits { Fits longest_line result text.old text.new }
{
    push_named_line(text, "failed: E7 damaged, ", table.name())
}

/// The answer where this table has a row out of its type.
pub fn damaged_answer(alloc: Global, table: Table) -> Result<Answer, AllocError>
    ensures { IfOk result (λ answer. answer ≡ failed (damaged_line table)) }
{
    let mut line = Vec::new(alloc);
    push_damaged_line(&mut line, table)?;
    Ok(Answer::new(Status::Failed, line))
}

fn cause_name(cause: Cause) -> &'static str
    ensures name { result.now ≡ cause_name cause }
    ensures short { length result.now ≤ 32 }
{
    match cause {
        Cause::Memory => "memory",
        Cause::Disk => "disk",
        Cause::Size => "size",
        Cause::Interrupted => "interrupted",
    }
}

fn push_store_line(text: &mut Vec<u8>, cause: Cause) -> Result<(), AllocError>
    ensures added { OnOk result (text.new.items ≡ text.old.items ++ store_line cause) }
    ensures fits { Fits longest_line result text.old text.new }
{
    push_named_line(text, "failed: E9 store, ", cause_name(cause))
}

fn store_failed(alloc: Global, cause: Cause) -> Result<Answer, AllocError>
    ensures { IfOk result (λ answer. answer ≡ failed (store_line cause)) }
{
    let mut line = Vec::new(alloc);
    push_store_line(&mut line, cause)?;
    Ok(Answer::new(Status::Failed, line))
}

/// The line of a fault.
fn push_fault(text: &mut Vec<u8>, fault: &Fault) -> Result<(), AllocError>
    ensures added { OnOk result (text.new.items ≡ text.old.items ++ (fault_answer fault.now).text) }
    ensures fits { Fits longest_line result text.old text.new }
{
    match fault {
        Fault::Refused(why) => push_refused(text, why),
        Fault::Damaged(table) => push_damaged_line(text, *table),
        Fault::Memory => text.extend_from_slice(MEMORY_LINE),
        Fault::Store(cause) => push_store_line(text, *cause),
        Fault::Reopen => text.extend_from_slice(b"failed: E10 reopen\n"),
    }
}

/// How a fault ends a run.
fn fault_status(fault: &Fault) -> Status
    ensures { status_code result ≡ (fault_answer fault.now).status }
{
    match fault {
        Fault::Refused(_) => Status::Refused,
        _ => Status::Failed,
    }
}

/// The answer where a call on the tables of a warehouse isn't answered, in room that was taken for it.
fn fault_answer_in(mut room: Vec<u8>, fault: &Fault) -> Result<Answer, AllocError>
    ensures { TellsIn longest_line room result (fault_answer fault.now) }
{
    room.clear();
    push_fault(&mut room, fault)?;
    Ok(Answer::new(fault_status(fault), room))
}

/// `fault_answer_in` without reserved room.
pub fn fault_answer(alloc: Global, fault: Fault) -> Result<Answer, AllocError>
    ensures { IfOk result (λ answer. answer ≡ fault_answer fault) }
{
    fault_answer_in(Vec::new(alloc), &fault)
}

/// The line of the reply to a command that is sent under an id.
pub fn push_sent(
    text: &mut Vec<u8>,
    id: &str,
    reply: &Result<Reply, Fault>,
) -> Result<(), AllocError>
    ensures added { OnOk result (text.new.items ≡ text.old.items ++ (sent_answer id.now reply.now).text) }
    ensures fits { Fits (longest_answer id.now) result text.old text.new }
{
    match reply {
        Ok(reply) => push_reply(text, id, reply),
        Err(fault) => push_fault(text, fault),
    }
}

/// How a run ends that was replied so.
pub fn sent_status(reply: &Result<Reply, Fault>) -> Status
    ensures { (id : List ℕ) → status_code result ≡ (sent_answer id reply.now).status }
{
    match reply {
        Ok(_) => Status::Done,
        Err(fault) => fault_status(fault),
    }
}

/// The answer to a command that is sent under an id, in room that was taken for it.
pub fn sent_answer(
    mut room: Vec<u8>,
    id: &str,
    reply: &Result<Reply, Fault>,
) -> Result<Answer, AllocError>
    ensures { TellsIn (longest_answer id.now) room result (sent_answer id.now reply.now) }
{
    room.clear();
    push_sent(&mut room, id, reply)?;
    Ok(Answer::new(sent_status(reply), room))
}

/// The answer to what a command would write.
pub fn plan_answer(alloc: Global, edits: Result<Edits, Fault>) -> Result<Answer, AllocError>
    ensures { IfOk result (λ answer. answer ≡ plan_answer edits) }
{
    match edits {
        Ok(edits) => Ok(Answer::new(Status::Done, plan_text(alloc, &edits)?)),
        Err(fault) => fault_answer(alloc, fault),
    }
}

fn wrong(alloc: Global, table: Table) -> Result<Answer, AllocError>
    ensures { IfOk result (λ answer. answer ≡ failed (wrong_line table)) }
{
    let mut line = Vec::new(alloc);
    push_named_line(&mut line, "wrong: ", table.name())?;
    Ok(Answer::new(Status::Failed, line))
}

/// The answer to a check.
pub fn verdict_answer(alloc: Global, verdict: Result<Verdict, Fault>) -> Result<Answer, AllocError>
    ensures { IfOk result (λ answer. answer ≡ verdict_answer verdict) }
{
    match verdict {
        Ok(Verdict::Clean) => fixed_line(alloc, Status::Done, "clean\n"),
        Ok(Verdict::Wrong(table)) => wrong(alloc, table),
        Err(fault) => fault_answer(alloc, fault),
    }
}

/// The answer to the making of a warehouse, in room that was taken for it.
pub fn made(mut room: Vec<u8>) -> Result<Answer, AllocError>
    ensures { TellsIn longest_line room result (done made_line) }
{
    room.clear();
    room.extend_from_slice(b"accepted 1 init: 0 records, 0 placeholders\n")?;
    Ok(Answer::new(Status::Done, room))
}

/// The line where no warehouse was made.
fn push_making_fault(text: &mut Vec<u8>, fault: &InitFault) -> Result<(), AllocError>
    ensures added { OnOk result (text.new.items ≡ text.old.items ++ (making_answer fault.now).text) }
    ensures fits { Fits longest_line result text.old text.new }
{
    match fault {
        InitFault::Policy(fault) => push_policy_line(text, *fault),
        InitFault::NotEmpty => text.extend_from_slice(b"refused: E11 not empty\n"),
        InitFault::Memory => text.extend_from_slice(MEMORY_LINE),
        InitFault::Store(cause) => push_store_line(text, *cause),
    }
}

/// How a making ends where no warehouse was made.
fn making_status(fault: &InitFault) -> Status
    ensures { status_code result ≡ (making_answer fault.now).status }
{
    match fault {
        InitFault::Policy(_) | InitFault::NotEmpty => Status::Refused,
        InitFault::Memory | InitFault::Store(_) => Status::Failed,
    }
}

/// The answer where no warehouse was made, in room that was taken for it.
pub fn making_answer(mut room: Vec<u8>, fault: &InitFault) -> Result<Answer, AllocError>
    ensures { TellsIn longest_line room result (making_answer fault.now) }
{
    room.clear();
    push_making_fault(&mut room, fault)?;
    Ok(Answer::new(making_status(fault), room))
}

/// The answer where a file isn't opened as a warehouse.
pub fn opening_answer(alloc: Global, fault: OpenFault) -> Result<Answer, AllocError>
    ensures { IfOk result (λ answer. answer ≡ opening_answer fault) }
{
    match fault {
        OpenFault::NotAWarehouse => {
            fixed_line(alloc, Status::Failed, "failed: N1 not a warehouse\n")
        }
        OpenFault::OldFormat => fixed_line(alloc, Status::Failed, "failed: N2 old format\n"),
        OpenFault::NewFormat => fixed_line(alloc, Status::Failed, "failed: N3 new format\n"),
        OpenFault::Damaged(table) => damaged_answer(alloc, table),
        OpenFault::Memory => Err(AllocError),
        OpenFault::Store(cause) => store_failed(alloc, cause),
    }
}

/// The line of how many members there are.
fn members_line(alloc: Global, counts: &Counts) -> Result<String, AllocError>
    ensures { IfOk result (λ line. string_bytes line ≡ members_line counts.now) }
{
    let products = counts.products;
    let stores = counts.stores;
    let customers = counts.customers;
    format!(in alloc; "members product {products} store {stores} customer {customers}\n")
}

/// The lines of the format and of how many rows there are.
fn totals_text(alloc: Global, counts: &Counts) -> Result<String, AllocError>
    ensures { IfOk result (λ text. string_bytes text ≡ totals_text counts.now) }
{
    let number = counts.format;
    let commands = counts.commands;
    let changes = counts.changes;
    let facts = counts.facts;
    format!(in alloc; "format {number}\ncommands {commands}\nchanges {changes}\nfacts {facts}\n")
}

/// The five lines of how much a warehouse holds.
fn counts_text(alloc: Global, counts: &Counts) -> Result<Vec<u8>, AllocError>
    ensures { IfOk result (λ text. text.items ≡ counts_text counts.now) }
{
    let mut text = totals_text(alloc, counts)?;
    let members = members_line(alloc, counts)?;
    text.push_str(members.as_str())?;
    Ok(text.into_bytes())
}

/// The answer to how much a warehouse holds.
pub fn status_answer(alloc: Global, counts: Result<Counts, Fault>) -> Result<Answer, AllocError>
    ensures { IfOk result (λ answer. answer ≡ status_answer counts) }
{
    match counts {
        Ok(counts) => Ok(Answer::new(Status::Done, counts_text(alloc, &counts)?)),
        Err(fault) => fault_answer(alloc, fault),
    }
}
