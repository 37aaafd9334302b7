//! Deliveries: the commands that a manifest lists, sent in order. The line of each reply is printed as it comes.

ghost use Rattle.std.specs.Prelude.{◌≡◌, ◌≤◌, ℕ, Option, Result, IfOk, IfErr, vec_capacity, Some};
ghost use Rattle.sqlite.specs.State.{HasCleanDisk};
ghost use Rattle.wh_batch.specs.Manifest.{manifest_of};
ghost use Rattle.wh_engine.specs.Answered.{IsAnswered};
ghost use Rattle.wh_engine.specs.Scanned.{WhenReady};
ghost use Rattle.wh_engine.specs.declared.fault.Fault.{Fault as Faults};
ghost use Rattle.wh_admission.specs.declared.command.Reply.{Reply as Replies};
ghost use Rattle.wh_sql.specs.Answers.{state_of};
ghost use Rattle.wh_program.specs.Answer.{status_code};
ghost use Rattle.wh_program.specs.Delivery.{AreCommandsOf, Delivers, DeliversTo, IsDeliveredOver, LacksInput, AnswersSent, AnswersListed, AnswersRead, AnswersDelivery, LacksEntry, LacksListed, LacksManifest};
ghost use Rattle.wh_program.specs.Reply.{sent_answer};
ghost use Rattle.wh_program.specs.Room.{longest_answer, longest_reply};
ghost use Rattle.wh_program.specs.Run.{GoesOut, Prints};
ghost use Rattle.wh_program.specs.Standing.{DatabaseContent, IsAt, Rests, Standing, Stands};
ghost use Rattle.wh_program.specs.Warehouse.{Shown, PrintsAnswer, RepliesOver, printed, PrintsShut, IsNoFile, IsNoFileOr};
ghost use Rattle.wh_program.specs.Tasks.{SparesOthers};

use crate::host::{Host, HostError, Visitor, manifest_file_of};
use crate::lines::answer::Status;
use crate::lines::{
    MEMORY_LINE, bad_manifest, no_file, opening_answer, push_sent, room_for_delivery, sent_status,
};
use crate::output::{print, print_answer};
use crate::visits::opened::is_of_store;
use crate::visits::warehouse::command_from_file;
use sqlite::{Alter, Connection};
use std::alloc::{AllocError, Global};
use std::io::Write;
use wh_batch::{FilePath, Manifest, ManifestEntry};
use wh_day::ParseError;
use wh_engine::{Command, Engine, Fault, Reply};

/// Prints the line of the reply to a command, in room that was taken for it.
fn print_sent<W: Write>(
    room: &mut Vec<u8>,
    id: &str,
    reply: &Result<Reply, Fault>,
    out: &mut W,
) -> Status
    requires { longest_answer id.now ≤ vec_capacity room.old }
    ensures printed { Prints (W.contents out.old) (W.contents out.new) (status_code result) (sent_answer id.now reply.now) }
    ensures room { vec_capacity room.old ≤ vec_capacity room.new }
{
    room.clear();
    match push_sent(room, id, reply) {
        Ok(()) => print(out, sent_status(reply), room.as_slice()),
        Err(AllocError) => print(out, Status::Failed, MEMORY_LINE),
    }
}

/// Sends a command, and prints the line of the reply.
fn send_next<S: Alter, W: Write>(
    alloc: Global,
    engine: &mut Engine<S>,
    command: &Command,
    room: &mut Vec<u8>,
    out: &mut W,
) -> Status
    requires { longest_answer command.now.id ≤ vec_capacity room.old }
    ensures sent { (reply : Result Replies Faults) × Prints (W.contents out.old) (W.contents out.new) (status_code result) (sent_answer command.now.id reply)
        × WhenReady S.Store engine.old engine.new (λ limits accepted. IsAnswered limits accepted command.now reply)
        × RepliesOver (state_of S.Store engine.old.tables) (state_of S.Store engine.new.tables) command.now reply }
    ensures clean { HasCleanDisk (state_of S.Store engine.new.tables) → HasCleanDisk (state_of S.Store engine.old.tables) }
    ensures room { vec_capacity room.old ≤ vec_capacity room.new }
{
    let reply = engine.apply(alloc, command);
    print_sent(room, command.id.as_str(), &reply, out)
}

/// Sends commands in order, until one isn't answered, or its line can't be written.
fn send_each<S: Alter, W: Write>(
    alloc: Global,
    engine: &mut Engine<S>,
    commands: &[Command],
    mut room: Vec<u8>,
    out: &mut W,
) -> Status
    requires { longest_reply commands.now ≤ vec_capacity room }
    ensures delivered { (cut : Option ℕ) × (shown : Shown) × GoesOut cut (W.contents out.old) (W.contents out.new) (status_code result) (printed shown)
        × WhenReady S.Store engine.old engine.new (λ limits accepted session s. (after : Standing) × Delivers cut commands.now limits accepted shown after × Stands after s)
        × (HasCleanDisk (state_of S.Store engine.new.tables) → (content : DatabaseContent) → IsAt content (state_of S.Store engine.old.tables)
        → (after : Standing) × IsDeliveredOver commands.now content shown after × Stands after (state_of S.Store engine.new.tables)) }
    ensures clean { HasCleanDisk (state_of S.Store engine.new.tables) → HasCleanDisk (state_of S.Store engine.old.tables) }
{
    let mut status = Status::Done;
    for command in commands {
        match send_next(alloc, engine, command, &mut room, out) {
            Status::Done => {}
            Status::Refused => status = Status::Refused,
            Status::Failed => return Status::Failed,
        }
    }
    status
}

/// Delivers commands to a warehouse.
#[derive(Drop)]
struct Delivering {
    commands: Vec<Command>,
    /// Room for the line of the reply to any of them.
    room: Vec<u8>,
    ghost enough: { longest_reply commands.items ≤ vec_capacity room },
}

impl Visitor for Delivering {
    type Output = Status;

    ghost promises = { λ delivering content status old new after. PrintsAnswer (λ cut shown. DeliversTo cut delivering.commands.items content shown after) old new (status_code status) };

    fn visit<T: Alter + Drop, W: Write>(
        self,
        alloc: Global,
        connection: Connection<T>,
        out: &mut W,
    ) -> (Status, Connection<T>, bool) {
        let Delivering { commands, room } = self;
        match Engine::open(alloc, connection) {
            Ok(mut engine) => {
                let status = send_each(alloc, &mut engine, &commands, room, out);
                let must_reopen = engine.must_reopen();
                (status, engine.close(), must_reopen)
            }
            Err((fault, connection)) => {
                let status = print_answer(out, opening_answer(alloc, fault));
                (status, connection, is_of_store(&fault))
            }
        }
    }
}

/// The commands of entries, with the bytes of their files, or the path of the first whose file isn't there.
fn commands_of<'a, H: Host>(
    alloc: Global,
    entries: &'a [ManifestEntry],
    host: &H,
) -> Result<Vec<Command>, ParseError<&'a FilePath>>
    ensures all { IfOk result (λ commands. AreCommandsOf (H.holds host.now) entries.now commands.items) }
    ensures missing { IfErr result (LacksInput (H.holds host.now) entries.now) }
{
    let mut commands = Vec::with_capacity(alloc, entries.len())?;
    for entry in entries {
        match command_from_file(
            alloc,
            entry.kind,
            entry.id.as_str(),
            entry.path.as_str(),
            host,
        )? {
            Some(command) => commands.push(command)?,
            None => return Err(ParseError::Fault(&entry.path)),
        }
    }
    Ok(commands)
}

/// Delivers commands to the warehouse in a file.
fn deliver_commands<H: Host, W: Write>(
    alloc: Global,
    file: &str,
    commands: Vec<Command>,
    host: &mut H,
    out: &mut W,
) -> Status
    ensures answers { (content : DatabaseContent) → H.stores host.old file.now (Rests content)
        → PrintsAnswer (λ cut. AnswersSent (H.refuses host.old) (H.stores host.new file.now) cut content file.now commands.items) (W.contents out.old) (W.contents out.new) (status_code result) }
    ensures others { SparesOthers (H.stores host.old) (H.stores host.new) (Some file.now) }
    ensures shut { H.shut host.old file.now → PrintsShut (host.new ≡ host.old) (IsNoFile file.now) (λ shown. Prints (W.contents out.old) (W.contents out.new) (status_code result) (printed shown)) }
{
    let Ok(room) = room_for_delivery(alloc, &commands) else {
        return print_answer(out, Err(AllocError));
    };
    match host.with_existing(alloc, file, Delivering { commands, room }, out) {
        Ok(status) => status,
        Err(HostError::NoFile) => print_answer(out, no_file(alloc, file)),
        Err(HostError::Memory) => print_answer(out, Err(AllocError)),
    }
}

/// Delivers the commands of entries, whose files are read first.
fn deliver_entries<H: Host, W: Write>(
    alloc: Global,
    file: &str,
    entries: &[ManifestEntry],
    host: &mut H,
    out: &mut W,
) -> Status
    ensures answers { (content : DatabaseContent) → H.stores host.old file.now (Rests content)
        → PrintsAnswer (λ cut. AnswersListed (H.holds host.old) (H.refuses host.old) (H.stores host.new file.now) cut content file.now entries.now) (W.contents out.old) (W.contents out.new) (status_code result) }
    ensures others { SparesOthers (H.stores host.old) (H.stores host.new) (Some file.now) }
    ensures shut { H.shut host.old file.now → PrintsShut (host.new ≡ host.old) (IsNoFileOr file.now (LacksEntry (H.holds host.old) entries.now)) (λ shown. Prints (W.contents out.old) (W.contents out.new) (status_code result) (printed shown)) }
{
    match commands_of(alloc, entries, host) {
        Ok(commands) => deliver_commands(alloc, file, commands, host, out),
        Err(ParseError::Fault(path)) => print_answer(out, no_file(alloc, path.as_str())),
        Err(ParseError::Memory) => print_answer(out, Err(AllocError)),
    }
}

/// Delivers the commands that these bytes of a manifest list.
fn deliver_listed<H: Host, W: Write>(
    alloc: Global,
    file: &str,
    text: &[u8],
    host: &mut H,
    out: &mut W,
) -> Status
    ensures answers { (content : DatabaseContent) → H.stores host.old file.now (Rests content)
        → PrintsAnswer (λ cut. AnswersRead (H.holds host.old) (H.refuses host.old) (H.stores host.new file.now) cut content file.now (manifest_of text.now)) (W.contents out.old) (W.contents out.new) (status_code result) }
    ensures others { SparesOthers (H.stores host.old) (H.stores host.new) (Some file.now) }
    ensures shut { H.shut host.old file.now → PrintsShut (host.new ≡ host.old) (IsNoFileOr file.now (LacksListed (H.holds host.old) (manifest_of text.now))) (λ shown. Prints (W.contents out.old) (W.contents out.new) (status_code result) (printed shown)) }
{
    match Manifest::read(alloc, text) {
        Ok(listed) => deliver_entries(alloc, file, listed.as_slice(), host, out),
        Err(ParseError::Fault(bad)) => print_answer(out, bad_manifest(alloc, bad)),
        Err(ParseError::Memory) => print_answer(out, Err(AllocError)),
    }
}

/// Delivers the commands that a manifest lists to the warehouse in a file, and prints the line of each reply as it comes. The
/// manifest is read first, and then its files.
pub fn deliver<H: Host, W: Write>(
    alloc: Global,
    file: &str,
    manifest: &str,
    host: &mut H,
    out: &mut W,
) -> Status
    ensures answers { (content : DatabaseContent) → H.stores host.old file.now (Rests content)
        → PrintsAnswer (λ cut. AnswersDelivery (H.holds host.old) (H.refuses host.old) (H.stores host.new file.now) cut content file.now manifest.now) (W.contents out.old) (W.contents out.new) (status_code result) }
    ensures others { SparesOthers (H.stores host.old) (H.stores host.new) (Some file.now) }
    ensures shut { H.shut host.old file.now → PrintsShut (host.new ≡ host.old) (IsNoFileOr file.now (LacksManifest (H.holds host.old) manifest.now)) (λ shown. Prints (W.contents out.old) (W.contents out.new) (status_code result) (printed shown)) }
{
    match manifest_file_of(alloc, manifest, host) {
        Ok(Some(text)) => deliver_listed(alloc, file, &text, host, out),
        Ok(None) => print_answer(out, no_file(alloc, manifest)),
        Err(AllocError) => print_answer(out, Err(AllocError)),
    }
}
