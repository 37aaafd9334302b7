//! The commands on a warehouse in a file.

ghost use Rattle.std.specs.Prelude.{◌≡◌, ◌≤◌, IfOk, IfErr, option_map, vec_capacity, Some};
ghost use Rattle.wh_program.specs.Answer.{failed, no_file_line};
ghost use Rattle.wh_program.specs.Inputs.{up_to, policy_limit, as_input};
ghost use Rattle.wh_program.specs.Room.{longest_answer};
ghost use Rattle.wh_program.specs.Standing.{DatabaseContent, Standing, Rests};
ghost use Rattle.wh_program.specs.Warehouse.{IsReplied, IsRepliedOver, IsForetold, IsCounted, IsCommandOf, Makes, Sends, Plans, AnswersWith, AnswersCommand, AnswersUpgrade, AnswersMaking, AnswersStatus, IsJudgedFirst, AnswersShut, IsNoFile, IsNoFileOr, LacksFile, LacksPolicy};
ghost use Rattle.wh_program.specs.declared.host.HostError.TheVariants.{NoFile};
ghost use Rattle.wh_program.specs.Tasks.{SparesOthers};

use crate::host::{Host, HostError, Visitor, file_of};
use crate::limits::input_limit;
use crate::lines::answer::Answer;
use crate::lines::{
    bad_policy, made, making_answer, no_file, plan_answer, room_for_line, room_for_receipt,
    sent_answer, status_answer,
};
use crate::visits::opened::{Work, work_on};
use sqlite::{Alter, Connection};
use sqlite_value::value::Bytes;
use std::alloc::{AllocError, Global};
use std::io;
use std::io::Write;
use wh_day::{ParseError, Value};
use wh_engine::{Command, CommandKind, Engine, InitFault};
use wh_policy::{POLICY_LIMIT, Policy};
use wh_rows::Limits;

/// Whether it was the database that refused a making.
fn is_stopped(fault: &InitFault) -> bool {
    matches!(fault, InitFault::Store(_))
}

/// Makes a warehouse under the policy that these bytes write.
#[derive(Drop)]
struct Making {
    policy: Vec<u8>,
}

impl Visitor for Making {
    type Output = Result<Answer, AllocError>;

    ghost promises = { λ making content shown old new after. Makes making.policy.items content shown after };

    fn visit<T: Alter + Drop, W: Write>(
        self,
        alloc: Global,
        connection: Connection<T>,
        _out: &mut W,
    ) -> (Result<Answer, AllocError>, Connection<T>, bool) {
        // The room is there before anything is written, so that no memory is wanted once the warehouse is made.
        let Ok(room) = room_for_line(alloc) else {
            return (Err(AllocError), connection, false);
        };
        match Engine::init(alloc, connection, &self.policy, Limits::greatest()) {
            Ok(engine) => (made(room), engine.close(), false),
            Err((fault, connection)) => {
                let answer = making_answer(room, &fault);
                (answer, connection, is_stopped(&fault))
            }
        }
    }
}

/// Sends a command to a warehouse.
#[derive(Drop)]
struct Sending {
    command: Command,
    /// Room for the line of its answer.
    room: Vec<u8>,
}

impl Work for Sending {
    // Of one with room for that line.
    ghost does = { λ sending limits commands shown after. longest_answer sending.command.id ≤ vec_capacity sending.room → IsReplied sending.command limits commands shown after };

    ghost over = { λ sending content shown after. longest_answer sending.command.id ≤ vec_capacity sending.room → IsRepliedOver sending.command content shown after };

    fn work<S: Alter>(self, alloc: Global, engine: &mut Engine<S>) -> Result<Answer, AllocError> {
        let reply = engine.apply(alloc, &self.command);
        sent_answer(self.room, self.command.id.as_str(), &reply)
    }
}

/// Foretells what a command would write into a warehouse.
#[derive(Drop)]
struct Planning {
    command: Command,
}

impl Work for Planning {
    ghost does = { λ planning. IsForetold planning.command };

    fn work<S: Alter>(self, alloc: Global, engine: &mut Engine<S>) -> Result<Answer, AllocError> {
        let edits = engine.plan(alloc, &self.command);
        plan_answer(alloc, edits)
    }
}

/// Counts what a warehouse holds.
#[derive(Clone, Copy)]
struct Counting;

impl Work for Counting {
    ghost does = { λ _. IsCounted };

    fn work<S: Alter>(self, alloc: Global, engine: &mut Engine<S>) -> Result<Answer, AllocError> {
        let counts = engine.counts(alloc);
        status_answer(alloc, counts)
    }
}

/// The answer of a visit, or that the host refuses the file's name.
pub fn answered(
    alloc: Global,
    file: &str,
    visit: Result<Result<Answer, AllocError>, HostError>,
) -> Result<Answer, AllocError>
    ensures visited { IfOk visit (λ shown. result ≡ shown) }
    ensures not_visited { IfErr visit (λ e. IfOk result (λ answer. (e ≡ NoFile) × (answer ≡ failed (no_file_line file.now)))) }
{
    match visit {
        Ok(answer) => answer,
        Err(HostError::NoFile) => no_file(alloc, file),
        Err(HostError::Memory) => Err(AllocError),
    }
}

/// Makes the warehouse in a file, under the policy that these bytes write.
fn init_under<H: Host>(
    alloc: Global,
    file: &str,
    policy: Vec<u8>,
    host: &mut H,
) -> Result<Answer, AllocError>
    ensures answers { (content : DatabaseContent) → H.stores host.old file.now (Rests content) → AnswersMaking (H.refuses host.old) (H.stores host.new file.now) content file.now policy.items result }
    ensures others { SparesOthers (H.stores host.old) (H.stores host.new) (Some file.now) }
    ensures shut { H.shut host.old file.now → AnswersShut (host.new ≡ host.old) (IsNoFile file.now) result }
{
    let visit = host.with_connection(alloc, file, Making { policy }, &mut io::sink());
    answered(alloc, file, visit)
}

/// Makes the warehouse in a file, under the policy in another, which is read and judged first: under a bad one nothing is connected.
pub fn init<H: Host>(
    alloc: Global,
    file: &str,
    policy: &str,
    host: &mut H,
) -> Result<Answer, AllocError>
    ensures made { (content : DatabaseContent) → H.stores host.old file.now (Rests content)
        → AnswersWith (up_to policy_limit (H.holds host.old)) (H.refuses host.old) (H.stores host.new file.now) Makes content file.now policy.now result }
    ensures judged { IsJudgedFirst (up_to policy_limit (H.holds host.old)) (host.new ≡ host.old) policy.now result }
    ensures others { SparesOthers (H.stores host.old) (H.stores host.new) (Some file.now) }
    ensures shut { H.shut host.old file.now → AnswersShut (host.new ≡ host.old) (IsNoFileOr file.now (LacksPolicy (up_to policy_limit (H.holds host.old)) policy.now)) result }
{
    let Some(text) = file_of(alloc, policy, POLICY_LIMIT, host)? else {
        return no_file(alloc, policy);
    };
    match Policy::read(alloc, &text) {
        Ok(_) => init_under(alloc, file, text, host),
        Err(ParseError::Fault(fault)) => bad_policy(alloc, fault),
        Err(ParseError::Memory) => Err(AllocError),
    }
}

/// The input's bytes, read to its limit, if its file is there; none for an upgrade, which reads no file.
pub fn input_of<H: Host>(
    alloc: Global,
    kind: CommandKind,
    path: &str,
    host: &H,
) -> Result<Option<Vec<u8>>, AllocError>
    ensures { IfOk result (λ input. as_input kind (H.holds host.now) path.now (option_map (λ bytes. bytes.items) input)) }
{
    match input_limit(kind) {
        Some(most) => file_of(alloc, path, most, host),
        None => Ok(Some(Vec::new(alloc))),
    }
}

/// A command of these bytes.
fn new_command(
    alloc: Global,
    kind: CommandKind,
    id: &str,
    bytes: &[u8],
) -> Result<Command, AllocError>
    ensures { IfOk result (λ command. command ≡ record { id = id.now; kind = kind; bytes = bytes.now }) }
{
    Ok(Command {
        id: Value::new(alloc, id)?,
        kind,
        bytes: Bytes::from_slice(alloc, bytes)?,
    })
}

/// The command whose batch, or whose policy, is in a file, if the file is there. An upgrade needs none.
pub fn command_from_file<H: Host>(
    alloc: Global,
    kind: CommandKind,
    id: &str,
    path: &str,
    host: &H,
) -> Result<Option<Command>, AllocError>
    ensures { IfOk result (IsCommandOf (H.holds host.now) kind id.now path.now) }
{
    let Some(text) = input_of(alloc, kind, path, host)? else {
        return Ok(None);
    };
    Ok(Some(new_command(alloc, kind, id, &text)?))
}

/// Sends a command to the warehouse in a file.
fn send_command<H: Host>(
    alloc: Global,
    file: &str,
    command: Command,
    host: &mut H,
) -> Result<Answer, AllocError>
    ensures answers { (content : DatabaseContent) → H.stores host.old file.now (Rests content) → AnswersCommand (H.refuses host.old) (H.stores host.new file.now) content file.now command result }
    ensures others { SparesOthers (H.stores host.old) (H.stores host.new) (Some file.now) }
    ensures shut { H.shut host.old file.now → AnswersShut (host.new ≡ host.old) (IsNoFile file.now) result }
{
    let room = room_for_receipt(alloc, command.id.as_str())?;
    work_on(alloc, file, Sending { command, room }, host)
}

/// Sends the command in one file to the warehouse in another: loads its batch, or puts its policy in force. The command's file is read first.
pub fn send<H: Host>(
    alloc: Global,
    file: &str,
    kind: CommandKind,
    id: &str,
    path: &str,
    host: &mut H,
) -> Result<Answer, AllocError>
    ensures answers { (content : DatabaseContent) → H.stores host.old file.now (Rests content)
        → AnswersWith (as_input kind (H.holds host.old)) (H.refuses host.old) (H.stores host.new file.now) (Sends kind id.now) content file.now path.now result }
    ensures others { SparesOthers (H.stores host.old) (H.stores host.new) (Some file.now) }
    ensures shut { H.shut host.old file.now → AnswersShut (host.new ≡ host.old) (IsNoFileOr file.now (LacksFile (as_input kind (H.holds host.old)) path.now)) result }
{
    let Some(command) = command_from_file(alloc, kind, id, path, host)? else {
        return no_file(alloc, path);
    };
    send_command(alloc, file, command, host)
}

/// Sends the warehouse in a file an upgrade to the second format.
pub fn upgrade<H: Host>(
    alloc: Global,
    file: &str,
    id: &str,
    host: &mut H,
) -> Result<Answer, AllocError>
    ensures answers { (content : DatabaseContent) → H.stores host.old file.now (Rests content) → AnswersUpgrade (H.refuses host.old) (H.stores host.new file.now) content file.now id.now result }
    ensures others { SparesOthers (H.stores host.old) (H.stores host.new) (Some file.now) }
    ensures shut { H.shut host.old file.now → AnswersShut (host.new ≡ host.old) (IsNoFile file.now) result }
{
    let upgrade = new_command(alloc, CommandKind::Upgrade, id, &[])?;
    send_command(alloc, file, upgrade, host)
}

/// Tells what the command in a file, or an upgrade, would write into the warehouse in another, and writes nothing.
pub fn plan<H: Host>(
    alloc: Global,
    file: &str,
    kind: CommandKind,
    id: &str,
    path: &str,
    host: &mut H,
) -> Result<Answer, AllocError>
    ensures answers { (content : DatabaseContent) → H.stores host.old file.now (Rests content)
        → AnswersWith (as_input kind (H.holds host.old)) (H.refuses host.old) (H.stores host.new file.now) (Plans kind id.now) content file.now path.now result }
    ensures others { SparesOthers (H.stores host.old) (H.stores host.new) (Some file.now) }
    ensures shut { H.shut host.old file.now → AnswersShut (host.new ≡ host.old) (IsNoFileOr file.now (LacksFile (as_input kind (H.holds host.old)) path.now)) result }
{
    let Some(command) = command_from_file(alloc, kind, id, path, host)? else {
        return no_file(alloc, path);
    };
    work_on(alloc, file, Planning { command }, host)
}

/// Tells how much the warehouse in a file holds.
pub fn status<H: Host>(alloc: Global, file: &str, host: &mut H) -> Result<Answer, AllocError>
    ensures answers { (content : DatabaseContent) → H.stores host.old file.now (Rests content) → AnswersStatus (H.refuses host.old) (H.stores host.new file.now) content file.now result }
    ensures others { SparesOthers (H.stores host.old) (H.stores host.new) (Some file.now) }
    ensures shut { H.shut host.old file.now → AnswersShut (host.new ≡ host.old) (IsNoFile file.now) result }
{
    work_on(alloc, file, Counting, host)
}
