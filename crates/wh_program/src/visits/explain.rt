//! What an input would be answered, and why; or what a kind takes, or a policy is.

ghost use Rattle.std.specs.Prelude.{◌≡◌, Some, IfOk};
ghost use Rattle.wh_engine.specs.Previewed.{IsPreviewed};
ghost use Rattle.wh_engine.specs.Scanned.{EngineReadsThrough, WhenReady};
ghost use Rattle.wh_program.specs.Looking.{Looks};
ghost use Rattle.wh_program.specs.Explained.{IsExplained, IsDescribed, Explains, AnswersExplanation, IsPolicyExplained, LacksInputAsked};
ghost use Rattle.wh_program.specs.Inputs.{as_input};
ghost use Rattle.wh_words.specs.Given.{optional_text};
ghost use Rattle.wh_program.specs.Standing.{DatabaseContent, Rests};
ghost use Rattle.wh_program.specs.Warehouse.{AnswersWith, AnswersShut, IsNoFileOr, LacksFile};
ghost use Rattle.wh_program.specs.Tasks.{SparesOthers};

use crate::host::{Host, file_of};
use crate::lines::answer::Answer;
use crate::lines::explaining::{description_answer, explained, policy_described, policy_explained};
use crate::lines::no_file;
use crate::visits::opened::{Work, work_on};
use crate::visits::warehouse::input_of;
use sqlite::Alter;
use std::alloc::{AllocError, Global};
use wh_engine::{CommandKind, Engine, Fault, Preview, Refusal};
use wh_explain::{LeftOut, SentCommand, TracedLines, refused_lines, values_left_out};
use wh_plan::Edits;
use wh_policy::{Format, POLICY_LIMIT, Policy};
use wh_rows::tables;
use wh_store::Cursor;

/// The lines of a batch, with the kept commands that sold and withdrew them.
fn noted<S: Alter>(
    alloc: Global,
    engine: &mut Engine<S>,
    mut lines: TracedLines,
    bytes: &[u8],
) -> Result<Option<TracedLines>, Fault>
    ensures { EngineReadsThrough S.Store engine.old engine.new result }
{
    let mut cursor = Cursor::new(alloc);
    'commands: for _ in 0..u64::MAX {
        let Some(row) = engine.next_row::<tables::Command>(alloc, &mut cursor)? else {
            return Ok(Some(lines));
        };
        lines.note(alloc, engine.policy(), bytes, row)?;
    }
    Err(Fault::Memory)
}

/// The lines of a batch with these bytes, if it is refused for one of them.
fn lines_in<'a>(
    alloc: Global,
    why: &Refusal,
    kind: CommandKind,
    policy: &'a Policy,
    format: Format,
    bytes: &'a [u8],
) -> Result<Option<TracedLines>, AllocError> {
    let sent = SentCommand {
        kind,
        policy,
        format,
        bytes,
        lines: None,
        left_out: None,
    };
    refused_lines(alloc, why, &sent)
}

/// The lines of a batch with these bytes, if it is refused for one of them, and the commands that sold and withdrew them.
fn lines_of<S: Alter>(
    alloc: Global,
    engine: &mut Engine<S>,
    why: &Refusal,
    kind: CommandKind,
    bytes: &[u8],
) -> Result<Option<TracedLines>, Fault>
    ensures { EngineReadsThrough S.Store engine.old engine.new result }
{
    match lines_in(alloc, why, kind, engine.policy(), engine.format(), bytes)? {
        Some(lines) => noted(alloc, engine, lines, bytes),
        None => Ok(None),
    }
}

/// Records that leave values out, with the kept records of their members.
fn compared<S: Alter>(
    alloc: Global,
    engine: &mut Engine<S>,
    mut left_out: LeftOut,
) -> Result<Option<LeftOut>, Fault>
    ensures { EngineReadsThrough S.Store engine.old engine.new result }
{
    let mut cursor = Cursor::new(alloc);
    'records: for _ in 0..u64::MAX {
        let Some(row) = engine.next_row::<tables::Change>(alloc, &mut cursor)? else {
            return Ok(Some(left_out));
        };
        left_out.note(&row);
    }
    Err(Fault::Memory)
}

/// The records that leave values out in a batch that would write this, with the kept records of their members.
fn left_out_of<S: Alter>(
    alloc: Global,
    engine: &mut Engine<S>,
    kind: CommandKind,
    edits: &Edits,
) -> Result<Option<LeftOut>, Fault>
    ensures { EngineReadsThrough S.Store engine.old engine.new result }
{
    match values_left_out(alloc, kind, engine.policy(), &edits.changes)? {
        Some(left_out) => compared(alloc, engine, left_out),
        None => Ok(None),
    }
}

/// What these bytes would be answered; of refused lines the commands that sold and withdrew them, and of records that leave values
/// out the kept records of their members. Where kept rows can't be read, that is told in place of the answer.
fn traced<S: Alter>(
    alloc: Global,
    engine: &mut Engine<S>,
    kind: CommandKind,
    bytes: &[u8],
) -> (Result<Preview, Fault>, Option<TracedLines>, Option<LeftOut>)
    ensures looks { Looks S.Store engine.old engine.new }
    ensures previewed { WhenReady S.Store engine.old engine.new (λ limits commands. IsPreviewed limits commands kind bytes.now result.0) }
{
    match engine.preview(alloc, kind, bytes) {
        Ok(preview) => match left_out_of(alloc, engine, kind, &preview.edits) {
            Ok(left_out) => (Ok(preview), None, left_out),
            Err(fault) => (Err(fault), None, None),
        },
        Err(Fault::Refused(why)) => match lines_of(alloc, engine, &why, kind, bytes) {
            Ok(lines) => (Err(Fault::Refused(why)), lines, None),
            Err(unread) => (Err(unread), None, None),
        },
        Err(fault) => (Err(fault), None, None),
    }
}

/// Explains what these bytes would be answered, as the input of a command of this kind.
#[derive(Drop)]
struct Explaining {
    kind: CommandKind,
    bytes: Vec<u8>,
}

impl Work for Explaining {
    ghost does = { λ explaining. IsExplained explaining.kind explaining.bytes.items };

    fn work<S: Alter>(self, alloc: Global, engine: &mut Engine<S>) -> Result<Answer, AllocError> {
        let (preview, lines, left_out) = traced(alloc, engine, self.kind, &self.bytes);
        let sent = SentCommand {
            kind: self.kind,
            policy: engine.policy(),
            format: engine.format(),
            bytes: &self.bytes,
            lines,
            left_out,
        };
        explained(alloc, preview, &sent)
    }
}

/// Describes what a command of this kind takes.
#[derive(Clone, Copy, Drop)]
struct Describing {
    kind: CommandKind,
}

impl Work for Describing {
    ghost does = { λ describing. IsDescribed describing.kind };

    fn work<S: Alter>(self, alloc: Global, engine: &mut Engine<S>) -> Result<Answer, AllocError> {
        description_answer(alloc, self.kind, engine.policy(), engine.format())
    }
}

/// Explains the input in a file, which is read first.
fn explain_input<H: Host>(
    alloc: Global,
    file: &str,
    kind: CommandKind,
    path: &str,
    host: &mut H,
) -> Result<Answer, AllocError>
    ensures answers { (content : DatabaseContent) → H.stores host.old file.now (Rests content)
        → AnswersWith (as_input kind (H.holds host.old)) (H.refuses host.old) (H.stores host.new file.now) (Explains kind) content file.now path.now result }
    ensures others { SparesOthers (H.stores host.old) (H.stores host.new) (Some file.now) }
    ensures shut { H.shut host.old file.now → AnswersShut (host.new ≡ host.old) (IsNoFileOr file.now (LacksFile (as_input kind (H.holds host.old)) path.now)) result }
{
    let Some(bytes) = input_of(alloc, kind, path, host)? else {
        return no_file(alloc, path);
    };
    work_on(alloc, file, Explaining { kind, bytes }, host)
}

/// Tells what the input in a file would be answered by the warehouse in another, and why; or, with no input, what the kind takes there.
pub fn explain<H: Host>(
    alloc: Global,
    file: &str,
    kind: CommandKind,
    path: Option<&str>,
    host: &mut H,
) -> Result<Answer, AllocError>
    ensures answers { (content : DatabaseContent) → H.stores host.old file.now (Rests content)
        → AnswersExplanation (H.holds host.old) (H.refuses host.old) (H.stores host.new file.now) content file.now kind (optional_text path.entry) result }
    ensures others { SparesOthers (H.stores host.old) (H.stores host.new) (Some file.now) }
    ensures shut { H.shut host.old file.now → AnswersShut (host.new ≡ host.old) (IsNoFileOr file.now (LacksInputAsked (H.holds host.old) kind (optional_text path.entry))) result }
{
    match path {
        Some(path) => explain_input(alloc, file, kind, path, host),
        None => work_on(alloc, file, Describing { kind }, host),
    }
}

/// Explains the policy in a file, without a warehouse.
fn explain_policy<H: Host>(alloc: Global, path: &str, host: &H) -> Result<Answer, AllocError>
    ensures { IfOk result (IsPolicyExplained (H.holds host.now) (Some path.now)) }
{
    let Some(bytes) = file_of(alloc, path, POLICY_LIMIT, host)? else {
        return no_file(alloc, path);
    };
    policy_explained(alloc, &bytes)
}

/// Tells whether `init` would take the policy in a file, and why not; or, with no file, what any policy is. No warehouse is looked for.
pub fn explain_init<H: Host>(
    alloc: Global,
    path: Option<&str>,
    host: &H,
) -> Result<Answer, AllocError>
    ensures { IfOk result (IsPolicyExplained (H.holds host.now) (optional_text path.entry)) }
{
    match path {
        Some(path) => explain_policy(alloc, path, host),
        None => policy_described(alloc),
    }
}
