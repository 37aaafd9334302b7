//! What the words of the command line ask for.

ghost use Rattle.std.specs.Prelude.{◌≡◌, IfOk, IsErr, Some, Ok, Err, map, true};
ghost use Rattle.clap.specs.Words.{FailsBy, HasKind, Kinds, subcommand_rows_of, kind_of, subcommand_of};
ghost use Rattle.clap.specs.declared.error.ErrorKind.TheVariants.{OutOfMemory};
ghost use Rattle.wh_rows.specs.Names.{table_of_name};
ghost use Rattle.wh_words.specs.Asked.{asked_by, asked_of, asked_to, faults_in};
ghost use Rattle.wh_words.specs.CommandLine.{CommandLine, has_operands, program_app, words_of};
ghost use Rattle.wh_words.specs.Given.{as_number, given_in, optional_text, word_for};
ghost use Rattle.wh_words.specs.Request.{asked_in, Asks, IsDeclined, IsReadAs};
ghost use Rattle.wh_words.specs.Task.{FILE, Over, asks_of, command_of, deliver_command, dump_command, explain_command, from_asked, init_command, load_command, migrate_command, plan_command, queries_command, records_command, report_command, reports_command, trial_command, upgrade_command, work_in};
ghost use Rattle.wh_words.specs.WrongWord.{wrong_word_line};

use crate::app::program_app;
use crate::given::{optional_word, word_for};
use crate::query::{AskedQuery, query_request};
use crate::wrong_word::{
    COMMAND_KINDS, DIMENSIONS, EXPLAINED_KINDS, KINDS, MODES, NO_COMMAND_LINE, NUMBERS, TABLES,
    wrong_word_line,
};
use clap::ArgMatches;
use clap::error::ErrorKind;
use std::alloc::{AllocError, Global};
use std::convert::AsStr;
use wh_batch::{BatchKind, CommandKind, Mode, read_number};
use wh_policy::Dim;
use wh_rows::Table;

/// What is to be done with the warehouse in a file.
#[derive(Debug, Drop)]
pub enum Work<'a> {
    /// What the input in the file `path` would be answered under a new id, and why; or what a kind takes.
    Explain {
        kind: CommandKind,
        path: Option<&'a str>,
    },
    /// Whether a warehouse could be made under the policy in a file, and why not; or what a policy is. Nothing is asked of the warehouse.
    ExplainInit {
        policy: Option<&'a str>,
    },
    /// The records that carry a dimension's members to another file, from the one of this number on.
    Records {
        dim: Dim,
        from: u32,
    },
    /// What was sold, by some attributes, for a slice of the sales.
    Query(AskedQuery<'a>),
    /// Its making, under the policy in a file.
    Init {
        policy: &'a str,
    },
    /// The load of the batch in the file `path`, under an id.
    Load {
        kind: BatchKind,
        id: &'a str,
        path: &'a str,
    },
    /// Its migration to the policy in a file, under an id.
    Migrate {
        id: &'a str,
        policy: &'a str,
    },
    /// Its upgrade to the second format, under an id.
    Upgrade {
        id: &'a str,
    },
    /// The delivery of the commands that the file `manifest` lists.
    Deliver {
        manifest: &'a str,
    },
    /// What was sold, by an attribute.
    Report(AskedReport<'a>),
    /// The reports that the file `list` lists.
    Reports {
        list: &'a str,
    },
    /// The queries that the file `list` lists.
    Queries {
        list: &'a str,
    },
    /// A table of it.
    Dump(Table),
    /// The SQL of views over it.
    Views,
    /// How much it holds.
    Status,
    /// The answers to the commands of standard input, over one open of its file.
    Session,
    /// What a load, a migration or an upgrade would write.
    Plan {
        kind: CommandKind,
        id: &'a str,
        path: &'a str,
    },
    /// Whether it is what its commands define.
    Check,
}

/// What a command is to do.
#[derive(Debug, Drop)]
pub enum Task<'a> {
    /// A dimension's table as the batch in the file `path` makes it, under the policy in a file or the trial's own.
    Trial {
        dim: Dim,
        path: &'a str,
        policy: Option<&'a str>,
    },
    /// Work over the warehouse in `file`.
    Over {
        file: &'a str,
        work: Work<'a>,
    },
}

/// The words of a report. Only the mode was looked at.
#[derive(Clone, Copy, Debug, Drop)]
pub struct AskedReport<'a> {
    /// What the sales are summed by.
    pub attribute: &'a str,
    /// The mode.
    pub mode: Mode,
    /// The first day, as it was given.
    pub from: &'a str,
    /// The last day, as it was given.
    pub to: &'a str,
}

/// What the words ask for.
#[derive(Debug, Drop)]
pub enum Request<'a> {
    Task(Task<'a>),
    /// Help, or the version, that was asked for.
    Help(String),
    /// What is wrong with the words.
    Usage(String),
}

/// What `clap` finds in the words. Where it finds no fault in them, it is refused memory alone.
fn matches_of<'a, S: AsStr>(alloc: Global, words: &'a [S]) -> Result<ArgMatches<'a>, clap::Error>
    ensures ok { IfOk result (λ matches. subcommand_rows_of matches ≡ subcommand_of program_app (map S.text words.now)) }
    ensures faults { FailsBy (faults_in (map S.text words.now)) result }
{
    program_app(alloc)?.try_get_matches_from(words)
}

/// The request that an error of `clap` stands for: help, the version, or a mistake in the words.
fn declined<'a>(alloc: Global, error: &clap::Error) -> Result<Request<'a>, AllocError>
    ensures memory { kind_of error.now ≡ OutOfMemory → IsErr result }
    ensures declined { (faults : Kinds) → HasKind faults error.now → IfOk result (IsDeclined faults) }
{
    match error.kind() {
        ErrorKind::OutOfMemory => Err(AllocError),
        ErrorKind::DisplayHelp | ErrorKind::DisplayVersion => {
            Ok(Request::Help(error.to_string(alloc)?))
        }
        _ => Ok(Request::Usage(error.to_string(alloc)?)),
    }
}

pub(crate) fn mistake<'a>(alloc: Global, line: &str) -> Result<Request<'a>, AllocError>
    ensures { IfOk result (λ request. asked_in request ≡ Some (Err line.now)) }
{
    Ok(Request::Usage(String::from_str(alloc, line)?))
}

/// The mistake of a word that is none of those that are possible for the operand.
pub(crate) fn wrong_word<'a>(
    alloc: Global,
    operand: &str,
    word: &str,
    possible: &str,
) -> Result<Request<'a>, AllocError>
    ensures { IfOk result (λ request. asked_in request ≡ Some (Err (wrong_word_line operand.now word.now possible.now))) }
{
    let line = wrong_word_line(alloc, operand, word, possible)?;
    Ok(Request::Usage(line))
}

/// This work over the warehouse in FILE.
pub(crate) fn over<'a>(given: &ArgMatches<'a>, work: Work<'a>) -> Request<'a>
    ensures { asked_in result ≡ Some (Ok (Over (word_for (given_in given.now) FILE) (work_in work.entry))) }
{
    Request::Task(Task::Over {
        file: word_for(given, "FILE"),
        work,
    })
}

/// The trial of a batch of a dimension.
fn trial_request<'a>(alloc: Global, given: &ArgMatches<'a>) -> Result<Request<'a>, AllocError>
    ensures { IfOk result (λ request. asked_in request ≡ Some (asks_of trial_command (given_in given.now))) }
{
    let dimension = word_for(given, "DIMENSION");
    match Dim::from_word(dimension) {
        Some(dim) => Ok(Request::Task(Task::Trial {
            dim,
            path: word_for(given, "CSV"),
            policy: optional_word(given, "POLICY"),
        })),
        None => wrong_word(alloc, "DIMENSION", dimension, DIMENSIONS),
    }
}

/// The explanation of what a command of a kind takes, or of the policy that makes a warehouse.
fn explain_request<'a>(alloc: Global, given: &ArgMatches<'a>) -> Result<Request<'a>, AllocError>
    ensures { IfOk result (λ request. asked_in request ≡ Some (asks_of explain_command (given_in given.now))) }
{
    let kind = word_for(given, "KIND");
    let path = optional_word(given, "INPUT");
    if kind == "init" {
        return Ok(over(given, Work::ExplainInit { policy: path }));
    }
    match CommandKind::from_word(kind) {
        Some(kind) => Ok(over(given, Work::Explain { kind, path })),
        None => wrong_word(alloc, "KIND", kind, EXPLAINED_KINDS),
    }
}

/// The number of the first record that is wanted: 0 where none is given. Or the word that is no number.
fn from_asked<'a>(word: Option<&'a str>) -> Result<u32, &'a str>
    ensures { as_number result ≡ from_asked (optional_text word.entry) }
{
    let Some(word) = word else {
        return Ok(0);
    };
    match read_number(word.as_bytes()) {
        Some(number) => Ok(number),
        None => Err(word),
    }
}

/// The records of a dimension, from one on.
fn records_request<'a>(alloc: Global, given: &ArgMatches<'a>) -> Result<Request<'a>, AllocError>
    ensures { IfOk result (λ request. asked_in request ≡ Some (asks_of records_command (given_in given.now))) }
{
    let dimension = word_for(given, "DIMENSION");
    let Some(dim) = Dim::from_word(dimension) else {
        return wrong_word(alloc, "DIMENSION", dimension, DIMENSIONS);
    };
    match from_asked(optional_word(given, "FROM")) {
        Ok(from) => Ok(over(given, Work::Records { dim, from })),
        Err(word) => wrong_word(alloc, "FROM", word, NUMBERS),
    }
}

fn init_request<'a>(given: &ArgMatches<'a>) -> Request<'a>
    ensures { asked_in result ≡ Some (asks_of init_command (given_in given.now)) }
{
    over(
        given,
        Work::Init {
            policy: word_for(given, "POLICY"),
        },
    )
}

/// The load of a batch of a kind.
fn load_request<'a>(alloc: Global, given: &ArgMatches<'a>) -> Result<Request<'a>, AllocError>
    ensures { IfOk result (λ request. asked_in request ≡ Some (asks_of load_command (given_in given.now))) }
{
    let kind = word_for(given, "KIND");
    match BatchKind::from_word(kind) {
        Some(kind) => Ok(over(
            given,
            Work::Load {
                kind,
                id: word_for(given, "ID"),
                path: word_for(given, "CSV"),
            },
        )),
        None => wrong_word(alloc, "KIND", kind, KINDS),
    }
}

fn migrate_request<'a>(given: &ArgMatches<'a>) -> Request<'a>
    ensures { asked_in result ≡ Some (asks_of migrate_command (given_in given.now)) }
{
    over(
        given,
        Work::Migrate {
            id: word_for(given, "ID"),
            policy: word_for(given, "POLICY"),
        },
    )
}

fn upgrade_request<'a>(given: &ArgMatches<'a>) -> Request<'a>
    ensures { asked_in result ≡ Some (asks_of upgrade_command (given_in given.now)) }
{
    over(
        given,
        Work::Upgrade {
            id: word_for(given, "ID"),
        },
    )
}

fn deliver_request<'a>(given: &ArgMatches<'a>) -> Request<'a>
    ensures { asked_in result ≡ Some (asks_of deliver_command (given_in given.now)) }
{
    over(
        given,
        Work::Deliver {
            manifest: word_for(given, "MANIFEST"),
        },
    )
}

/// The report in a mode.
fn report_request<'a>(alloc: Global, given: &ArgMatches<'a>) -> Result<Request<'a>, AllocError>
    ensures { IfOk result (λ request. asked_in request ≡ Some (asks_of report_command (given_in given.now))) }
{
    let mode = word_for(given, "MODE");
    match Mode::from_word(mode) {
        Some(mode) => Ok(over(
            given,
            Work::Report(AskedReport {
                attribute: word_for(given, "ATTRIBUTE"),
                mode,
                from: word_for(given, "FROM"),
                to: word_for(given, "TO"),
            }),
        )),
        None => wrong_word(alloc, "MODE", mode, MODES),
    }
}

fn reports_request<'a>(given: &ArgMatches<'a>) -> Request<'a>
    ensures { asked_in result ≡ Some (asks_of reports_command (given_in given.now)) }
{
    over(
        given,
        Work::Reports {
            list: word_for(given, "LIST"),
        },
    )
}

fn queries_request<'a>(given: &ArgMatches<'a>) -> Request<'a>
    ensures { asked_in result ≡ Some (asks_of queries_command (given_in given.now)) }
{
    over(
        given,
        Work::Queries {
            list: word_for(given, "LIST"),
        },
    )
}

/// The table of a name.
fn table_of_name(name: &str) -> Option<Table>
    ensures { result ≡ table_of_name name.now }
{
    Table::from_name(name)
}

/// The dump of a table.
fn dump_request<'a>(alloc: Global, given: &ArgMatches<'a>) -> Result<Request<'a>, AllocError>
    ensures { IfOk result (λ request. asked_in request ≡ Some (asks_of dump_command (given_in given.now))) }
{
    let table = word_for(given, "TABLE");
    match table_of_name(table) {
        Some(table) => Ok(over(given, Work::Dump(table))),
        None => wrong_word(alloc, "TABLE", table, TABLES),
    }
}

/// The plan of a command of a kind.
fn plan_request<'a>(alloc: Global, given: &ArgMatches<'a>) -> Result<Request<'a>, AllocError>
    ensures { IfOk result (λ request. asked_in request ≡ Some (asks_of plan_command (given_in given.now))) }
{
    let kind = word_for(given, "KIND");
    match CommandKind::from_word(kind) {
        Some(kind) => Ok(over(
            given,
            Work::Plan {
                kind,
                id: word_for(given, "ID"),
                path: word_for(given, "INPUT"),
            },
        )),
        None => wrong_word(alloc, "KIND", kind, COMMAND_KINDS),
    }
}

/// What the command of a name asks for.
#[tactic(auto, unfolding(crate::specs::Task::command_of))]
fn asked_to<'a>(
    alloc: Global,
    name: &str,
    given: &ArgMatches<'a>,
) -> Result<Request<'a>, AllocError>
    ensures { IfOk result (λ request. asked_in request ≡ Some (asked_to (command_of name.now) (given_in given.now))) }
{
    match name {
        "trial" => trial_request(alloc, given),
        "explain" => explain_request(alloc, given),
        "records" => records_request(alloc, given),
        "query" => query_request(alloc, given),
        "init" => Ok(init_request(given)),
        "load" => load_request(alloc, given),
        "migrate" => Ok(migrate_request(given)),
        "upgrade" => Ok(upgrade_request(given)),
        "deliver" => Ok(deliver_request(given)),
        "report" => report_request(alloc, given),
        "reports" => Ok(reports_request(given)),
        "queries" => Ok(queries_request(given)),
        "dump" => dump_request(alloc, given),
        "views" => Ok(over(given, Work::Views)),
        "status" => Ok(over(given, Work::Status)),
        "session" => Ok(over(given, Work::Session)),
        "plan" => plan_request(alloc, given),
        "check" => Ok(over(given, Work::Check)),
        _ => mistake(alloc, NO_COMMAND_LINE),
    }
}

/// What the command asks for that `clap` met.
fn requested<'a>(alloc: Global, matches: &ArgMatches<'a>) -> Result<Request<'a>, AllocError>
    ensures { IfOk result (λ request. asked_in request ≡ Some (asked_of (subcommand_rows_of matches.now))) }
{
    match matches.subcommand() {
        Some((name, given)) => asked_to(alloc, name, given),
        None => mistake(alloc, NO_COMMAND_LINE),
    }
}

/// What the words after the program's name ask for.
pub fn parse<'a, S: AsStr>(alloc: Global, words: &'a [S]) -> Result<Request<'a>, AllocError>
    // The words of a command ask for what it is to do.
    ensures said { IfOk result (λ request. (line : CommandLine) → map S.text words.now ≡ words_of line → has_operands line ≡ true → Asks line request) }
    // Any words ask for what clap reads in them, or are declined.
    ensures read { IfOk result (IsReadAs (asked_by (map S.text words.now)) (faults_in (map S.text words.now))) }
{
    match matches_of(alloc, words) {
        Ok(matches) => requested(alloc, &matches),
        Err(error) => declined(alloc, &error),
    }
}
