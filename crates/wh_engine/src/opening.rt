//! Making a warehouse, and opening one.

ghost use Rattle.std.specs.Prelude.{◌≡◌, ◌≢◌, true, false, [], ◌∷◌, slice_get, None, Some, Ok, Err, IfOk, IfErr, OnOk, IsTrue, ⊤};
ghost use Rattle.sqlite.specs.Held.{state};
ghost use Rattle.sqlite.specs.State.{HasCleanDisk};
ghost use Rattle.wh_policy.specs.Policy.{read_policy};
ghost use Rattle.wh_rows.specs.AtRest.{IsAtRest};
ghost use Rattle.wh_sql.specs.Answers.{Spares, has_second, has_tables, is_any_taken, state_of, SaysAtRest, SaysAsStored};
ghost use Rattle.wh_store.specs.Opening.{IsServed, SparesStore};
ghost use Rattle.wh_policy.specs.declared.format.Format.TheVariants.{Two};
ghost use Rattle.wh_policy.specs.Formats.{is_two};
ghost use Rattle.wh_store.specs.Raw.{FormatIs};
ghost use Rattle.wh_rows.specs.Raw.{RestsOn, LeavesStored};
ghost use Rattle.wh_engine.specs.Answered.{Rests, IsReady};
ghost use Rattle.wh_plan.specs.FirstRows.{IsGoodPolicy};
ghost use Rattle.wh_model.specs.Sound.{init_of};
ghost use Rattle.wh_engine.specs.Opened.{of_command, last_policy_in, session_in, opened, IsAsSaid, IsRead, PolicyIs, IsPolicyless, SessionIs, IsSessionless, IsUnopened, IsNotOpened, LeavesMaking, IsNotMade, NothingIsWritten, LeavesMade, WhenAdmitted, WhenNothing, IfOpened, IfHandedBack};
ghost use Rattle.wh_engine.specs.Scanned.{SparesIn, WasClean, WhenAtRest, WhenStored};
ghost use Rattle.wh_store.specs.declared.fault.OpenFault.TheVariants.{Store};
ghost use Rattle.wh_rows.specs.declared.cause.Cause.{Cause};

use crate::engine::Engine;
use crate::init::write_init;
use crate::session::Session;
use sqlite::{Alter, Connection};
use std::alloc::Global;
use thiserror::Error;
use wh_day::ParseError;
use wh_policy::{Format, Policy, PolicyFault};
use wh_rows::{Cause, CommandRow, Limits, Table, tables};
use wh_store::{LastPolicy, NotFree, OpenFault, Tables, find_limits, for_init, open};

/// Why no warehouse was made.
#[derive(Clone, Copy, Debug, PartialEq, Eq, Error)]
pub enum InitFault {
    /// The policy has this fault.
    #[error("the policy has a fault")]
    Policy(PolicyFault),
    /// A table, an index or a view has the name of one of the twelve tables.
    #[error("a name of the twelve tables is taken")]
    NotEmpty,
    /// A growth was refused before anything was written.
    #[error("memory ran out")]
    Memory,
    /// The database refused a call, or a growth was refused inside the transaction.
    #[error("the store refused a call")]
    Store(Cause),
}

/// Makes the tables in one transaction, and keeps them.
fn commit_init<S: Alter>(
    tables: &mut Tables<S>,
    alloc: Global,
    limits: Limits,
    policy: &Policy,
    bytes: &[u8],
) -> Result<u64, Cause>
    ensures clean { WasClean S.Store tables.old tables.new }
    ensures made { WhenNothing (state_of S.Store tables.old) (state_of S.Store tables.new) (IsGoodPolicy policy.now → OnOk result (Rests limits (init_of policy.now bytes.now ∷ []) (state_of S.Store tables.new))) }
    ensures left { WhenNothing (state_of S.Store tables.old) (state_of S.Store tables.new) (IsGoodPolicy policy.now → LeavesMaking limits policy.now bytes.now (state_of S.Store tables.new)) }
{
    let mut writing = tables.begin()?;
    write_init(&mut writing, alloc, limits, policy, bytes)?;
    writing.commit()
}

/// The policy that the first of these commands gives.
fn policy_of(alloc: Global, commands: &[CommandRow]) -> Result<Policy, OpenFault>
    ensures said { IsAsSaid result (of_command (slice_get commands.now 0)) }
    ensures pure { (cause : Cause) → result ≢ Err (Store cause) }
{
    let Some(command) = commands.first() else {
        return Err(OpenFault::Damaged(Table::Command));
    };
    match Policy::read(alloc, command.bytes.as_slice()) {
        Ok(policy) => Ok(policy),
        Err(ParseError::Memory) => Err(OpenFault::Memory),
        Err(ParseError::Fault(_)) => Err(OpenFault::Damaged(Table::Command)),
    }
}

/// The policy in force: the last command that gives one gives it.
fn policy_in<S: Alter>(tables: &mut Tables<S>, alloc: Global) -> Result<Policy, OpenFault>
    ensures reads { SparesIn S.Store tables.old tables.new (IsServed result) }
    ensures read { WhenAtRest S.Store tables.old tables.new (λ t. IsRead result (of_command (last_policy_in t)) t (state_of S.Store tables.new)) }
    // The same of any stored rows: by the last that gives a policy.
    ensures stored { WhenStored S.Store tables.old tables.new (λ stored. IfOk result (λ policy. PolicyIs stored (Ok policy))) }
    ensures policyless { WhenStored S.Store tables.old tables.new (λ stored. IfErr result (IsPolicyless stored)) }
{
    let last = tables.ask::<tables::Command, LastPolicy>(alloc, &LastPolicy)?;
    policy_of(alloc, &last)
}

/// What an engine has to know of its warehouse, which is of this format.
fn session_of<S: Alter>(
    tables: &mut Tables<S>,
    alloc: Global,
    format: Format,
) -> Result<Session, OpenFault>
    ensures reads { SparesIn S.Store tables.old tables.new (IsServed result) }
    ensures read { WhenAtRest S.Store tables.old tables.new (λ t. IsRead result (session_in format t) t (state_of S.Store tables.new)) }
    // The same of any stored rows: by the limits, and then by the last row that gives a policy.
    ensures stored { WhenStored S.Store tables.old tables.new (λ stored. FormatIs Two (is_two stored.format) stored (Ok format) → IfOk result (SessionIs stored)) }
    ensures sessionless { WhenStored S.Store tables.old tables.new (λ stored. IfErr result (IsSessionless stored)) }
    ensures fresh { IfOk result (λ session. session.must_reopen ≡ false) }
    ensures format { IfOk result (λ session. session.format ≡ format) }
{
    let limits = find_limits(tables, alloc)?;
    match policy_in(tables, alloc) {
        Ok(policy) => Ok(Session {
            limits,
            format,
            policy,
            must_reopen: false,
        }),
        Err(fault) => Err(fault),
    }
}

impl<S: Alter> Engine<S> {
    /// Makes a warehouse of format 1 and of these limits under the policy of a policy file, in a database in which the names of the twelve
    /// tables are free. The making is its first command. A refusal is any [`InitFault`], and hands the connection back, as it was where a name
    /// is taken or a transaction is open.
    pub fn init(
        alloc: Global,
        conn: Connection<S>,
        policy: &[u8],
        limits: Limits,
    ) -> Result<Engine<S>, (InitFault, Connection<S>)>
        ensures made { IfOpened S.Store conn result (λ old new engine. WhenNothing old new (IsReady limits (init_of engine.session.policy policy.now ∷ []) engine.session new)) }
        ensures written { IfOk result (λ engine. (read_policy policy.now ≡ Ok engine.session.policy) × (is_any_taken (state S.Store conn).now.schema ≡ false)) }
        ensures refused { IfErr result (λ e. IsNotMade policy.now (is_any_taken (state S.Store conn).now.schema) e.0) }
        ensures same { IfErr result (λ e. NothingIsWritten e.0 → e.1 ≡ conn) }
        ensures fresh { IfOk result (λ engine. (engine.session.must_reopen ≡ false) × (engine.writes ≡ 0)) }
        ensures kept { is_any_taken (state S.Store conn).now.schema ≡ true → IfErr result (λ e. e.1 ≡ conn) }
        // A transaction of the caller's is neither joined nor ended.
        ensures outside { IfOk result (λ _. conn.in_transaction ≡ false) }
        ensures within { IsTrue conn.in_transaction → IfErr result (λ e. e.1 ≡ conn) }
        ensures left { IfHandedBack S.Store conn result (λ old new _. WhenNothing old new (LeavesMade limits policy.now new)) }
    {
        let read = match Policy::read(alloc, policy) {
            Ok(read) => read,
            Err(ParseError::Memory) => return Err((InitFault::Memory, conn)),
            Err(ParseError::Fault(fault)) => return Err((InitFault::Policy(fault), conn)),
        };
        let mut tables = match for_init(conn) {
            Ok(tables) => tables,
            Err((NotFree::NotEmpty, conn)) => return Err((InitFault::NotEmpty, conn)),
            Err((NotFree::Store(cause), conn)) => return Err((InitFault::Store(cause), conn)),
        };
        match commit_init(&mut tables, alloc, limits, &read, policy) {
            Ok(_) => Ok(Engine {
                tables,
                session: Session {
                    limits,
                    format: Format::One,
                    policy: read,
                    must_reopen: false,
                },
                writes: 0,
            }),
            Err(cause) => Err((InitFault::Store(cause), tables.close())),
        }
    }

    /// Opens the warehouse of a connection, of either format. A refusal hands the connection back:
    ///
    /// - `NotAWarehouse`: a table of the format or one of its columns is missing, or meta has no row `format`.
    /// - `OldFormat`, `NewFormat`: meta says a format below 1, or above 2.
    /// - `Damaged`: of meta, the format or a limit is out of its type, or a limit is missing or out of its range; of command, the last row that
    ///   gives a policy is missing, out of its type, or holds no policy.
    /// - `Memory`: a growth was refused outside the database.
    /// - `Store`: the database refused a call, or a transaction is open (`Store(Disk)`).
    pub fn open(alloc: Global, conn: Connection<S>) -> Result<Engine<S>, (OpenFault, Connection<S>)>
        // It changes nothing in any database unless the database refuses a call.
        ensures spares { IfOpened S.Store conn result (λ old new _. Spares old new ⊤) }
        ensures spares_left { IfHandedBack S.Store conn result (λ old new why. Spares old new (SparesStore why)) }
        ensures ready { IfOpened S.Store conn result (λ old new engine. WhenAdmitted old new (λ limits commands. IsReady limits commands engine.session)) }
        ensures refused { IfHandedBack S.Store conn result (λ old new why. WhenAdmitted old new (λ limits commands. IsNotOpened limits commands why)) }
        // The same of any tables of either format all of whose rows are of their types, admitted or not.
        ensures found { IfOpened S.Store conn result (λ old new engine. SaysAtRest old new (λ t. (opened t ≡ Ok engine.session) × IsAtRest (Some t) new)) }
        ensures fault { IfHandedBack S.Store conn result (λ old new why. SaysAtRest old new (λ t. IsRead (Err why) (opened t) t new)) }
        // The same of any rows that are stored under the schema of a making: a damaged row that isn't asked for keeps nothing from opening.
        ensures found_stored { IfOpened S.Store conn result (λ old new engine. SaysAsStored old new (λ stored. SessionIs stored engine.session × RestsOn stored new)) }
        ensures fault_stored { IfHandedBack S.Store conn result (λ old new why. SaysAsStored old new (λ stored. IsUnopened stored why × LeavesStored stored new × (SparesStore why → RestsOn stored new))) }
        ensures fresh { IfOk result (λ engine. (engine.session.must_reopen ≡ false) × (engine.writes ≡ 0)) }
        ensures within { IsTrue conn.in_transaction → result ≡ Err (OpenFault.Store Cause.Disk, conn) }
        ensures missing { conn.in_transaction ≡ false → has_tables (state S.Store conn).now.schema ≡ false → result ≡ Err (OpenFault.NotAWarehouse, conn) }
        // Without the tables of format 2 and their columns it is of format 1, whatever meta says.
        ensures missing_second { has_second (state S.Store conn).now.schema ≡ false → IfOk result (λ engine. engine.session.format ≡ Format.One) }
    {
        let (mut tables, format) = match open(alloc, conn, Format::Two) {
            Ok(opened) => opened,
            Err((fault, conn)) => return Err((fault, conn)),
        };
        match session_of(&mut tables, alloc, format) {
            Ok(session) => Ok(Engine {
                tables,
                session,
                writes: 0,
            }),
            Err(fault) => Err((fault, tables.close())),
        }
    }
}
