//! Whether a database is taken for a warehouse, and for which.

ghost use Rattle.std.specs.Prelude.{◌≡◌, ◌≤◌, ◌⊎◌, true, false, Ok, Err, Some, None, IsTrue, IfOk, IfErr};
ghost use Rattle.sqlite.specs.Held.{state};
ghost use Rattle.sqlite.specs.State.{HasCleanDisk};
ghost use Rattle.wh_policy.specs.Formats.{format_number};
ghost use Rattle.wh_rows.specs.declared.cause.Cause.{Cause};
ghost use Rattle.wh_rows.specs.declared.table.Table.{Table};
ghost use Rattle.wh_sql.specs.Answers.{state_of, Spares, IsServed, SparesIn, WhenAtRest, WhenStored};
ghost use Rattle.wh_sql.specs.Present.{is_any_taken};
ghost use Rattle.wh_sql.specs.Refused.{IsCauseOfQuery, IsOneRefused};
ghost use Rattle.wh_sql.specs.declared.fault.ReadFault.TheVariants.{Damaged, Store as Refused};
ghost use Rattle.wh_store.specs.Meta.{limits_in, limits_asked};
ghost use Rattle.wh_store.specs.Opening.{SparesStore, IsTaken, IsRefusedWith, FoundAtRest, FoundStored, connection_after, has_ten, has_two};
ghost use Rattle.wh_store.specs.Raw.{FormatIs, IsRefusedOn, LimitsAre, IsLimitless};

use crate::fault::{NotFree, OpenFault};
use crate::meta;
use sqlite::{Alter, Connection};
use std::alloc::Global;
use wh_policy::Format;
use wh_rows::{Cause, Limits, Table};
use wh_sql::{ReadFault, Tables, has_second, has_tables, is_any_taken};

/// Takes a connection to a database in which the names of the twelve tables are free. `Writing::init` then makes ten. `NotEmpty`: one of the
/// names is taken. An error hands the connection back.
pub fn for_init<S: Alter>(conn: Connection<S>) -> Result<Tables<S>, (NotFree, Connection<S>)>
    ensures same { IfOk result (λ tables. tables.conn ≡ conn) }
    ensures back { IfErr result (λ e. e.1 ≡ conn) }
    ensures free { IfOk result (λ tables. is_any_taken (state S.Store conn).now.schema ≡ false) }
    ensures outside { IfOk result (λ _. conn.in_transaction ≡ false) }
    ensures taken { IfErr result (λ e. ((e.0 ≡ NotFree.NotEmpty) × (is_any_taken (state S.Store conn).now.schema ≡ true)) ⊎ ((e.0 ≡ NotFree.Store Cause.Disk) × IsTrue conn.in_transaction)) }
{
    if !conn.is_autocommit() {
        return Err((NotFree::Store(Cause::Disk), conn));
    }
    if is_any_taken(&conn) {
        return Err((NotFree::NotEmpty, conn));
    }
    Ok(Tables::over(conn))
}

/// Takes a connection to a warehouse, and answers its format too, by meta's number. `newest`: the newest format that the caller knows; one that came
/// after it is refused. An error is any [`OpenFault`], and hands the connection back; `Damaged` names meta. Inside a transaction it is `Store(Disk)`.
pub fn open<S: Alter>(
    alloc: Global,
    conn: Connection<S>,
    newest: Format,
) -> Result<(Tables<S>, Format), (OpenFault, Connection<S>)>
    ensures reads { Spares (state S.Store conn) (state S.Store (connection_after result)) (IfErr result (λ e. SparesStore e.0)) }
    ensures taken { FoundAtRest S.Store conn result (λ t. IfOk result (λ opened. IsTaken newest (has_two S.Store conn) t opened.1)) }
    ensures refused { FoundAtRest S.Store conn result (λ t. has_ten S.Store conn ≡ true → IfErr result (λ e. IsRefusedWith newest (has_two S.Store conn) t (state S.Store conn) (state S.Store e.1) e.0)) }
    ensures known { IfOk result (λ opened. format_number opened.1 ≤ format_number newest) }
    // The same of any stored rows: by those of the format.
    ensures taken_stored { FoundStored S.Store conn result (λ stored. IfOk result (λ opened. FormatIs newest (has_two S.Store conn) stored (Ok opened.1))) }
    ensures refused_stored { FoundStored S.Store conn result (λ stored. has_ten S.Store conn ≡ true → IfErr result (λ e. IsRefusedOn newest (has_two S.Store conn) stored e.0)) }
    ensures within { IsTrue conn.in_transaction → result ≡ Err (OpenFault.Store Cause.Disk, conn) }
    ensures missing { conn.in_transaction ≡ false → has_ten S.Store conn ≡ false → result ≡ Err (OpenFault.NotAWarehouse, conn) }
    // Without the tables of format 2 and their columns it is of format 1, whatever meta says.
    ensures missing_second { has_two S.Store conn ≡ false → IfOk result (λ opened. opened.1 ≡ Format.One) }
{
    if !conn.is_autocommit() {
        return Err((OpenFault::Store(Cause::Disk), conn));
    }
    if !has_tables(&conn) {
        return Err((OpenFault::NotAWarehouse, conn));
    }
    let second = has_second(&conn);
    let mut tables = Tables::over(conn);
    match meta::find_format(&mut tables, alloc, newest, second) {
        Ok(format) => Ok((tables, format)),
        Err(fault) => Err((fault, tables.close())),
    }
}

/// The limits that were chosen at the making. `Damaged` names meta if one of the three is missing or invalid.
pub fn find_limits<S: Alter>(tables: &mut Tables<S>, alloc: Global) -> Result<Limits, ReadFault>
    ensures reads { SparesIn S.Store tables.old tables.new (IsServed result) }
    ensures limits { WhenAtRest S.Store tables.old tables.new (λ t. IfOk result (λ limits. limits_in t ≡ Some limits)) }
    ensures damaged { WhenAtRest S.Store tables.old tables.new (λ t. (table : Table) → result ≡ Err (Damaged table) → (table ≡ Table.Meta) × (limits_in t ≡ None)) }
    // The same of any stored rows: by those of the three names.
    ensures stored { WhenStored S.Store tables.old tables.new (λ stored. IfOk result (λ limits. LimitsAre stored (Some limits))) }
    ensures limitless { WhenStored S.Store tables.old tables.new (λ stored. IfErr result (IsLimitless stored)) }
    ensures refused { HasCleanDisk (state_of S.Store tables.new) → (cause : Cause) → result ≡ Err (Refused cause) → IsOneRefused S.Store IsCauseOfQuery limits_asked tables.old.conn tables.new.conn cause }
{
    let commands = meta::number(tables, alloc, "commands_max")?;
    let changes = meta::number(tables, alloc, "changes_max")?;
    let facts = meta::number(tables, alloc, "facts_max")?;
    match meta::limits_of_numbers(commands, changes, facts) {
        Some(limits) => Ok(limits),
        None => Err(ReadFault::Damaged(Table::Meta)),
    }
}
