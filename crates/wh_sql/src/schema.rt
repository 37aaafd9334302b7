//! The schema: making its tables, and whether they are there.

ghost use Rattle.std.specs.Prelude.{◌≡◌, ◌≤◌, ℕ, nat_le, [], false, map, Option, Some, None, Err, IsTrue, IfErr, OnOk};
ghost use Rattle.std.specs.List.{list_all, list_any};
ghost use Rattle.sqlite.specs.Held.{state};
ghost use Rattle.sqlite.specs.Schema.{Schema};
ghost use Rattle.sqlite.specs.Tree.{Trees};
ghost use Rattle.wh_policy.specs.declared.format.Format.TheVariants.{One, Two};
ghost use Rattle.sqlite.specs.Change.{is_used, next_tree};
ghost use Rattle.sqlite.specs.State.{HasCleanDisk};
ghost use Rattle.wh_rows.specs.declared.cause.Cause.TheVariants.{Disk};
ghost use Rattle.wh_rows.specs.ColumnNames.{table_columns};
ghost use Rattle.wh_rows.specs.Names.{table_name};
ghost use Rattle.wh_rows.specs.Making.{Extends, LeadsOver, making_texts, upgrading_texts};
ghost use Rattle.wh_rows.specs.Tables.{Tables, no_tables};
ghost use Rattle.wh_rows.specs.AtRest.{IsWriting, Leaves, IsCauseOf};
ghost use Rattle.wh_sql.specs.Refused.{IsOneRefused, bare};
ghost use Rattle.wh_sql.specs.Present.{IsMaking, is_any_taken, is_second_taken, has_columns, has_table, has_tables, has_second};

use sqlite::{Alter, Connection};
use sqlite_schema::schema::{self, Schema};
use wh_rows::{Cause, Table};

/// The texts that make the warehouse: its tables, then its indexes.
const TEXTS: [&str; 16] = [
    "CREATE TABLE meta (name TEXT NOT NULL, value INTEGER NOT NULL, PRIMARY KEY (name))",
    "CREATE TABLE command (number INTEGER PRIMARY KEY NOT NULL, id TEXT NOT NULL, kind TEXT NOT NULL, bytes BLOB NOT NULL, records INTEGER NOT NULL, placeholders INTEGER NOT NULL, UNIQUE (id))",
    "CREATE TABLE member (dim INTEGER NOT NULL, durable INTEGER NOT NULL, natural TEXT NOT NULL, opening INTEGER NOT NULL, PRIMARY KEY (dim, durable), UNIQUE (dim, natural))",
    "CREATE TABLE change (command INTEGER NOT NULL, record INTEGER NOT NULL, dim INTEGER NOT NULL, durable INTEGER NOT NULL, day INTEGER NOT NULL, anchor INTEGER NOT NULL, v1 TEXT NOT NULL, v2 TEXT NOT NULL, v3 TEXT NOT NULL, v4 TEXT NOT NULL, v5 TEXT NOT NULL, v6 TEXT NOT NULL, PRIMARY KEY (command, record))",
    "CREATE TABLE product (surrogate INTEGER PRIMARY KEY NOT NULL, durable INTEGER NOT NULL, natural TEXT NOT NULL, from_day INTEGER NOT NULL, to_day INTEGER NOT NULL, is_current INTEGER NOT NULL, a1 TEXT NOT NULL, a2 TEXT NOT NULL, a3 TEXT NOT NULL, a4 TEXT NOT NULL, a5 TEXT NOT NULL, a6 TEXT NOT NULL, b1 TEXT NOT NULL, b2 TEXT NOT NULL, b3 TEXT NOT NULL, b4 TEXT NOT NULL, b5 TEXT NOT NULL, b6 TEXT NOT NULL, profile_now INTEGER NOT NULL)",
    "CREATE TABLE store (surrogate INTEGER PRIMARY KEY NOT NULL, durable INTEGER NOT NULL, natural TEXT NOT NULL, from_day INTEGER NOT NULL, to_day INTEGER NOT NULL, is_current INTEGER NOT NULL, a1 TEXT NOT NULL, a2 TEXT NOT NULL, a3 TEXT NOT NULL, a4 TEXT NOT NULL, a5 TEXT NOT NULL, a6 TEXT NOT NULL, b1 TEXT NOT NULL, b2 TEXT NOT NULL, b3 TEXT NOT NULL, b4 TEXT NOT NULL, b5 TEXT NOT NULL, b6 TEXT NOT NULL, profile_now INTEGER NOT NULL)",
    "CREATE TABLE customer (surrogate INTEGER PRIMARY KEY NOT NULL, durable INTEGER NOT NULL, natural TEXT NOT NULL, from_day INTEGER NOT NULL, to_day INTEGER NOT NULL, is_current INTEGER NOT NULL, a1 TEXT NOT NULL, a2 TEXT NOT NULL, a3 TEXT NOT NULL, a4 TEXT NOT NULL, a5 TEXT NOT NULL, a6 TEXT NOT NULL, b1 TEXT NOT NULL, b2 TEXT NOT NULL, b3 TEXT NOT NULL, b4 TEXT NOT NULL, b5 TEXT NOT NULL, b6 TEXT NOT NULL, profile_now INTEGER NOT NULL)",
    "CREATE TABLE profile (number INTEGER PRIMARY KEY NOT NULL, v1 TEXT NOT NULL, v2 TEXT NOT NULL, v3 TEXT NOT NULL, v4 TEXT NOT NULL, v5 TEXT NOT NULL, v6 TEXT NOT NULL)",
    "CREATE TABLE calendar (date_key INTEGER PRIMARY KEY NOT NULL, iso TEXT NOT NULL, year INTEGER NOT NULL, quarter INTEGER NOT NULL, month INTEGER NOT NULL, day INTEGER NOT NULL, day_of_year INTEGER NOT NULL, weekday INTEGER NOT NULL, weekday_name TEXT NOT NULL, weekend INTEGER NOT NULL, holiday TEXT NOT NULL)",
    "CREATE TABLE fact (ticket TEXT NOT NULL, line INTEGER NOT NULL, day INTEGER NOT NULL, store_key INTEGER NOT NULL, product_key INTEGER NOT NULL, customer_key INTEGER NOT NULL, store_durable INTEGER NOT NULL, product_durable INTEGER NOT NULL, customer_durable INTEGER NOT NULL, profile INTEGER NOT NULL, quantity INTEGER NOT NULL, amount INTEGER NOT NULL, cost INTEGER NOT NULL, PRIMARY KEY (ticket, line))",
    "CREATE INDEX change_by_member ON change (dim, durable)",
    "CREATE INDEX change_by_anchor ON change (dim, anchor)",
    "CREATE INDEX product_by_durable ON product (durable)",
    "CREATE INDEX store_by_durable ON store (durable)",
    "CREATE INDEX customer_by_durable ON customer (durable)",
    "CREATE INDEX profile_by_values ON profile (v1, v2, v3, v4, v5, v6)",
];

/// The texts that make the second format, where the first stands.
const SECOND: [&str; 2] = [
    "CREATE TABLE fact2 (ticket TEXT NOT NULL, line INTEGER NOT NULL, day INTEGER NOT NULL, store_key INTEGER NOT NULL, product_key INTEGER NOT NULL, customer_key INTEGER NOT NULL, store_durable INTEGER NOT NULL, product_durable INTEGER NOT NULL, customer_durable INTEGER NOT NULL, profile INTEGER NOT NULL, quantity INTEGER NOT NULL, amount INTEGER NOT NULL, cost INTEGER NOT NULL, discount INTEGER NOT NULL, PRIMARY KEY (ticket, line))",
    "CREATE TABLE void (ticket TEXT NOT NULL, line INTEGER NOT NULL, command INTEGER NOT NULL, PRIMARY KEY (ticket, line))",
];

/// How many of the tables the first format has; the second adds the others.
const FIRST: usize = 10;

/// Runs a text that makes one table or index, inside a transaction.
fn create_one<S: Alter>(conn: &mut Connection<S>, text: &str) -> Result<(), Cause>
    ensures clean { HasCleanDisk (state S.Store conn.new) → HasCleanDisk (state S.Store conn.old) }
    ensures counts { (state S.Store conn.old).faults ≤ (state S.Store conn.new).faults }
    ensures made { HasCleanDisk (state S.Store conn.new) → (before : Option Tables) (least : ℕ) (rows : Trees) (from to : Schema) → Extends from text.now to → IsTrue (nat_le least (next_tree from)) → IsMaking before least rows from (state S.Store conn.old)
        → OnOk result (IsMaking before least rows to (state S.Store conn.new)) }
    ensures left { HasCleanDisk (state S.Store conn.new) → (before : Option Tables) (least : ℕ) (rows : Trees) (from to : Schema) → Extends from text.now to → IsMaking before least rows from (state S.Store conn.old) → Leaves before (state S.Store conn.new) }
    ensures cause { HasCleanDisk (state S.Store conn.new) → IfErr result (IsCauseOf text.now [] (state S.Store conn.old) (state S.Store conn.new)) }
{
    conn.execute(text, &[])?;
    Ok(())
}

/// Runs texts that make tables and indexes, in their order, inside a transaction. Outside one it is refused.
fn create_all<S: Alter>(conn: &mut Connection<S>, texts: &[&str]) -> Result<(), Cause>
    ensures clean { HasCleanDisk (state S.Store conn.new) → HasCleanDisk (state S.Store conn.old) }
    ensures counts { (state S.Store conn.old).faults ≤ (state S.Store conn.new).faults }
    ensures made { HasCleanDisk (state S.Store conn.new) → (before : Option Tables) (least : ℕ) (rows : Trees) (from to : Schema) → LeadsOver least from (map (λ text. text.now) texts.now) to → IsMaking before least rows from (state S.Store conn.old)
        → OnOk result (IsMaking before least rows to (state S.Store conn.new)) }
    ensures left { HasCleanDisk (state S.Store conn.new) → (before : Option Tables) (least : ℕ) (rows : Trees) (from to : Schema) → LeadsOver least from (map (λ text. text.now) texts.now) to → IsMaking before least rows from (state S.Store conn.old) → Leaves before (state S.Store conn.new) }
    ensures cause { HasCleanDisk (state S.Store conn.new) → IsTrue conn.old.in_transaction → IfErr result (IsOneRefused S.Store IsCauseOf (bare (map (λ text. text.now) texts.now)) conn.old conn.new) }
    ensures late { conn.old.in_transaction ≡ false → (result ≡ Err Disk) × (conn.new ≡ conn.old) }
{
    if conn.is_autocommit() {
        return Err(Cause::Disk);
    }
    for text in texts {
        create_one(conn, text)?;
    }
    Ok(())
}

/// Makes the ten tables of format 1 and their indexes, inside a transaction on a database with no object. Outside a transaction the error is `Disk`.
pub(crate) fn create_tables<S: Alter>(conn: &mut Connection<S>) -> Result<(), Cause>
    ensures clean { HasCleanDisk (state S.Store conn.new) → HasCleanDisk (state S.Store conn.old) }
    ensures counts { (state S.Store conn.old).faults ≤ (state S.Store conn.new).faults }
    ensures made { HasCleanDisk (state S.Store conn.new) → IsWriting None None (state S.Store conn.old) → OnOk result (IsWriting None (Some no_tables) (state S.Store conn.new)) }
    ensures left { HasCleanDisk (state S.Store conn.new) → IsWriting None None (state S.Store conn.old) → Leaves None (state S.Store conn.new) }
    ensures cause { HasCleanDisk (state S.Store conn.new) → IsTrue conn.old.in_transaction → IfErr result (IsOneRefused S.Store IsCauseOf (bare making_texts) conn.old conn.new) }
    ensures late { conn.old.in_transaction ≡ false → (result ≡ Err Disk) × (conn.new ≡ conn.old) }
{
    create_all(conn, &TEXTS)
}

/// Makes the tables and indexes of the second format, inside a transaction over a warehouse of the first. Outside a transaction it is refused.
pub(crate) fn add_format2_tables<S: Alter>(conn: &mut Connection<S>) -> Result<(), Cause>
    ensures clean { HasCleanDisk (state S.Store conn.new) → HasCleanDisk (state S.Store conn.old) }
    ensures counts { (state S.Store conn.old).faults ≤ (state S.Store conn.new).faults }
    // The tables have the rows that they had; the new ones have none.
    ensures made { HasCleanDisk (state S.Store conn.new) → (before : Option Tables) (t : Tables) → t.format ≡ One → IsWriting before (Some t) (state S.Store conn.old) → OnOk result (IsWriting before (Some (record t { format = Two })) (state S.Store conn.new)) }
    ensures left { HasCleanDisk (state S.Store conn.new) → (before : Option Tables) (t : Tables) → t.format ≡ One → IsWriting before (Some t) (state S.Store conn.old) → Leaves before (state S.Store conn.new) }
    ensures cause { HasCleanDisk (state S.Store conn.new) → IsTrue conn.old.in_transaction → IfErr result (IsOneRefused S.Store IsCauseOf (bare upgrading_texts) conn.old conn.new) }
    ensures late { conn.old.in_transaction ≡ false → (result ≡ Err Disk) × (conn.new ≡ conn.old) }
{
    create_all(conn, &SECOND)
}

fn is_taken(schema: &Schema, name: &str) -> bool
    ensures { result ≡ is_used schema.now name.now }
{
    let name = name.as_bytes();
    schema.table_named(name).is_some()
        || schema.index_named(name).is_some()
        || schema.view_named(name).is_some()
}

fn is_one_taken(schema: &Schema, tables: &[Table]) -> bool
    ensures { result ≡ list_any (λ table. is_used schema.now (table_name table)) tables.now }
{
    tables.iter().any(|table| is_taken(schema, table.name()))
}

/// Whether a table, an index or a view has the name of one of the twelve tables.
pub fn is_any_taken<S: Alter>(conn: &Connection<S>) -> bool
    ensures { result ≡ is_any_taken (state S.Store conn.now).now.schema }
{
    is_one_taken(conn.schema(), &Table::ALL[..FIRST])
        || is_one_taken(conn.schema(), &Table::ALL[FIRST..])
}

/// Whether one has the name of one of the two that the second format adds.
pub(crate) fn is_second_taken<S: Alter>(conn: &Connection<S>) -> bool
    ensures { result ≡ is_second_taken (state S.Store conn.now).now.schema }
{
    is_one_taken(conn.schema(), &Table::ALL[FIRST..])
}

fn has_columns(table: &schema::Table, columns: &[&str]) -> bool
    ensures { result ≡ has_columns columns.now (λ name. name.now) table.now }
{
    columns
        .iter()
        .all(|name| table.column_named(name.as_bytes()).is_some())
}

fn has_named(schema: &Schema, name: &str, columns: &[&str]) -> bool
    ensures { result ≡ has_table name.now columns.now (λ name. name.now) schema.now }
{
    let tables = schema.tables.as_slice();
    tables.iter().any(|table| table.is_named(name.as_bytes()) && has_columns(table, columns))
}

fn has_table(schema: &Schema, table: Table) -> bool
    ensures { result ≡ has_table (table_name table) (table_columns table) (λ name. name) schema.now }
{
    has_named(schema, table.name(), table.columns())
}

fn has_each(schema: &Schema, tables: &[Table]) -> bool
    ensures { result ≡ list_all (λ table. has_table (table_name table) (table_columns table) (λ name. name) schema.now) tables.now }
{
    tables.iter().all(|table| has_table(schema, *table))
}

/// Whether each of the ten tables that both formats have is there, with its columns.
pub fn has_tables<S: Alter>(conn: &Connection<S>) -> bool
    ensures { result ≡ has_tables (state S.Store conn.now).now.schema }
{
    has_each(conn.schema(), &Table::ALL[..FIRST])
}

/// Whether each of the two tables that the second format adds is there, with its columns.
pub fn has_second<S: Alter>(conn: &Connection<S>) -> bool
    ensures { result ≡ has_second (state S.Store conn.now).now.schema }
{
    has_each(conn.schema(), &Table::ALL[FIRST..])
}
