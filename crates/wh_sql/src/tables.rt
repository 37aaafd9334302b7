//! The tables: the texts of their statements, and how their rows and keys are bound.

use crate::keyed_table::{KeyedTable, Statements};
use crate::keys::{change_key, day_key, dim_and_number, line_key, number_key, text_key};
use sqlite::types::ValueRef;
use std::alloc::Global;
use wh_day::{DateRow, Day, Value};
use wh_history::{DimRow, Fact};
use wh_policy::Dim;
use wh_rows::{
    Cause, ChangeKey, ChangeRow, CommandRow, LineKey, MemberKey, MemberRow, MetaRow, ProfileRow,
    Table, VoidRow, bound, tables,
};

impl KeyedTable for tables::Meta {
    ghost use Rattle.wh_rows.specs.Keys.{bind_text, stands_at_text};
    ghost use Rattle.wh_rows.specs.Texts.{meta as texts};
    ghost use Rattle.wh_rows.proofs.KeyedTables.{metas};
    ghost use Rattle.wh_rows.specs.declared.table.Table.TheVariants.{Meta};

    ghost bind = { bind_text };

    ghost name = { Meta };

    ghost stands_at = { stands_at_text };

    ghost texts = { texts };

    fn table() -> Table {
        Table::Meta
    }

    fn statements() -> Statements {
        Statements {
            put: "INSERT INTO meta VALUES (?1, ?2) ON CONFLICT (name) DO UPDATE SET value = excluded.value",
            remove: "DELETE FROM meta WHERE name = ?1",
            all: "SELECT * FROM meta ORDER BY name",
            get: "SELECT * FROM meta WHERE name = ?1 ORDER BY name",
            count: "SELECT count(*) FROM meta",
        }
    }

    fn row<'a>(alloc: Global, row: &'a MetaRow) -> Result<Vec<ValueRef<'a>>, Cause> {
        bound::encode_meta(alloc, row)
    }

    fn key<'a>(alloc: Global, key: &'a Value) -> Result<Vec<ValueRef<'a>>, Cause> {
        text_key(alloc, key)
    }

    ghost means = { metas };
}

impl KeyedTable for tables::Command {
    ghost use Rattle.wh_rows.specs.Keys.{bind_number, stands_at_number};
    ghost use Rattle.wh_rows.specs.Texts.{command as texts};
    ghost use Rattle.wh_rows.proofs.KeyedTables.{commands};
    ghost use Rattle.wh_rows.specs.declared.table.Table.TheVariants.{Command};

    ghost bind = { bind_number };

    ghost name = { Command };

    ghost stands_at = { stands_at_number };

    ghost texts = { texts };

    fn table() -> Table {
        Table::Command
    }

    fn statements() -> Statements {
        Statements {
            put: "INSERT INTO command VALUES (?1, ?2, ?3, ?4, ?5, ?6) ON CONFLICT (number) DO UPDATE SET id = excluded.id, kind = excluded.kind, bytes = excluded.bytes, records = excluded.records, placeholders = excluded.placeholders",
            remove: "DELETE FROM command WHERE number = ?1",
            all: "SELECT * FROM command ORDER BY number",
            get: "SELECT * FROM command WHERE number = ?1 ORDER BY number",
            count: "SELECT count(*) FROM command",
        }
    }

    fn row<'a>(alloc: Global, row: &'a CommandRow) -> Result<Vec<ValueRef<'a>>, Cause> {
        bound::encode_command(alloc, row)
    }

    fn key<'a>(alloc: Global, key: &'a u64) -> Result<Vec<ValueRef<'a>>, Cause> {
        number_key(alloc, key)
    }

    ghost means = { commands };
}

impl KeyedTable for tables::Member {
    ghost use Rattle.wh_rows.specs.Keys.{bind_member, stands_at_member};
    ghost use Rattle.wh_rows.specs.Texts.{member as texts};
    ghost use Rattle.wh_rows.proofs.KeyedTables.{members};
    ghost use Rattle.wh_rows.specs.declared.table.Table.TheVariants.{Member};

    ghost bind = { bind_member };

    ghost name = { Member };

    ghost stands_at = { stands_at_member };

    ghost texts = { texts };

    fn table() -> Table {
        Table::Member
    }

    fn statements() -> Statements {
        Statements {
            put: "INSERT INTO member VALUES (?1, ?2, ?3, ?4) ON CONFLICT (dim, durable) DO UPDATE SET natural = excluded.natural, opening = excluded.opening",
            remove: "DELETE FROM member WHERE dim = ?1 AND durable = ?2",
            all: "SELECT * FROM member ORDER BY dim, durable",
            get: "SELECT * FROM member WHERE dim = ?1 AND durable = ?2 ORDER BY dim, durable",
            count: "SELECT count(*) FROM member",
        }
    }

    fn row<'a>(alloc: Global, row: &'a MemberRow) -> Result<Vec<ValueRef<'a>>, Cause> {
        bound::encode_member(alloc, row)
    }

    fn key<'a>(alloc: Global, key: &'a MemberKey) -> Result<Vec<ValueRef<'a>>, Cause> {
        dim_and_number(alloc, key.dim, key.durable)
    }

    ghost means = { members };
}

impl KeyedTable for tables::Change {
    ghost use Rattle.wh_rows.specs.Keys.{bind_change, stands_at_change};
    ghost use Rattle.wh_rows.specs.Texts.{change as texts};
    ghost use Rattle.wh_rows.proofs.KeyedTables.{changes};
    ghost use Rattle.wh_rows.specs.declared.table.Table.TheVariants.{Change};

    ghost bind = { bind_change };

    ghost name = { Change };

    ghost stands_at = { stands_at_change };

    ghost texts = { texts };

    fn table() -> Table {
        Table::Change
    }

    fn statements() -> Statements {
        Statements {
            put: "INSERT INTO change VALUES (?1, ?2, ?3, ?4, ?5, ?6, ?7, ?8, ?9, ?10, ?11, ?12) ON CONFLICT (command, record) DO UPDATE SET dim = excluded.dim, durable = excluded.durable, day = excluded.day, anchor = excluded.anchor, v1 = excluded.v1, v2 = excluded.v2, v3 = excluded.v3, v4 = excluded.v4, v5 = excluded.v5, v6 = excluded.v6",
            remove: "DELETE FROM change WHERE command = ?1 AND record = ?2",
            all: "SELECT * FROM change ORDER BY command, record",
            get: "SELECT * FROM change WHERE command = ?1 AND record = ?2 ORDER BY command, record",
            count: "SELECT count(*) FROM change",
        }
    }

    fn row<'a>(alloc: Global, row: &'a ChangeRow) -> Result<Vec<ValueRef<'a>>, Cause> {
        bound::encode_change(alloc, row)
    }

    fn key<'a>(alloc: Global, key: &'a ChangeKey) -> Result<Vec<ValueRef<'a>>, Cause> {
        change_key(alloc, key)
    }

    ghost means = { changes };
}

impl KeyedTable for tables::Product {
    ghost use Rattle.wh_rows.specs.Keys.{bind_number, stands_at_number};
    ghost use Rattle.wh_rows.specs.Texts.{product as texts};
    ghost use Rattle.wh_rows.proofs.KeyedTables.{products};
    ghost use Rattle.wh_rows.specs.declared.table.Table.TheVariants.{Product};

    ghost bind = { bind_number };

    ghost name = { Product };

    ghost stands_at = { stands_at_number };

    ghost texts = { texts };

    fn table() -> Table {
        Table::Product
    }

    fn statements() -> Statements {
        Statements {
            put: "INSERT INTO product VALUES (?1, ?2, ?3, ?4, ?5, ?6, ?7, ?8, ?9, ?10, ?11, ?12, ?13, ?14, ?15, ?16, ?17, ?18, ?19) ON CONFLICT (surrogate) DO UPDATE SET durable = excluded.durable, natural = excluded.natural, from_day = excluded.from_day, to_day = excluded.to_day, is_current = excluded.is_current, a1 = excluded.a1, a2 = excluded.a2, a3 = excluded.a3, a4 = excluded.a4, a5 = excluded.a5, a6 = excluded.a6, b1 = excluded.b1, b2 = excluded.b2, b3 = excluded.b3, b4 = excluded.b4, b5 = excluded.b5, b6 = excluded.b6, profile_now = excluded.profile_now",
            remove: "DELETE FROM product WHERE surrogate = ?1",
            all: "SELECT * FROM product ORDER BY surrogate",
            get: "SELECT * FROM product WHERE surrogate = ?1 ORDER BY surrogate",
            count: "SELECT count(*) FROM product",
        }
    }

    fn row<'a>(alloc: Global, row: &'a DimRow) -> Result<Vec<ValueRef<'a>>, Cause> {
        bound::encode_dimension(alloc, Dim::Product, row)
    }

    fn key<'a>(alloc: Global, key: &'a u64) -> Result<Vec<ValueRef<'a>>, Cause> {
        number_key(alloc, key)
    }

    ghost means = { products };
}

impl KeyedTable for tables::Store {
    ghost use Rattle.wh_rows.specs.Keys.{bind_number, stands_at_number};
    ghost use Rattle.wh_rows.specs.Texts.{store as texts};
    ghost use Rattle.wh_rows.proofs.KeyedTables.{stores};
    ghost use Rattle.wh_rows.specs.declared.table.Table.TheVariants.{Store};

    ghost bind = { bind_number };

    ghost name = { Store };

    ghost stands_at = { stands_at_number };

    ghost texts = { texts };

    fn table() -> Table {
        Table::Store
    }

    fn statements() -> Statements {
        Statements {
            put: "INSERT INTO store VALUES (?1, ?2, ?3, ?4, ?5, ?6, ?7, ?8, ?9, ?10, ?11, ?12, ?13, ?14, ?15, ?16, ?17, ?18, ?19) ON CONFLICT (surrogate) DO UPDATE SET durable = excluded.durable, natural = excluded.natural, from_day = excluded.from_day, to_day = excluded.to_day, is_current = excluded.is_current, a1 = excluded.a1, a2 = excluded.a2, a3 = excluded.a3, a4 = excluded.a4, a5 = excluded.a5, a6 = excluded.a6, b1 = excluded.b1, b2 = excluded.b2, b3 = excluded.b3, b4 = excluded.b4, b5 = excluded.b5, b6 = excluded.b6, profile_now = excluded.profile_now",
            remove: "DELETE FROM store WHERE surrogate = ?1",
            all: "SELECT * FROM store ORDER BY surrogate",
            get: "SELECT * FROM store WHERE surrogate = ?1 ORDER BY surrogate",
            count: "SELECT count(*) FROM store",
        }
    }

    fn row<'a>(alloc: Global, row: &'a DimRow) -> Result<Vec<ValueRef<'a>>, Cause> {
        bound::encode_dimension(alloc, Dim::Store, row)
    }

    fn key<'a>(alloc: Global, key: &'a u64) -> Result<Vec<ValueRef<'a>>, Cause> {
        number_key(alloc, key)
    }

    ghost means = { stores };
}

impl KeyedTable for tables::Customer {
    ghost use Rattle.wh_rows.specs.Keys.{bind_number, stands_at_number};
    ghost use Rattle.wh_rows.specs.Texts.{customer as texts};
    ghost use Rattle.wh_rows.proofs.KeyedTables.{customers};
    ghost use Rattle.wh_rows.specs.declared.table.Table.TheVariants.{Customer};

    ghost bind = { bind_number };

    ghost name = { Customer };

    ghost stands_at = { stands_at_number };

    ghost texts = { texts };

    fn table() -> Table {
        Table::Customer
    }

    fn statements() -> Statements {
        Statements {
            put: "INSERT INTO customer VALUES (?1, ?2, ?3, ?4, ?5, ?6, ?7, ?8, ?9, ?10, ?11, ?12, ?13, ?14, ?15, ?16, ?17, ?18, ?19) ON CONFLICT (surrogate) DO UPDATE SET durable = excluded.durable, natural = excluded.natural, from_day = excluded.from_day, to_day = excluded.to_day, is_current = excluded.is_current, a1 = excluded.a1, a2 = excluded.a2, a3 = excluded.a3, a4 = excluded.a4, a5 = excluded.a5, a6 = excluded.a6, b1 = excluded.b1, b2 = excluded.b2, b3 = excluded.b3, b4 = excluded.b4, b5 = excluded.b5, b6 = excluded.b6, profile_now = excluded.profile_now",
            remove: "DELETE FROM customer WHERE surrogate = ?1",
            all: "SELECT * FROM customer ORDER BY surrogate",
            get: "SELECT * FROM customer WHERE surrogate = ?1 ORDER BY surrogate",
            count: "SELECT count(*) FROM customer",
        }
    }

    fn row<'a>(alloc: Global, row: &'a DimRow) -> Result<Vec<ValueRef<'a>>, Cause> {
        bound::encode_dimension(alloc, Dim::Customer, row)
    }

    fn key<'a>(alloc: Global, key: &'a u64) -> Result<Vec<ValueRef<'a>>, Cause> {
        number_key(alloc, key)
    }

    ghost means = { customers };
}

impl KeyedTable for tables::Profile {
    ghost use Rattle.wh_rows.specs.Keys.{bind_number, stands_at_number};
    ghost use Rattle.wh_rows.specs.Texts.{profile as texts};
    ghost use Rattle.wh_rows.proofs.KeyedTables.{profiles};
    ghost use Rattle.wh_rows.specs.declared.table.Table.TheVariants.{Profile};

    ghost bind = { bind_number };

    ghost name = { Profile };

    ghost stands_at = { stands_at_number };

    ghost texts = { texts };

    fn table() -> Table {
        Table::Profile
    }

    fn statements() -> Statements {
        Statements {
            put: "INSERT INTO profile VALUES (?1, ?2, ?3, ?4, ?5, ?6, ?7) ON CONFLICT (number) DO UPDATE SET v1 = excluded.v1, v2 = excluded.v2, v3 = excluded.v3, v4 = excluded.v4, v5 = excluded.v5, v6 = excluded.v6",
            remove: "DELETE FROM profile WHERE number = ?1",
            all: "SELECT * FROM profile ORDER BY number",
            get: "SELECT * FROM profile WHERE number = ?1 ORDER BY number",
            count: "SELECT count(*) FROM profile",
        }
    }

    fn row<'a>(alloc: Global, row: &'a ProfileRow) -> Result<Vec<ValueRef<'a>>, Cause> {
        bound::encode_profile(alloc, row)
    }

    fn key<'a>(alloc: Global, key: &'a u64) -> Result<Vec<ValueRef<'a>>, Cause> {
        number_key(alloc, key)
    }

    ghost means = { profiles };
}

impl KeyedTable for tables::Calendar {
    ghost use Rattle.wh_rows.specs.Keys.{bind_number, stands_at_number};
    ghost use Rattle.wh_rows.specs.Texts.{calendar as texts};
    ghost use Rattle.wh_rows.proofs.KeyedTables.{calendars};
    ghost use Rattle.wh_rows.specs.declared.table.Table.TheVariants.{Calendar};

    ghost bind = { bind_number };

    ghost name = { Calendar };

    ghost stands_at = { stands_at_number };

    ghost texts = { texts };

    fn table() -> Table {
        Table::Calendar
    }

    fn statements() -> Statements {
        Statements {
            put: "INSERT INTO calendar VALUES (?1, ?2, ?3, ?4, ?5, ?6, ?7, ?8, ?9, ?10, ?11) ON CONFLICT (date_key) DO UPDATE SET iso = excluded.iso, year = excluded.year, quarter = excluded.quarter, month = excluded.month, day = excluded.day, day_of_year = excluded.day_of_year, weekday = excluded.weekday, weekday_name = excluded.weekday_name, weekend = excluded.weekend, holiday = excluded.holiday",
            remove: "DELETE FROM calendar WHERE date_key = ?1",
            all: "SELECT * FROM calendar ORDER BY date_key",
            get: "SELECT * FROM calendar WHERE date_key = ?1 ORDER BY date_key",
            count: "SELECT count(*) FROM calendar",
        }
    }

    fn row<'a>(alloc: Global, row: &'a DateRow) -> Result<Vec<ValueRef<'a>>, Cause> {
        bound::encode_date(alloc, row)
    }

    fn key<'a>(alloc: Global, key: &'a Day) -> Result<Vec<ValueRef<'a>>, Cause> {
        day_key(alloc, key)
    }

    ghost means = { calendars };
}

impl KeyedTable for tables::Fact {
    ghost use Rattle.wh_rows.specs.Keys.{bind_line, stands_at_line};
    ghost use Rattle.wh_rows.specs.Texts.{fact as texts};
    ghost use Rattle.wh_rows.proofs.KeyedTables.{facts};
    ghost use Rattle.wh_rows.specs.declared.table.Table.TheVariants.{Fact};

    ghost bind = { bind_line };

    ghost name = { Fact };

    ghost stands_at = { stands_at_line };

    ghost texts = { texts };

    fn table() -> Table {
        Table::Fact
    }

    fn statements() -> Statements {
        Statements {
            put: "INSERT INTO fact VALUES (?1, ?2, ?3, ?4, ?5, ?6, ?7, ?8, ?9, ?10, ?11, ?12, ?13) ON CONFLICT (ticket, line) DO UPDATE SET day = excluded.day, store_key = excluded.store_key, product_key = excluded.product_key, customer_key = excluded.customer_key, store_durable = excluded.store_durable, product_durable = excluded.product_durable, customer_durable = excluded.customer_durable, profile = excluded.profile, quantity = excluded.quantity, amount = excluded.amount, cost = excluded.cost",
            remove: "DELETE FROM fact WHERE ticket = ?1 AND line = ?2",
            all: "SELECT * FROM fact ORDER BY ticket, line",
            get: "SELECT * FROM fact WHERE ticket = ?1 AND line = ?2 ORDER BY ticket, line",
            count: "SELECT count(*) FROM fact",
        }
    }

    fn row<'a>(alloc: Global, row: &'a Fact) -> Result<Vec<ValueRef<'a>>, Cause> {
        bound::encode_fact(alloc, row)
    }

    fn key<'a>(alloc: Global, key: &'a LineKey) -> Result<Vec<ValueRef<'a>>, Cause> {
        line_key(alloc, key)
    }

    ghost means = { facts };
}

impl KeyedTable for tables::Fact2 {
    ghost use Rattle.wh_rows.specs.Keys.{bind_line, stands_at_line};
    ghost use Rattle.wh_rows.specs.Texts.{fact2 as texts};
    ghost use Rattle.wh_rows.proofs.KeyedTables.{facts2};
    ghost use Rattle.wh_rows.specs.declared.table.Table.TheVariants.{Fact2};

    ghost bind = { bind_line };

    ghost name = { Fact2 };

    ghost stands_at = { stands_at_line };

    ghost texts = { texts };

    fn table() -> Table {
        Table::Fact2
    }

    fn statements() -> Statements {
        Statements {
            put: "INSERT INTO fact2 VALUES (?1, ?2, ?3, ?4, ?5, ?6, ?7, ?8, ?9, ?10, ?11, ?12, ?13, ?14) ON CONFLICT (ticket, line) DO UPDATE SET day = excluded.day, store_key = excluded.store_key, product_key = excluded.product_key, customer_key = excluded.customer_key, store_durable = excluded.store_durable, product_durable = excluded.product_durable, customer_durable = excluded.customer_durable, profile = excluded.profile, quantity = excluded.quantity, amount = excluded.amount, cost = excluded.cost, discount = excluded.discount",
            remove: "DELETE FROM fact2 WHERE ticket = ?1 AND line = ?2",
            all: "SELECT * FROM fact2 ORDER BY ticket, line",
            get: "SELECT * FROM fact2 WHERE ticket = ?1 AND line = ?2 ORDER BY ticket, line",
            count: "SELECT count(*) FROM fact2",
        }
    }

    fn row<'a>(alloc: Global, row: &'a Fact) -> Result<Vec<ValueRef<'a>>, Cause> {
        bound::encode_fact2(alloc, row)
    }

    fn key<'a>(alloc: Global, key: &'a LineKey) -> Result<Vec<ValueRef<'a>>, Cause> {
        line_key(alloc, key)
    }

    ghost means = { facts2 };
}

impl KeyedTable for tables::Void {
    ghost use Rattle.wh_rows.specs.Keys.{bind_line, stands_at_line};
    ghost use Rattle.wh_rows.specs.Texts.{void as texts};
    ghost use Rattle.wh_rows.proofs.KeyedTables.{voids};
    ghost use Rattle.wh_rows.specs.declared.table.Table.TheVariants.{Void};

    ghost bind = { bind_line };

    ghost name = { Void };

    ghost stands_at = { stands_at_line };

    ghost texts = { texts };

    fn table() -> Table {
        Table::Void
    }

    fn statements() -> Statements {
        Statements {
            put: "INSERT INTO void VALUES (?1, ?2, ?3) ON CONFLICT (ticket, line) DO UPDATE SET command = excluded.command",
            remove: "DELETE FROM void WHERE ticket = ?1 AND line = ?2",
            all: "SELECT * FROM void ORDER BY ticket, line",
            get: "SELECT * FROM void WHERE ticket = ?1 AND line = ?2 ORDER BY ticket, line",
            count: "SELECT count(*) FROM void",
        }
    }

    fn row<'a>(alloc: Global, row: &'a VoidRow) -> Result<Vec<ValueRef<'a>>, Cause> {
        bound::encode_void(alloc, row)
    }

    fn key<'a>(alloc: Global, key: &'a LineKey) -> Result<Vec<ValueRef<'a>>, Cause> {
        line_key(alloc, key)
    }

    ghost means = { voids };
}
