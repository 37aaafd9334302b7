//! The tables as types, for code that is the same for each of them.

ghost use Rattle.std.specs.Prelude.{◌≡◌, ◌≢◌, IsTrue, IfOk, IfErr};
ghost use Rattle.wh_day.specs.declared.error.ParseError.TheVariants.{Memory};
ghost use Rattle.std.specs.FinMap.{FinMap};
ghost use Rattle.wh_rows.specs.Holds.{Layout};
ghost use Rattle.wh_rows.specs.Tables.{Tables};

use crate::columns::Damaged;
use crate::key::{ChangeKey, LineKey, MemberKey};
use crate::rows::{self, ChangeRow, CommandRow, MemberRow, MetaRow, ProfileRow, VoidRow};
use crate::stored;
use sqlite::Row;
use std::alloc::Global;
use wh_day::{DateRow, Day, ParseError, Value};
use wh_history::DimRow;
use wh_policy::Dim;

/// A table, and the types of its rows and of their keys.
pub trait StoredTable {
    type Row: Drop;

    type Key: Drop;

    // How its rows stand in their columns.
    ghost layout: { Layout Self.Key Self.Row };

    // Its rows among those of all tables, and the tables with other rows in it.
    ghost rows: { Tables → FinMap layout.order Self.Row };

    ghost with_rows: { FinMap layout.order Self.Row → Tables → Tables };

    /// Reads a stored row. `Damaged`: it hasn't the columns of the table, or a value is out of its type.
    fn read(alloc: Global, row: &Row) -> Result<Self::Row, ParseError<Damaged>>
        // What is read is of its types, and stands so in the columns.
        ensures ok { IfOk result (λ r. IsTrue (layout.is_valid r) × (row.now ≡ layout.encode r)) }
        // Refused are the columns in which no such row stands.
        ensures err { IfErr result (λ e. e ≢ Memory → (r : Self.Row) → IsTrue (layout.is_valid r) → row.now ≢ layout.encode r) };
}

/// The table meta.
pub struct Meta;

impl StoredTable for Meta {
    ghost use Rattle.wh_rows.specs.Rows.{meta};

    type Row = MetaRow;

    type Key = Value;

    ghost layout = { meta };

    ghost rows = { λ t. t.meta };

    ghost with_rows = { λ rows t. record t { meta = rows } };

    fn read(alloc: Global, row: &Row) -> Result<MetaRow, ParseError<Damaged>> {
        stored::read_meta(alloc, row)
    }
}

/// The table command.
pub struct Command;

impl StoredTable for Command {
    ghost use Rattle.wh_rows.specs.Rows.{command};

    type Row = CommandRow;

    type Key = u64;

    ghost layout = { command };

    ghost rows = { λ t. t.command };

    ghost with_rows = { λ rows t. record t { command = rows } };

    fn read(alloc: Global, row: &Row) -> Result<CommandRow, ParseError<Damaged>> {
        stored::read_command(alloc, row)
    }
}

/// The table member.
pub struct Member;

impl StoredTable for Member {
    ghost use Rattle.wh_rows.specs.Rows.{member};

    type Row = MemberRow;

    type Key = MemberKey;

    ghost layout = { member };

    ghost rows = { λ t. t.member };

    ghost with_rows = { λ rows t. record t { member = rows } };

    fn read(alloc: Global, row: &Row) -> Result<MemberRow, ParseError<Damaged>> {
        stored::read_member(alloc, row)
    }
}

/// The table change.
pub struct Change;

impl StoredTable for Change {
    ghost use Rattle.wh_rows.specs.Rows.{change};

    type Row = ChangeRow;

    type Key = ChangeKey;

    ghost layout = { change };

    ghost rows = { λ t. t.change };

    ghost with_rows = { λ rows t. record t { change = rows } };

    fn read(alloc: Global, row: &Row) -> Result<ChangeRow, ParseError<Damaged>> {
        stored::read_change(alloc, row)
    }
}

/// The table product.
pub struct Product;

impl StoredTable for Product {
    ghost use Rattle.wh_rows.specs.Rows.{product};

    type Row = DimRow;

    type Key = u64;

    ghost layout = { product };

    ghost rows = { λ t. t.product };

    ghost with_rows = { λ rows t. record t { product = rows } };

    fn read(alloc: Global, row: &Row) -> Result<DimRow, ParseError<Damaged>> {
        stored::read_dimension(alloc, Dim::Product, row)
    }
}

/// The table store.
pub struct Store;

impl StoredTable for Store {
    ghost use Rattle.wh_rows.specs.Rows.{store};

    type Row = DimRow;

    type Key = u64;

    ghost layout = { store };

    ghost rows = { λ t. t.store };

    ghost with_rows = { λ rows t. record t { store = rows } };

    fn read(alloc: Global, row: &Row) -> Result<DimRow, ParseError<Damaged>> {
        stored::read_dimension(alloc, Dim::Store, row)
    }
}

/// The table customer.
pub struct Customer;

impl StoredTable for Customer {
    ghost use Rattle.wh_rows.specs.Rows.{customer};

    type Row = DimRow;

    type Key = u64;

    ghost layout = { customer };

    ghost rows = { λ t. t.customer };

    ghost with_rows = { λ rows t. record t { customer = rows } };

    fn read(alloc: Global, row: &Row) -> Result<DimRow, ParseError<Damaged>> {
        stored::read_dimension(alloc, Dim::Customer, row)
    }
}

/// The table profile.
pub struct Profile;

impl StoredTable for Profile {
    ghost use Rattle.wh_rows.specs.Rows.{profile};

    type Row = ProfileRow;

    type Key = u64;

    ghost layout = { profile };

    ghost rows = { λ t. t.profile };

    ghost with_rows = { λ rows t. record t { profile = rows } };

    fn read(alloc: Global, row: &Row) -> Result<ProfileRow, ParseError<Damaged>> {
        stored::read_profile(alloc, row)
    }
}

/// The table calendar.
pub struct Calendar;

impl StoredTable for Calendar {
    ghost use Rattle.wh_rows.specs.Rows.{calendar};

    type Row = DateRow;

    type Key = Day;

    ghost layout = { calendar };

    ghost rows = { λ t. t.calendar };

    ghost with_rows = { λ rows t. record t { calendar = rows } };

    fn read(alloc: Global, row: &Row) -> Result<DateRow, ParseError<Damaged>> {
        stored::read_date(alloc, row)
    }
}

/// The table fact.
pub struct Fact;

impl StoredTable for Fact {
    ghost use Rattle.wh_rows.specs.Rows.{fact};

    type Row = wh_history::Fact;

    type Key = LineKey;

    ghost layout = { fact };

    ghost rows = { λ t. t.fact };

    ghost with_rows = { λ rows t. record t { fact = rows } };

    fn read(alloc: Global, row: &Row) -> Result<wh_history::Fact, ParseError<Damaged>> {
        stored::read_fact(alloc, row)
    }
}

/// The table fact2.
pub struct Fact2;

impl StoredTable for Fact2 {
    ghost use Rattle.wh_rows.specs.Rows.{fact2};

    type Row = wh_history::Fact;

    type Key = LineKey;

    ghost layout = { fact2 };

    ghost rows = { λ t. t.fact2 };

    ghost with_rows = { λ rows t. record t { fact2 = rows } };

    fn read(alloc: Global, row: &Row) -> Result<wh_history::Fact, ParseError<Damaged>> {
        stored::read_fact2(alloc, row)
    }
}

/// The table void.
pub struct Void;

impl StoredTable for Void {
    ghost use Rattle.wh_rows.specs.Rows.{void};

    type Row = VoidRow;

    type Key = LineKey;

    ghost layout = { void };

    ghost rows = { λ t. t.void };

    ghost with_rows = { λ rows t. record t { void = rows } };

    fn read(alloc: Global, row: &Row) -> Result<VoidRow, ParseError<Damaged>> {
        stored::read_void(alloc, row)
    }
}
