//! The facts of some members, each with days of its own, out of all that are stored, in whatever order.

ghost use Rattle.std.specs.Prelude.{◌≡◌, ℕ, Bool, List, filter, [], ◌∷◌, ◌++◌, IfOk, IfErr};
ghost use Rattle.std.specs.FinMap.{values};
ghost use Rattle.sqlite.specs.Held.{state};
ghost use Rattle.sqlite.specs.Order.{Row as Columns};
ghost use Rattle.sqlite.specs.Values.{bound};
ghost use Rattle.sqlite.specs.State.{HasCleanDisk};
ghost use Rattle.wh_rows.specs.AtRest.{IsAtRest};
ghost use Rattle.wh_rows.specs.Questions.{durable_column};
ghost use Rattle.wh_rows.specs.Raw.{Stored, RestsOn};
ghost use Rattle.wh_rows.specs.Tables.{Tables};
ghost use Rattle.wh_rows.specs.Since.{is_of_members};
ghost use Rattle.wh_sql.specs.Picked.{ShowsSome, FailsToShowSome, PicksSales};
ghost use Rattle.wh_sql.specs.Reads.{NeverReturns, ReadsOnly, NamesDamage, IsUndamaged, AreRead};
ghost use Rattle.wh_sql.specs.declared.fault.ReadFault.TheVariants.{Memory};

use crate::facts::Facts;
use crate::fault::ReadFault;
use crate::keyed_table::KeyedTable;
use crate::keys::day_key;
use crate::read::read_on;
use sqlite::types::ValueRef;
use sqlite::{Alter, Connection, Row};
use std::alloc::Global;
use wh_day::Day;
use wh_policy::Dim;
use wh_rows::Cause;

/// Some members of a dimension, each with some days.
pub trait SomeMembers {
    // By durable key and day.
    ghost among: { Self → ℕ → ℕ → Bool };

    /// Whether the durable key is that of one of them, and the day one of its own.
    fn has(&self, durable: u64, day: u64) -> bool
        ensures { result ≡ among self.now durable day };
}

/// The column of a fact with the durable key of its member of the dimension.
fn durable_column(dim: Dim) -> usize
    ensures { result ≡ durable_column dim }
{
    match dim {
        Dim::Store => 6,
        Dim::Product => 7,
        Dim::Customer => 8,
    }
}

/// Whether the row is a fact of one of the members, on one of its days.
#[tactic(auto, unfolding(wh_rows::specs::Since::is_one_of))]
fn is_of_members<M: SomeMembers>(members: &M, dim: Dim, row: &Row) -> bool
    ensures { result ≡ is_of_members (M.among members.now) dim row.now }
{
    match row.get_ref(durable_column(dim)) {
        Ok(ValueRef::Int(durable)) if 0 <= durable => match row.get_ref(2) {
            Ok(ValueRef::Int(day)) if 0 <= day => members.has(durable as u64, day as u64),
            _ => false,
        },
        _ => false,
    }
}

/// The facts of the members that were read, and one more after them where the row is one.
fn read_of_members<T: KeyedTable, M: SomeMembers>(
    alloc: Global,
    members: &M,
    dim: Dim,
    read: Option<Vec<T::Row>>,
    row: &Row,
) -> Result<Option<Vec<T::Row>>, ReadFault>
    ensures read { (rows : List Columns) → AreRead T.layout (filter (is_of_members (M.among members.now) dim) rows) read → IfOk result (AreRead T.layout (filter (is_of_members (M.among members.now) dim) (rows ++ row.now ∷ []))) }
    ensures memory { IfErr result (λ fault. fault ≡ Memory) }
{
    if is_of_members(members, dim, row) {
        read_on::<T>(alloc, read, row)
    } else {
        Ok(read)
    }
}

/// Of the rows that a query shows, the facts of the members. The others are passed over as the database hands them out, whatever they hold.
/// `Damaged` is answered at the end of all that is shown. `Memory`: also where there are more rows than a `u64` counts.
pub(crate) fn rows_of_members<T: KeyedTable, M: SomeMembers, S: Alter>(
    alloc: Global,
    conn: &mut Connection<S>,
    text: &str,
    params: &[ValueRef<'_>],
    members: &M,
    dim: Dim,
) -> Result<Vec<T::Row>, ReadFault>
    requires { NeverReturns text.now }
    ensures shows { HasCleanDisk (state S.Store conn.new) → IfOk result (λ rows. ShowsSome T.layout (is_of_members (M.among members.now) dim) text.now (bound params.now) (state S.Store conn.old) (state S.Store conn.new) rows.items) }
    ensures refused { HasCleanDisk (state S.Store conn.new) → IfErr result (FailsToShowSome T.layout T.name (is_of_members (M.among members.now) dim) text.now (bound params.now) (state S.Store conn.old) (state S.Store conn.new)) }
    ensures reads { (HasCleanDisk (state S.Store conn.new) → (t : Tables) → IsAtRest (Some t) (state S.Store conn.old) → IsUndamaged result)
        → (HasCleanDisk (state S.Store conn.new) → (stored : Stored) → RestsOn stored (state S.Store conn.old) → IfErr result (NamesDamage stored)) → ReadsOnly (state S.Store conn.old) (state S.Store conn.new) result }
{
    let mut shown = match conn.query(text, params) {
        Ok(shown) => shown,
        Err(error) => return Err(ReadFault::Store(Cause::from(error))),
    };
    let mut read = Some(Vec::new(alloc));
    'rows: for _ in 0..u64::MAX {
        if let Err(error) = shown.advance() {
            return Err(ReadFault::Store(Cause::from(error)));
        }
        match shown.get() {
            Some(row) => read = read_of_members::<T, M>(alloc, members, dim, read, row)?,
            None => return read.ok_or(ReadFault::Damaged(T::table())),
        }
    }
    Err(ReadFault::Memory)
}

/// The facts of some members, out of the table of a format.
pub(crate) fn facts_of_members<F: Facts, M: SomeMembers, S: Alter>(
    alloc: Global,
    conn: &mut Connection<S>,
    dim: Dim,
    members: &M,
    from: Day,
) -> Result<Vec<F::Row>, ReadFault>
    ensures { PicksSales S.Store conn.old conn.new F.layout F.name (λ t. values (F.rows t)) F.fact (M.among members.now) dim from F.since_means result }
{
    let values = day_key(alloc, &from)?;
    rows_of_members::<F, M, S>(alloc, conn, F::since_text(), &values, members, dim)
}
