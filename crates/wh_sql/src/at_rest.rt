//! The tables over a connection, which are asked while it is at rest.

ghost use Rattle.std.specs.Prelude.{◌≡◌, false, Option, IfOk};
ghost use Rattle.std.specs.Borrow.{sem, RestsIfErr};
ghost use Rattle.sqlite.specs.Held.{state};
ghost use Rattle.sqlite.specs.State.{HasCleanDisk, Survives};
ghost use Rattle.wh_rows.specs.AtRest.{IsAtRest, IsWriting};
ghost use Rattle.wh_rows.specs.Tables.{Tables as TypedTables};
ghost use Rattle.wh_sql.specs.Answers.{state_of};
ghost use Rattle.wh_sql.specs.Beginning.{FailsToBegin};
ghost use Rattle.wh_sql.specs.Present.{is_second_taken};

use crate::schema::is_second_taken;
use crate::transaction::begin;
use crate::writing::Writing;
use sqlite::{Alter, Connection};
use wh_rows::Cause;

/// The tables over one connection: they are asked while it is at rest, and written in a transaction.
#[derive(Drop)]
pub struct Tables<S: Alter> {
    pub(crate) conn: Connection<S>,
}

impl<S: Alter> Tables<S> {
    ghost use Rattle.wh_sql.specs.contracts.at_rest.Tables.{the_row};

    /// The tables over this connection, whatever its database holds. `wh_store` tells whether they are those of a warehouse.
    pub fn over(conn: Connection<S>) -> Tables<S>
        ensures { result.conn ≡ conn }
    {
        Tables { conn }
    }

    /// Whether a table, an index or a view has one of the two names that the second format adds. It is so over format 2, whose own tables have
    /// them. Where it is so over format 1, somebody else's object has one, and no upgrade is possible.
    pub fn is_second_taken(&self) -> bool
        ensures { result ≡ is_second_taken (state_of S.Store self.now).now.schema }
    {
        is_second_taken(&self.conn)
    }

    /// Begins a transaction, to which the tables belong until it ends. The error is the cause for which the database refused it.
    pub fn begin(&mut self) -> Result<Writing<'_, S>, Cause>
        ensures* refused { sem 𝓛 (RestsIfErr (the_row S.row S.Store) self.entry (λ writing. writing.tables.ghost_name) result (λ last. FailsToBegin (state S.Store self.old.conn) (state S.Store last.conn) result)) }
        ensures same_reference { IfOk result (λ writing. writing.tables.ghost_name ≡ self.entry.ghost_name) }
        ensures begun { IfOk result (λ writing. HasCleanDisk (state S.Store writing.tables.now.conn) → (held : Option TypedTables) → IsAtRest held (state S.Store self.old.conn) → IsWriting held held (state S.Store writing.tables.now.conn)) }
        ensures survives { IfOk result (λ writing. Survives (state S.Store self.old.conn) (state S.Store writing.tables.now.conn) (λ _. ⊥)) }
        ensures counted { IfOk result (λ writing. writing.writes ≡ 0) }
        ensures fresh { IfOk result (λ writing. writing.refused ≡ false) }
    {
        begin(&mut self.conn)?;
        Ok(Writing::new(self))
    }

    /// Hands the connection back.
    pub fn close(self) -> Connection<S>
        ensures { result ≡ self.conn }
    {
        self.conn
    }
}
