//! A statement inside a transaction.

ghost use Rattle.std.specs.Prelude.{◌≡◌, ◌≤◌, false, Ok, Err, IsTrue, IfOk, IfErr};
ghost use Rattle.sqlite.specs.Held.{state};
ghost use Rattle.sqlite.specs.State.{HasCleanDisk, Survives, Executes, CommitsBy};
ghost use Rattle.sqlite.specs.Values.{bound};
ghost use Rattle.wh_rows.specs.AtRest.{IsCauseOf};
ghost use Rattle.wh_rows.specs.declared.cause.Cause.TheVariants.{Disk};
ghost use Rattle.wh_sql.specs.Facts.{rekeying};

use sqlite::types::ValueRef;
use sqlite::{Alter, Connection};
use wh_policy::Format;
use wh_rows::Cause;

/// Runs a statement while a transaction goes on. Where a refusal has ended it, the statement would be kept by itself: it isn't run, and the error is `Disk`.
pub(crate) fn execute<S: Alter>(
    conn: &mut Connection<S>,
    text: &str,
    params: &[ValueRef<'_>],
) -> Result<usize, Cause>
    ensures clean { HasCleanDisk (state S.Store conn.new) → HasCleanDisk (state S.Store conn.old) }
    ensures counts { (state S.Store conn.old).faults ≤ (state S.Store conn.new).faults }
    ensures survives { Survives (state S.Store conn.old) (state S.Store conn.new) (CommitsBy text.now (bound params.now) (state S.Store conn.old)) }
    ensures runs { HasCleanDisk (state S.Store conn.new) → IfOk result (λ count. Executes text.now (bound params.now) (state S.Store conn.old) (state S.Store conn.new) (Ok count)) }
    ensures cause { HasCleanDisk (state S.Store conn.new) → IsTrue (state S.Store conn.old).in_transaction → IfErr result (IsCauseOf text.now (bound params.now) (state S.Store conn.old) (state S.Store conn.new)) }
    ensures late { conn.old.in_transaction ≡ false → (result ≡ Err Disk) × (conn.new ≡ conn.old) }
{
    if conn.is_autocommit() {
        return Err(Cause::Disk);
    }
    let count = conn.execute(text, params)?;
    Ok(count)
}

/// The text that gives a fact of a format other keys.
pub(crate) fn rekeying(format: Format) -> &'static str
    ensures { result.now ≡ rekeying format }
{
    match format {
        Format::One => {
            "UPDATE fact SET store_key = ?3, product_key = ?4, customer_key = ?5, profile = ?6 WHERE ticket = ?1 AND line = ?2"
        }
        Format::Two => {
            "UPDATE fact2 SET store_key = ?3, product_key = ?4, customer_key = ?5, profile = ?6 WHERE ticket = ?1 AND line = ?2"
        }
    }
}
