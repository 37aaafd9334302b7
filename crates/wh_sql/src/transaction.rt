//! How a transaction begins and ends.

ghost use Rattle.std.specs.Prelude.{◌≡◌, ◌⊎◌, codes, [], false, Option, Err, IsTrue, IfErr, OnOk};
ghost use Rattle.sqlite.specs.Held.{state};
ghost use Rattle.sqlite.specs.Tree.{Trees};
ghost use Rattle.sqlite.specs.State.{HasCleanDisk, Survives};
ghost use Rattle.wh_rows.specs.declared.cause.Cause.TheVariants.{Disk};
ghost use Rattle.wh_rows.specs.Tables.{Tables};
ghost use Rattle.wh_rows.specs.AtRest.{AreTrees, Leaves, IsAtRest, IsWriting, IsCauseOf};

use sqlite::{Alter, Connection};
use wh_rows::Cause;

/// Begins a transaction. Inside one it is refused.
pub(crate) fn begin<S: Alter>(conn: &mut Connection<S>) -> Result<(), Cause>
    ensures clean { HasCleanDisk (state S.Store conn.new) → HasCleanDisk (state S.Store conn.old) }
    ensures begun { HasCleanDisk (state S.Store conn.new) → (held : Option Tables) → IsAtRest held (state S.Store conn.old) → OnOk result (IsWriting held held (state S.Store conn.new)) }
    ensures left { HasCleanDisk (state S.Store conn.new) → (held : Option Tables) → IsAtRest held (state S.Store conn.old) → Leaves held (state S.Store conn.new) }
    ensures survives { Survives (state S.Store conn.old) (state S.Store conn.new) (λ _. ⊥) }
    ensures cause { HasCleanDisk (state S.Store conn.new) → conn.old.in_transaction ≡ false → IfErr result (IsCauseOf (codes "BEGIN") [] (state S.Store conn.old) (state S.Store conn.new)) }
    ensures within { IsTrue conn.old.in_transaction → (result ≡ Err Disk) × (conn.new ≡ conn.old) }
{
    if !conn.is_autocommit() {
        return Err(Cause::Disk);
    }
    conn.execute("BEGIN", &[])?;
    Ok(())
}

/// Keeps what the transaction made.
pub(crate) fn commit<S: Alter>(conn: &mut Connection<S>) -> Result<(), Cause>
    ensures clean { HasCleanDisk (state S.Store conn.new) → HasCleanDisk (state S.Store conn.old) }
    ensures written { HasCleanDisk (state S.Store conn.new) → (before made : Option Tables) → IsWriting before made (state S.Store conn.old) → OnOk result (IsAtRest made (state S.Store conn.new)) }
    ensures left { HasCleanDisk (state S.Store conn.new) → (before made : Option Tables) → IsWriting before made (state S.Store conn.old)
        → (trees : Trees) → (state S.Store conn.new).may_leave trees → AreTrees before trees ⊎ AreTrees made trees }
    ensures cause { HasCleanDisk (state S.Store conn.new) → IfErr result (IsCauseOf (codes "COMMIT") [] (state S.Store conn.old) (state S.Store conn.new)) }
{
    conn.execute("COMMIT", &[])?;
    Ok(())
}

/// Undoes what the transaction made.
pub(crate) fn roll_back<S: Alter>(conn: &mut Connection<S>)
    ensures clean { HasCleanDisk (state S.Store conn.new) → HasCleanDisk (state S.Store conn.old) }
    ensures undone { HasCleanDisk (state S.Store conn.new) → (before made : Option Tables) → IsWriting before made (state S.Store conn.old)
        → IsTrue (state S.Store conn.new).is_open → IsAtRest before (state S.Store conn.new) }
    ensures left { HasCleanDisk (state S.Store conn.new) → (before made : Option Tables) → IsWriting before made (state S.Store conn.old) → Leaves before (state S.Store conn.new) }
    ensures survives { Survives (state S.Store conn.old) (state S.Store conn.new) (λ _. ⊥) }
{
    let _ = conn.execute("ROLLBACK", &[]);
}
