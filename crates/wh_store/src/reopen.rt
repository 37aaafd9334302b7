//! Connections to a new database, and from one run to the next.

ghost use Rattle.std.specs.Prelude.{◌≡◌, ◌⊎◌, true, false, codes, Option, None, IfOk, IfErr, IfSome, IsErrAnd};
ghost use Rattle.sqlite_wal.specs.Files.{outcomes, image_at};
ghost use Rattle.sqlite_wal.specs.Reads.{AreClean};
ghost use Rattle.sqlite_std_file.specs.File.{IsFresh};
ghost use Rattle.sqlite.specs.Files.{file_state, IsNothing};
ghost use Rattle.sqlite.specs.Held.{state};
ghost use Rattle.sqlite.specs.State.{HasCleanDisk};
ghost use Rattle.sqlite.specs.Steps.{over_memory};
ghost use Rattle.wh_rows.specs.AtRest.{IsAtRest};
ghost use Rattle.wh_rows.specs.Raw.{Stored, RestsOn};
ghost use Rattle.wh_rows.specs.Tables.{Tables};
ghost use Rattle.wh_store.specs.InFiles.{AreInFiles, AreStoredIn, HoldsOneOf, IsReopened, RefusesFiles, IsNotReopened};

use sqlite::{
    Connection, Error, ErrorCode, FileFrom, FileStore, Files, Leftover, MemStore, Options, Start,
};
use sqlite_disk::{Crash, Disk};
use std::alloc::{AllocError, Global};

/// A database in memory in which nothing is yet. `for_init` takes it.
pub fn open_fresh(alloc: Global) -> Result<Connection<MemStore>, AllocError>
    ensures { IfOk result (λ conn. IsAtRest None (state over_memory conn)) }
{
    Connection::open_in_memory(alloc)
}

/// Ends the run with no more work on the files. After a crash they hold one of the states that it could have left of the connection.
pub fn into_files<D: Disk + Drop>(conn: Connection<FileStore<D>>) -> Files<D>
    ensures { AreClean D.Disk result.log result.db → (image : _) → outcomes D.Disk result.log result.db image → HoldsOneOf (file_state conn) image }
{
    conn.into_store().close()
}

/// Opens the files at a path, or makes them. What they held, or nothing where there was no database, the connection holds. An error comes
/// with what is left of the files, once they were opened. The path `:memory:` is refused with `CannotOpen`.
pub fn open_path<S: Start>(
    rt: &HostRuntime,
    path: &str,
    start: S,
) -> Result<Connection<FileStore<FileFrom<S>>>, (Error, Option<Leftover<FileFrom<S>>>)>
    ensures held { (held : Option Tables) → AreInFiles held (image_at S.Start) → IfOk result (λ conn. HasCleanDisk (file_state conn) → ∥ IsAtRest held (file_state conn) ∥₁) }
    // The same of any stored rows.
    ensures stored { (stored : Stored) → AreStoredIn stored (image_at S.Start) → IfOk result (λ conn. HasCleanDisk (file_state conn) → ∥ RestsOn stored (file_state conn) ∥₁) }
    ensures nothing { IsNothing (image_at S.Start) → IfOk result (λ conn. HasCleanDisk (file_state conn) → IsAtRest None (file_state conn)) }
    ensures memory { path.now ≡ codes ":memory:" → IsErrAnd result (λ e. e.0 ≡ Error.SqliteFailure ErrorCode.CannotOpen) }
    ensures unopened { IfErr result (λ e. e.1 ≡ None
        → (e.0 ≡ Error.SqliteFailure ErrorCode.CannotOpen) ⊎ ((e.0 ≡ Error.SqliteFailure ErrorCode.OutOfMemory) ⊎ (e.0 ≡ Error.SqliteFailure ErrorCode.DatabaseBusy))) }
    ensures refused { IfErr result (λ e. IfSome e.1 (λ left. (files : _) × IsFresh true files.log × IsFresh false files.db × RefusesFiles files left e.0)) }
{
    match Connection::open_from(rt, path, false, start) {
        Ok(conn) => Ok(conn),
        Err((error, left)) => Err((error, left)),
    }
}

/// The machine stops and comes back. What is opened then is one of what a crash could leave. An error comes with what is left of the files,
/// which held one of these too.
pub fn restart<D: Crash + Drop>(
    alloc: Global,
    conn: Connection<FileStore<D>>,
    options: Options,
) -> Result<Connection<FileStore<D>>, (Error, Leftover<D>)>
    ensures clean { IfOk result (λ again. HasCleanDisk (file_state again) → HasCleanDisk (file_state conn)) }
    ensures found { IfOk result (λ again. HasCleanDisk (file_state again) → ∥ IsReopened (file_state conn) (file_state again) ∥₁) }
    ensures refused { IfErr result (λ e. IsNotReopened (file_state conn) e.1 e.0) }
{
    let mut files = conn.into_store().close();
    files.log.crash();
    files.db.crash();
    match Connection::open_files(alloc, files, options) {
        Ok(again) => Ok(again),
        Err((error, rest)) => Err((error, rest)),
    }
}
