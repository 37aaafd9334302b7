//! Tables that are kept nowhere: their files lie on disks in memory.

ghost use Rattle.std.specs.Prelude.{None, IfOk};
ghost use Rattle.sqlite.specs.Files.{over_files};
ghost use Rattle.wh_store.specs.Faithful.{RestsFaithfully};

use sqlite::{Connection, FileStore, Files, Options};
use sqlite_disk::Memory;
use std::alloc::{AllocError, Global};

/// A store whose two files lie on disks in memory, for as many rows as a file takes.
pub type Scratch = FileStore<Memory>;

/// A new database over such a store in which nothing is yet. `for_init` takes it. Any refusal is answered as a lack of memory.
pub fn open_scratch(alloc: Global) -> Result<Connection<Scratch>, AllocError>
    ensures { IfOk result (RestsFaithfully over_files None) }
{
    let files = Files {
        log: Memory::new(alloc),
        db: Memory::new(alloc),
    };
    match Connection::open_files(alloc, files, Options::new(1)) {
        Ok(conn) => Ok(conn),
        Err(_) => Err(AllocError),
    }
}
