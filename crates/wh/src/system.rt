//! The files of the system, and the connections to those that are warehouses.

ghost use Rattle.std.specs.Prelude.{◌≡◌, ◌≤◌, IsTrue, IfOk, OnErr, length};

use sqlite::{Alter, Connection, Error, ErrorCode, FileStore, Files, Options, Unknown};
use sqlite_disk::Disk;
use sqlite_std_file::{self as std_file, OpenError};
use std::alloc::Global;
use std::fs::{self, File};
use std::hash::{BuildHasher, RandomState};
use std::io;
use std::io::{Read, Write};
use wh_program::{Host, HostError, Visitor};

/// What a database's file begins with.
const HEADER: &[u8] = b"SQLite format 3\0";

/// How many bytes a page of a new file has.
const PAGE: u64 = 4096;

/// The most pages of a file that stay in memory: 64 MB.
const MOST_PAGES: u64 = 16_384;

/// As many where memory is short, and the most written ones before they go to the log: 32 MB.
const FEW_PAGES: usize = 8192;

/// How many pages a file has room for to grow.
const SPARE_PAGES: u64 = 500;

type Warehouse = Connection<FileStore<std_file::File>>;

/// A connection that stays open, with the name of its file.
#[derive(Drop)]
struct KeptWarehouse {
    name: String,
    connection: Warehouse,
}

/// The files of the system. The connection of the last visit stays open for the next one under its name, unless the database refused a call.
#[derive(Drop)]
pub struct SystemHost<'a> {
    runtime: &'a HostRuntime,
    kept: Option<KeptWarehouse>,
}

impl<'a> SystemHost<'a> {
    pub fn new(runtime: &'a HostRuntime) -> SystemHost<'a> {
        SystemHost {
            runtime,
            kept: None,
        }
    }

    /// Closes the connection that is open.
    pub fn close(self) {
        if let Some(kept) = self.kept {
            close(kept.connection);
        }
    }

    /// Whether the connection to the file of this name is open.
    fn keeps(&self, name: &str) -> bool {
        match &self.kept {
            Some(kept) => kept.name.as_str() == name,
            None => false,
        }
    }

    /// The connection to the file of this name: the one that is open, or a new one. One to another file is closed first.
    fn connection(&mut self, alloc: Global, name: &str) -> Result<Warehouse, HostError> {
        let keeps = self.keeps(name);
        match self.kept.take() {
            Some(kept) if keeps => Ok(kept.connection),
            Some(kept) => {
                close(kept.connection);
                opened(self.runtime, alloc, name)
            }
            None => opened(self.runtime, alloc, name),
        }
    }

    /// Keeps a connection open. Where there is no memory for its name, it is closed.
    fn keep(&mut self, alloc: Global, name: &str, connection: Warehouse) {
        match String::from_str(alloc, name) {
            Ok(name) => self.kept = Some(KeptWarehouse { name, connection }),
            Err(_) => close(connection),
        }
    }
}

fn close(connection: Warehouse) {
    // What was committed is in the files already, so a failure here loses nothing.
    let _ = connection.close();
}

/// Why a file was not read.
fn of_io(error: io::Error) -> HostError {
    match error.kind() {
        io::ErrorKind::OutOfMemory => HostError::Memory,
        _ => HostError::NoFile,
    }
}

/// Why a database's files were not opened.
fn of_opening(error: OpenError) -> HostError {
    match error {
        OpenError::OutOfMemory => HostError::Memory,
        OpenError::Io(error) => of_io(error),
        OpenError::Busy | OpenError::HotJournal => HostError::NoFile,
    }
}

/// Why a database was not connected.
fn of_connecting(error: Error) -> HostError {
    match error {
        Error::SqliteFailure(ErrorCode::OutOfMemory) => HostError::Memory,
        _ => HostError::NoFile,
    }
}

/// How many pages of a file stay in memory: all of a smaller one.
fn pages_kept(runtime: &HostRuntime, name: &str) -> usize {
    let bytes = match fs::metadata(runtime, name) {
        Ok(found) => found.len(),
        Err(_) => 0,
    };
    (bytes / PAGE + SPARE_PAGES).min(MOST_PAGES) as usize
}

/// How a connection uses memory.
fn options_for(runtime: &HostRuntime, name: &str) -> Result<Options, HostError> {
    let state = RandomState::new(runtime).map_err(of_io)?;
    Ok(Options {
        cache_pages: pages_kept(runtime, name),
        spill_pages: FEW_PAGES,
        ..Options::new(state.hash_one(&0u8))
    })
}

/// The database in two files that an open gave back for lack of memory. Fewer of its pages stay in memory.
fn connected_with_few<D: Disk + Drop>(
    alloc: Global,
    files: Files<D>,
    options: Options,
) -> Result<Connection<FileStore<D>>, HostError> {
    if !files.may_be_used() {
        return Err(HostError::Memory);
    }
    let few = Options {
        cache_pages: FEW_PAGES,
        ..options
    };
    match Connection::open_files(alloc, files, few) {
        Ok(connection) => Ok(connection),
        Err((error, _)) => Err(of_connecting(error)),
    }
}

/// The database in two files, on whatever disk they lie.
fn connected<D: Disk + Drop>(
    alloc: Global,
    files: Files<D>,
    options: Options,
) -> Result<Connection<FileStore<D>>, HostError>
    requires log { IsTrue (D.Disk.is_usable files.log) }
    requires db { IsTrue (D.Disk.is_usable files.db) }
{
    match Connection::open_files(alloc, files, options) {
        Ok(connection) => Ok(connection),
        Err((Error::SqliteFailure(ErrorCode::OutOfMemory), left))
            if options.cache_pages > FEW_PAGES => {
            connected_with_few(alloc, left.into_files(), options)
        }
        Err((error, _)) => Err(of_connecting(error)),
    }
}

/// The database in a file, or in a new one of that name, whose pages get no check sums: the `sqlite3` program can write it too.
fn opened(runtime: &HostRuntime, alloc: Global, name: &str) -> Result<Warehouse, HostError> {
    let options = options_for(runtime, name)?;
    // `Unknown` says nothing of what the file holds, and supposes that a torn write leaves each byte old or new.
    match std_file::open(runtime, name, Unknown) {
        Ok(files) => connected(alloc, files, options),
        Err(error) => Err(of_opening(error)),
    }
}

/// What a visitor answers over a connection that nothing keeps.
fn visited_once<S: Alter + Drop, V: Visitor, W: Write>(
    alloc: Global,
    connection: Connection<S>,
    visitor: V,
    out: &mut W,
) -> V::Output {
    let (output, _, _) = visitor.visit(alloc, connection, out);
    output
}

/// What a visitor answers over an empty database in memory.
fn on_nothing<V: Visitor, W: Write>(
    alloc: Global,
    visitor: V,
    out: &mut W,
) -> Result<V::Output, HostError>
    ensures not_printed { OnErr result (W.contents out.new ≡ W.contents out.old) }
{
    match Connection::open_in_memory(alloc) {
        Ok(connection) => Ok(visited_once(alloc, connection, visitor, out)),
        Err(_) => Err(HostError::Memory),
    }
}

/// The bytes of a file, or as many of the first.
fn bytes_of(runtime: &HostRuntime, alloc: Global, path: &str, wanted: usize) -> io::Result<Vec<u8>>
    ensures { IfOk result (λ bytes. length bytes.items ≤ wanted) }
{
    let mut file = File::open(runtime, path)?.take(wanted as u64);
    let mut bytes = Vec::new(alloc);
    file.read_to_end(&mut bytes)?;
    // No clause says that no more were read.
    bytes.truncate(wanted);
    Ok(bytes)
}

/// Whether the log of a file, which lies where links lead, has any bytes.
fn has_log(runtime: &HostRuntime, alloc: Global, name: &str) -> io::Result<bool> {
    let file = fs::canonicalize(runtime, name)?;
    let log = format!(in alloc; "{}-wal", file.as_str())?;
    match fs::metadata(runtime, log.as_str()) {
        Ok(found) => Ok(found.len() > 0),
        Err(error) if error.kind() == io::ErrorKind::NotFound => Ok(false),
        Err(error) => Err(error),
    }
}

/// Whether a file begins as a database does.
fn has_header(runtime: &HostRuntime, alloc: Global, name: &str) -> io::Result<bool> {
    let bytes = bytes_of(runtime, alloc, name, HEADER.len())?;
    Ok(bytes.as_slice() == HEADER)
}

/// Whether what has the name can be a database: it begins as one, or a stopped run left its beginning in the log. What is no file is
/// left to the database, which refuses it.
fn can_be_database(runtime: &HostRuntime, alloc: Global, name: &str) -> io::Result<bool> {
    match fs::metadata(runtime, name) {
        Ok(found) if !found.is_file() => Ok(true),
        Ok(_) => Ok(has_header(runtime, alloc, name)? || has_log(runtime, alloc, name)?),
        Err(error) if error.kind() == io::ErrorKind::NotFound => Ok(false),
        Err(error) => Err(error),
    }
}

impl Host for SystemHost<'_> {
    fn read(&self, alloc: Global, path: &str, most: usize) -> Result<Vec<u8>, HostError> {
        match bytes_of(self.runtime, alloc, path, most.saturating_add(1)) {
            Ok(bytes) => Ok(bytes),
            Err(error) => Err(of_io(error)),
        }
    }

    fn with_connection<V: Visitor, W: Write>(
        &mut self,
        alloc: Global,
        name: &str,
        visitor: V,
        out: &mut W,
    ) -> Result<V::Output, HostError> {
        let connection = self.connection(alloc, name)?;
        let (output, connection, must_reopen) = visitor.visit(alloc, connection, out);
        match must_reopen {
            true => close(connection),
            false => self.keep(alloc, name, connection),
        }
        Ok(output)
    }

    fn with_existing<V: Visitor, W: Write>(
        &mut self,
        alloc: Global,
        name: &str,
        visitor: V,
        out: &mut W,
    ) -> Result<V::Output, HostError> {
        if self.keeps(name) {
            return self.with_connection(alloc, name, visitor, out);
        }
        match can_be_database(self.runtime, alloc, name) {
            Ok(true) => self.with_connection(alloc, name, visitor, out),
            Ok(false) => on_nothing(alloc, visitor, out),
            Err(error) => Err(of_io(error)),
        }
    }
}
