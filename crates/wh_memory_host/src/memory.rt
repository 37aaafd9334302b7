//! Files and warehouses in memory, under their names.

ghost use Rattle.std.specs.Prelude.{◌≡◌, ◌≢◌, ℕ, List, Option, Some, None, IfOk, IfErr, OnErr, option_map};
ghost use Rattle.wh_program.specs.declared.host.HostError.TheVariants.{Memory};
ghost use Rattle.wh_memory_host.specs.Memory.{file_named, kept_named};
ghost use Rattle.wh_memory_host.specs.Named.{named};
ghost use Rattle.wh_program.specs.Standing.{DatabaseContent, IsAt, IsKept, Nothing, Rests, Standing, Stands};
ghost use Rattle.sqlite.specs.Held.{state};
ghost use Rattle.sqlite.specs.Steps.{over_memory};

use crate::named::{NamedValue, add, find, put, replace};
use sqlite::{Connection, MemStore};
use std::alloc::{AllocError, Global};
use std::io::Write;
use wh_program::{Host, HostError, Visitor, beginning_of};

/// A host of named files in memory, and of warehouses in memory under other names, which stay between runs.
#[derive(Drop)]
pub struct MemoryHost {
    files: Vec<NamedValue<Vec<u8>>>,
    /// The connections, while they aren't lent. A place stays when its connection is lent, so that taking it back needs no memory.
    kept: Vec<NamedValue<Option<Connection<MemStore>>>>,
    /// The names under which a file of a warehouse was made.
    made: Vec<NamedValue<()>>,
}

impl MemoryHost {
    /// The host of no file, under whose names nothing is yet.
    pub fn new(alloc: Global) -> MemoryHost
        ensures no_file { (path : List ℕ) → ⟦<MemoryHost as Host>⟧.holds result path None }
        ensures nothing { (name : List ℕ) → ⟦<MemoryHost as Host>⟧.stores result name (Rests Nothing) }
    {
        MemoryHost {
            files: Vec::new(alloc),
            kept: Vec::new(alloc),
            made: Vec::new(alloc),
        }
    }

    /// Writes a file, in the place of the one that had its name.
    pub fn write(&mut self, alloc: Global, name: &str, bytes: Vec<u8>) -> Result<(), AllocError>
        ensures written { IfOk result (λ _. ⟦<MemoryHost as Host>⟧.holds self.new name.now (Some bytes.items)) }
        ensures other_files { (other : List ℕ) (file : Option (List ℕ)) → other ≢ name.now → ⟦<MemoryHost as Host>⟧.holds self.old other file → ⟦<MemoryHost as Host>⟧.holds self.new other file }
        ensures stored { (other : List ℕ) (standing : Standing) → other ≢ name.now → ⟦<MemoryHost as Host>⟧.stores self.old other standing → ⟦<MemoryHost as Host>⟧.stores self.new other standing }
        ensures not_written { OnErr result (self.new.files.items ≡ self.old.files.items) }
    {
        put(&mut self.files, alloc, name, bytes)
    }

    /// Keeps a connection under a name that is no file's, in the place of the one that was kept there.
    pub fn keep(
        &mut self,
        alloc: Global,
        name: &str,
        connection: Connection<MemStore>,
    ) -> Result<(), AllocError>
        ensures kept { IfOk result (λ _. (standing : Standing) → Stands standing (state over_memory connection)
            → ⟦<MemoryHost as Host>⟧.holds self.old name.now None → ⟦<MemoryHost as Host>⟧.stores self.new name.now standing) }
        ensures files { self.new.files ≡ self.old.files }
        ensures others { (other : List ℕ) (standing : Standing) → other ≢ name.now → ⟦<MemoryHost as Host>⟧.stores self.old other standing → ⟦<MemoryHost as Host>⟧.stores self.new other standing }
    {
        put(&mut self.kept, alloc, name, Some(connection))
    }

    /// Whether a file has the name, or one was made as a warehouse's.
    pub fn stands(&self, name: &str) -> bool {
        find(&self.files, name).is_some() || find(&self.made, name).is_some()
    }

    /// Forgets all warehouses.
    pub fn forget_warehouses(&mut self, alloc: Global)
        ensures files { self.new.files ≡ self.old.files }
        ensures nothing { (name : List ℕ) → ⟦<MemoryHost as Host>⟧.holds self.old name None → ⟦<MemoryHost as Host>⟧.stores self.new name (Rests Nothing) }
    {
        self.kept = Vec::new(alloc);
        self.made = Vec::new(alloc);
    }
}

fn copied(alloc: Global, bytes: &[u8]) -> Result<Vec<u8>, HostError>
    ensures ok { IfOk result (λ copy. copy.items ≡ bytes.now) }
    ensures err { IfErr result (λ e. e ≡ Memory) }
{
    match bytes.to_vec(alloc) {
        Ok(copy) => Ok(copy),
        Err(_) => Err(HostError::Memory),
    }
}

/// Makes a place under a name where there is none.
fn add_place(
    kept: &mut Vec<NamedValue<Option<Connection<MemStore>>>>,
    alloc: Global,
    name: &str,
) -> Result<(), AllocError>
    ensures placed { IfOk result (λ _. named kept.new.items name.now ≢ None) }
    ensures same { (any : List ℕ) → kept_named kept.new.items any ≡ kept_named kept.old.items any }
{
    if find(kept, name).is_some() {
        return Ok(());
    }
    add(kept, alloc, name, None)
}

/// Takes the connection out of the place of a name.
fn kept_named(
    kept: &mut [NamedValue<Option<Connection<MemStore>>>],
    name: &str,
) -> Option<Connection<MemStore>>
    ensures was { result ≡ kept_named kept.old name.now }
    ensures placed { named kept.new name.now ≡ option_map (λ _. None) (named kept.old name.now) }
    ensures others { (other : List ℕ) → other ≢ name.now → kept_named kept.new other ≡ kept_named kept.old other }
{
    match replace(kept, name, None) {
        Ok(connection) => connection,
        Err(_) => None,
    }
}

/// Takes the connection out of the place of a name. Where it has none, makes one to an empty database.
fn taken_or_new(
    kept: &mut [NamedValue<Option<Connection<MemStore>>>],
    alloc: Global,
    name: &str,
) -> Result<Connection<MemStore>, AllocError>
    ensures lent { IfOk result (λ connection. (content : DatabaseContent) → IsKept (Rests content) (kept_named kept.old name.now) → IsAt content (state over_memory connection)) }
    ensures placed { named kept.new name.now ≡ option_map (λ _. None) (named kept.old name.now) }
    ensures others { (other : List ℕ) → other ≢ name.now → kept_named kept.new other ≡ kept_named kept.old other }
    ensures not_lent { OnErr result ((any : List ℕ) → kept_named kept.new any ≡ kept_named kept.old any) }
{
    match kept_named(kept, name) {
        Some(connection) => Ok(connection),
        None => match Connection::open_in_memory(alloc) {
            Ok(connection) => Ok(connection),
            Err(_) => Err(AllocError),
        },
    }
}

/// The connection of a name, to be put back at its place.
fn lent(
    kept: &mut Vec<NamedValue<Option<Connection<MemStore>>>>,
    alloc: Global,
    name: &str,
) -> Result<Connection<MemStore>, AllocError>
    ensures lent { IfOk result (λ connection. (content : DatabaseContent) → IsKept (Rests content) (kept_named kept.old.items name.now) → IsAt content (state over_memory connection)) }
    ensures placed { IfOk result (λ _. named kept.new.items name.now ≢ None) }
    ensures others { (other : List ℕ) → other ≢ name.now → kept_named kept.new.items other ≡ kept_named kept.old.items other }
    ensures not_lent { OnErr result ((any : List ℕ) → kept_named kept.new.items any ≡ kept_named kept.old.items any) }
{
    add_place(kept, alloc, name)?;
    taken_or_new(kept, alloc, name)
}

/// Puts a connection back at its place.
fn put_back(
    kept: &mut Vec<NamedValue<Option<Connection<MemStore>>>>,
    name: &str,
    connection: Connection<MemStore>,
)
    ensures kept { named kept.old.items name.now ≢ None → kept_named kept.new.items name.now ≡ Some connection }
    ensures others { (other : List ℕ) → other ≢ name.now → kept_named kept.new.items other ≡ kept_named kept.old.items other }
{
    let _ = replace(kept, name, Some(connection));
}

impl Host for MemoryHost {
    ghost holds = { λ host path file. file ≡ file_named host.files.items path };

    ghost stores = { λ host name standing. (file_named host.files.items name ≡ None) × IsKept standing (kept_named host.kept.items name) };

    /// No warehouse is kept under a file's name.
    ghost refuses = { λ host name. file_named host.files.items name ≢ None };

    ghost shut = { λ host name. file_named host.files.items name ≢ None };

    fn read(&self, alloc: Global, path: &str, most: usize) -> Result<Vec<u8>, HostError> {
        match find(&self.files, path) {
            Some(bytes) => copied(alloc, beginning_of(bytes.as_slice(), most)),
            None => Err(HostError::NoFile),
        }
    }

    /// A name under which nothing is made is marked as a file's from then on.
    fn with_connection<V: Visitor, W: Write>(
        &mut self,
        alloc: Global,
        name: &str,
        visitor: V,
        out: &mut W,
    ) -> Result<V::Output, HostError> {
        if find(&self.files, name).is_some() {
            return Err(HostError::NoFile);
        }
        match put(&mut self.made, alloc, name, ()) {
            Ok(()) => self.with_existing(alloc, name, visitor, out),
            Err(_) => Err(HostError::Memory),
        }
    }

    /// A file that is no warehouse isn't connected.
    fn with_existing<V: Visitor, W: Write>(
        &mut self,
        alloc: Global,
        name: &str,
        visitor: V,
        out: &mut W,
    ) -> Result<V::Output, HostError> {
        if find(&self.files, name).is_some() {
            return Err(HostError::NoFile);
        }
        let connection = match lent(&mut self.kept, alloc, name) {
            Ok(connection) => connection,
            Err(_) => return Err(HostError::Memory),
        };
        let (output, connection, _) = visitor.visit(alloc, connection, out);
        put_back(&mut self.kept, name, connection);
        Ok(output)
    }
}
