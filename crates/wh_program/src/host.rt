//! The files that a run can name, and the connections to those that are warehouses.

ghost use Rattle.std.specs.Prelude.{◌≡◌, ◌≢◌, ℕ, suc, List, take, Option, Some, None, ⊤, IfOk, IfErr, OnOk, OnErr, option_map};
ghost use Rattle.sqlite.specs.Held.{state};
ghost use Rattle.sqlite.specs.State.{HasCleanDisk};
ghost use Rattle.wh_program.specs.Inputs.{up_to, manifest_limit, manifest_part, as_manifest};
ghost use Rattle.wh_program.specs.Standing.{DatabaseContent, Standing, Rests, Stands};
ghost use Rattle.wh_program.specs.declared.host.HostError.TheVariants.{NoFile};

use crate::limits::MANIFEST_LIMIT;
use sqlite::{Alter, Connection};
use std::alloc::{AllocError, Global};
use std::io::Write;
use thiserror::Error;

/// Why a host gives no file, or lends no connection.
#[derive(Clone, Copy, Debug, PartialEq, Eq, Error)]
pub enum HostError {
    /// There is none of that name, or it could not be read or connected.
    #[error("there is no such file, or it could not be read or connected")]
    NoFile,
    /// Memory ran out.
    #[error("memory ran out")]
    Memory,
}

/// What is done with the connection of a warehouse, over any store, and may be printed.
pub trait Visitor: Drop {
    type Output;

    /// Over what the connection holds at rest, what is answered, what the writer holds before and after, and what then stands.
    ghost promises: { Self → DatabaseContent → Self.Output → Option (List ℕ) → Option (List ℕ) → Standing → Type 0 };

    /// Works on the connection, and hands it back, and whether the database refused it a call: its files are then to be opened anew.
    fn visit<T: Alter + Drop, W: Write>(
        self,
        alloc: Global,
        connection: Connection<T>,
        out: &mut W,
    ) -> (Self::Output, Connection<T>, bool)
        ensures { HasCleanDisk (state T.Store result.1) → (content : DatabaseContent) → Stands (Rests content) (state T.Store connection)
            → (after : Standing) × promises self content result.0 (W.contents out.old) (W.contents out.new) after × Stands after (state T.Store result.1) };
}

/// The files that a run can name.
pub trait Host {
    /// What stands under a name, `None` where no file does. A host that says nothing of it lets it be anything.
    ghost holds: { Self → List ℕ → Option (List ℕ) → Type 0 } = { λ _ _ _. ⊤ };

    /// What stands under a name as a warehouse. A host that says nothing of it knows of nothing that stands.
    ghost stores: { Self → List ℕ → Standing → Type 0 } = { λ _ _ _. ⊥ };

    /// The names under which it keeps no warehouse. A host that says nothing of them may refuse any.
    ghost refuses: { Self → List ℕ → Type 0 } = { λ _ _. ⊤ };

    /// The names that it can't open as a warehouse's, such as a directory's. A host that says nothing of them knows of none.
    ghost shut: { Self → List ℕ → Type 0 } = { λ _ _. ⊥ };

    /// Reads a file up to `most` bytes; a longer one is read a byte further, and no more.
    fn read(&self, alloc: Global, path: &str, most: usize) -> Result<Vec<u8>, HostError>
        ensures ok { IfOk result (λ bytes. up_to most (holds self.now) path.now (Some bytes.items)) }
        ensures err { IfErr result (λ e. e ≡ NoFile → holds self.now path.now None) };

    /// Lends a visitor the connection of the warehouse under a name, with a writer, and takes it back. Where no file has the name, a new one
    /// is connected. None is lent under a name that is refused.
    fn with_connection<V: Visitor, W: Write>(
        &mut self,
        alloc: Global,
        name: &str,
        visitor: V,
        out: &mut W,
    ) -> Result<V::Output, HostError>
        ensures visited { (content : DatabaseContent) → stores self.old name.now (Rests content)
            → IfOk result (λ output. (after : Standing) × V.promises visitor content output (W.contents out.old) (W.contents out.new) after × stores self.new name.now after) }
        ensures refused { IfErr result (λ e. e ≡ NoFile → refuses self.old name.now) }
        ensures shut { shut self.old name.now → OnOk result ⊥ × (self.new ≡ self.old) }
        ensures not_printed { OnErr result (W.contents out.new ≡ W.contents out.old) }
        ensures not_visited { OnErr result ((any : List ℕ) (standing : Standing) → stores self.old any standing → stores self.new any standing) }
        ensures others { (other : List ℕ) (standing : Standing) → other ≢ name.now → stores self.old other standing → stores self.new other standing };

    /// The same for a visitor that makes no warehouse. Where no file has the name, or one that can't be a database, it lends an empty database in
    /// memory, makes no file, and leaves what is there as it is.
    fn with_existing<V: Visitor, W: Write>(
        &mut self,
        alloc: Global,
        name: &str,
        visitor: V,
        out: &mut W,
    ) -> Result<V::Output, HostError>
        ensures visited { (content : DatabaseContent) → stores self.old name.now (Rests content)
            → IfOk result (λ output. (after : Standing) × V.promises visitor content output (W.contents out.old) (W.contents out.new) after × stores self.new name.now after) }
        ensures refused { IfErr result (λ e. e ≡ NoFile → refuses self.old name.now) }
        ensures shut { shut self.old name.now → OnOk result ⊥ × (self.new ≡ self.old) }
        ensures not_printed { OnErr result (W.contents out.new ≡ W.contents out.old) }
        ensures not_visited { OnErr result ((any : List ℕ) (standing : Standing) → stores self.old any standing → stores self.new any standing) }
        ensures others { (other : List ℕ) (standing : Standing) → other ≢ name.now → stores self.old other standing → stores self.new other standing };
}

/// The first `most` bytes of a file, and one more where it is longer.
pub fn beginning_of(bytes: &[u8], most: usize) -> &[u8]
    ensures { result.now ≡ take (suc most) bytes.now }
{
    if bytes.len() <= most {
        return bytes;
    }
    &bytes[..most + 1]
}

/// The bytes of a file, if it is there, as far as they are read.
pub fn file_of<H: Host>(
    alloc: Global,
    path: &str,
    most: usize,
    host: &H,
) -> Result<Option<Vec<u8>>, AllocError>
    ensures { IfOk result (λ file. up_to most (H.holds host.now) path.now (option_map (λ bytes. bytes.items) file)) }
{
    match host.read(alloc, path, most) {
        Ok(bytes) => Ok(Some(bytes)),
        Err(HostError::NoFile) => Ok(None),
        Err(HostError::Memory) => Err(AllocError),
    }
}

/// What counts of a manifest whose first bytes these are. No text has the byte that stands for what follows.
fn part_of(mut bytes: Vec<u8>) -> Result<Vec<u8>, AllocError>
    ensures { IfOk result (λ part. (whole : List ℕ) → bytes.items ≡ take (suc manifest_limit) whole → part.items ≡ manifest_part whole) }
{
    if bytes.len() <= MANIFEST_LIMIT {
        return Ok(bytes);
    }
    bytes.truncate(MANIFEST_LIMIT);
    bytes.push(255)?;
    Ok(bytes)
}

/// What counts of a manifest, if it is there.
pub fn manifest_file_of<H: Host>(
    alloc: Global,
    path: &str,
    host: &H,
) -> Result<Option<Vec<u8>>, AllocError>
    ensures { IfOk result (λ file. as_manifest (H.holds host.now) path.now (option_map (λ bytes. bytes.items) file)) }
{
    let Some(bytes) = file_of(alloc, path, MANIFEST_LIMIT, host)? else {
        return Ok(None);
    };
    Ok(Some(part_of(bytes)?))
}
