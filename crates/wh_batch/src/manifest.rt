//! Manifests: the commands of a delivery, each with the file that it is in.

ghost use Rattle.std.specs.Prelude.{◌≡◌, [], ◌∷◌, IfOk, map};
ghost use Rattle.wh_batch.specs.Manifest.{entry_of};

use crate::entries::{Entry, EntryList};
use crate::fields::as_text;
use crate::kind::CommandKind;
use crate::path::FilePath;
use std::alloc::{AllocError, Global};
use thiserror::Error;
use wh_day::Value;

/// One command of a delivery, and where its input is.
#[derive(Debug, Drop)]
pub struct ManifestEntry {
    /// What the command is.
    pub kind: CommandKind,
    /// What the sender calls the command. Any text: it is judged when the command is sent.
    pub id: Value,
    /// The file that holds the batch, or the policy.
    pub path: FilePath,
}

/// The first record that is no entry: of a manifest, one that isn't the word of a kind, an id and a path; of a list of reports, one
/// that isn't four texts.
#[derive(Clone, Copy, Debug, PartialEq, Eq, Error)]
#[error("record {number} is no entry of the list")]
pub struct BadManifest {
    /// The number of the record, from 1.
    pub number: u64,
}

/// The commands of a delivery, in order.
pub type Manifest = EntryList<ManifestEntry>;

impl Entry for ManifestEntry {
    ghost entry = { entry_of };

    #[tactic(auto, unfolding(crate::specs::Manifest::entry_of))]
    fn read(alloc: Global, fields: &[&[u8]]) -> Result<Option<ManifestEntry>, AllocError> {
        match fields {
            [word, id, path] => three_fields(alloc, word, id, path),
            _ => Ok(None),
        }
    }
}

#[tactic(auto, unfolding(crate::specs::Manifest::entry_of))]
fn three_fields(
    alloc: Global,
    word: &[u8],
    id: &[u8],
    path: &[u8],
) -> Result<Option<ManifestEntry>, AllocError>
    ensures { IfOk result (λ entry. entry ≡ entry_of (word.now ∷ id.now ∷ path.now ∷ [])) }
{
    let (Some(word), Some(id), Some(path)) = (as_text(word), as_text(id), as_text(path)) else {
        return Ok(None);
    };
    let Some(kind) = CommandKind::from_word(word) else {
        return Ok(None);
    };
    Ok(Some(ManifestEntry {
        kind,
        id: Value::new(alloc, id)?,
        path: FilePath::new(alloc, path)?,
    }))
}
