//! Paths of files.

ghost use Rattle.std.specs.Prelude.{◌≡◌, IfOk};

use std::alloc::{AllocError, Global};
use std::marker::Model;

/// The path of a file, which is any text. A contract sees its bytes.
#[derive(Debug, Drop)]
pub struct FilePath {
    text: String,
}

impl Model for FilePath {
    ghost use Rattle.std.specs.Prelude.{List, ℕ, string_bytes};

    ghost Value = { List ℕ };

    ghost view = { λ p. string_bytes p.text };
}

impl FilePath {
    /// The path of this text, which isn't judged. The error comes where memory ran out.
    pub fn new(alloc: Global, text: &str) -> Result<FilePath, AllocError>
        ensures { IfOk result (λ path. path ≡ text.now) }
    {
        Ok(FilePath {
            text: String::from_str(alloc, text)?,
        })
    }

    /// Its text, to open the file and for printing.
    pub fn as_str(&self) -> &str
        ensures { result.now ≡ self.now }
    {
        self.text.as_str()
    }
}
