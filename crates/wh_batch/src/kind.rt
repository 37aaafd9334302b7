//! What a batch is of, and what a command is.

ghost use Rattle.std.specs.Prelude.{◌≡◌};
ghost use Rattle.wh_batch.specs.BatchKind.{kind_word, kind_of_word, command_kind_word, command_kind_of_word};

use wh_policy::Dim;

/// What the records of a batch are of.
#[derive(Clone, Copy, Debug, PartialEq, Eq)]
pub enum BatchKind {
    /// Records of the members of a dimension.
    Dimension(Dim),
    /// Sales, which are lines of tickets.
    Sales,
    /// Lines of tickets that are withdrawn.
    Voids,
}

impl BatchKind {
    /// The word for it, in commands: the dimension's, `sales` or `void`.
    pub fn word(self) -> &'static str
        ensures { result.now ≡ kind_word self }
    {
        match self {
            BatchKind::Dimension(dim) => dim.word(),
            BatchKind::Sales => "sales",
            BatchKind::Voids => "void",
        }
    }

    /// The kind of a word, if it is the word for one.
    pub fn from_word(word: &str) -> Option<BatchKind>
        ensures { result ≡ kind_of_word word.now }
    {
        if word == "sales" {
            return Some(BatchKind::Sales);
        }
        if word == "void" {
            return Some(BatchKind::Voids);
        }
        match Dim::from_word(word) {
            Some(dim) => Some(BatchKind::Dimension(dim)),
            None => None,
        }
    }
}

/// What a command is.
#[derive(Clone, Copy, Debug, PartialEq, Eq)]
pub enum CommandKind {
    /// A batch of records.
    Batch(BatchKind),
    /// A new policy, which is in force from then on.
    Migration,
    /// The second format, from then on.
    Upgrade,
}

impl CommandKind {
    /// The word for it, in commands and in those that are kept: the batch's, `migrate` or `upgrade`.
    pub fn word(self) -> &'static str
        ensures { result.now ≡ command_kind_word self }
    {
        match self {
            CommandKind::Batch(kind) => kind.word(),
            CommandKind::Migration => "migrate",
            CommandKind::Upgrade => "upgrade",
        }
    }

    /// The kind of a word, if it is the word for one.
    pub fn from_word(word: &str) -> Option<CommandKind>
        ensures { result ≡ command_kind_of_word word.now }
    {
        if word == "migrate" {
            return Some(CommandKind::Migration);
        }
        if word == "upgrade" {
            return Some(CommandKind::Upgrade);
        }
        match BatchKind::from_word(word) {
            Some(kind) => Some(CommandKind::Batch(kind)),
            None => None,
        }
    }
}
