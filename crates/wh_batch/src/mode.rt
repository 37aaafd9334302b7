//! How a report groups sales.

ghost use Rattle.std.specs.Prelude.{◌≡◌};
ghost use Rattle.wh_batch.specs.Mode.{mode_word, mode_of_word};

/// Which of an attribute's values a report shows.
///
/// Kimball & Ross, *The Data Warehouse Toolkit*, 3rd edition, chapter 5: as-was and as-is reporting ("Type 7: Dual Type 1
/// and Type 2 Dimensions"), and the alternate reality of "Type 3: Add New Attribute".
#[derive(Clone, Copy, Debug, PartialEq, Eq)]
pub enum Mode {
    /// As things were on the day of sale.
    Was,
    /// As they are now.
    Is,
    /// As they were before.
    Prior,
}

impl Mode {
    /// The word for it, in requests and in print.
    pub fn word(self) -> &'static str
        ensures { result.now ≡ mode_word self }
    {
        match self {
            Mode::Was => "was",
            Mode::Is => "is",
            Mode::Prior => "prior",
        }
    }

    /// The mode of a word, if it is the word for one.
    pub fn from_word(word: &str) -> Option<Mode>
        ensures { result ≡ mode_of_word word.now }
    {
        match word {
            "was" => Some(Mode::Was),
            "is" => Some(Mode::Is),
            "prior" => Some(Mode::Prior),
            _ => None,
        }
    }
}
