//! Which words an operand can be, and the line where one is none of them.

ghost use Rattle.std.specs.Prelude.{◌≡◌, IfOk, string_bytes};
ghost use Rattle.wh_words.specs.WrongWord.{wrong_word_line};

use std::alloc::{AllocError, Global};

/// What DIMENSION can be.
pub const DIMENSIONS: &str = "product, store and customer";

/// What KIND can be for a load.
pub const KINDS: &str = "product, store, customer, sales and void";

/// What KIND can be for a plan.
pub const COMMAND_KINDS: &str = "product, store, customer, sales, void, migrate and upgrade";

/// What KIND can be for an explanation.
pub const EXPLAINED_KINDS: &str =
    "product, store, customer, sales, void, init, migrate and upgrade";

/// What MODE can be.
pub const MODES: &str = "was, is and prior";

/// What FROM can be.
pub const NUMBERS: &str = "the numbers 0 to 999999999";

/// What BY can be.
pub const COLUMNS: &str = "ATTRIBUTE and ATTRIBUTE:MODE, with was, is or prior as MODE";

/// What `--where` can be.
pub const CONDITIONS: &str =
    "ATTRIBUTE=LABEL and ATTRIBUTE:MODE=LABEL, with was, is or prior as MODE";

/// The line where BY is given too often.
pub const TOO_MANY_COLUMNS: &str = "error: BY is given more than 6 times\n";

/// The line where `--where` is given too often.
pub const TOO_MANY_CONDITIONS: &str = "error: --where is given more than 12 times\n";

/// What TABLE can be.
pub const TABLES: &str =
    "meta, command, member, change, product, store, customer, profile, calendar, fact, fact2 and void";

/// The line where no word names a command.
pub const NO_COMMAND_LINE: &str = "error: no command was given\n";

/// The line where the word that was given for an operand is none of those that are possible.
pub fn wrong_word_line(
    alloc: Global,
    operand: &str,
    word: &str,
    possible: &str,
) -> Result<String, AllocError>
    ensures { IfOk result (λ text. string_bytes text ≡ wrong_word_line operand.now word.now possible.now) }
{
    format!(in alloc; "error: {operand} is '{word}', and none of {possible}\n")
}
