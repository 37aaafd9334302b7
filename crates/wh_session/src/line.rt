//! The words of a line as those of the program.

ghost use Rattle.std.specs.Prelude.{◌≡◌, IfOk, map, not, string_bytes};
ghost use Rattle.wh_words.specs.CommandLine.{is_operand};
ghost use Rattle.wh_session.specs.Line.{stands_alone, with_file};

use std::alloc::{AllocError, Global};

/// Whether words that begin so are for no warehouse.
fn stands_alone(word: &str) -> bool
    ensures { result ≡ stands_alone word.now }
{
    match word {
        "help" | "trial" => true,
        _ => begins_with_hyphen(word.as_bytes()),
    }
}

fn begins_with_hyphen(word: &[u8]) -> bool
    ensures { result ≡ not (is_operand word.now) }
{
    match word.first() {
        Some(byte) => *byte == b'-',
        None => false,
    }
}

/// The words with the warehouse behind the first.
pub fn with_file(
    alloc: Global,
    file: &str,
    mut words: Vec<String>,
) -> Result<Vec<String>, AllocError>
    ensures { IfOk result (λ whole. map string_bytes whole.items ≡ with_file file.now (map string_bytes words.items)) }
{
    match words.first() {
        Some(word) if !stands_alone(word.as_str()) => {}
        _ => return Ok(words),
    }
    words.insert(1, String::from_str(alloc, file)?)?;
    Ok(words)
}
