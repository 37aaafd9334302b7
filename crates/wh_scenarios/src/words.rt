//! Numbers in steps and answers.

use crate::scenario::NotMade;
use std::alloc::AllocError;
use std::fmt::Write;

/// The number that a word writes.
pub fn number(word: &str) -> Result<u64, NotMade> {
    match word.parse::<u64>() {
        Ok(number) => Ok(number),
        Err(_) => Err(NotMade),
    }
}

/// A number that counts what is in memory.
pub fn place(word: &str) -> Result<usize, NotMade> {
    match word.parse::<usize>() {
        Ok(place) => Ok(place),
        Err(_) => Err(NotMade),
    }
}

/// Adds a number to an answer.
pub fn push_number(out: &mut String, number: u64) -> Result<(), AllocError> {
    write!(out, "{number}")
}
