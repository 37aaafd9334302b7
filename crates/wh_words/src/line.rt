//! The words of a line: of a session, or of a list of queries.

ghost use Rattle.std.specs.Prelude.{◌≡◌, ◌++◌, ◌∷◌, [], List, All, IfOk, IsUtf8, MatchOption, OnOk, Some, fold, map, option_map, string_bytes};
ghost use Rattle.wh_words.specs.Line.{IsRead, after_byte, ended, is_blank, is_remark, meaning_of, meant, none_yet, turned, words_of_text};

use std::alloc::{AllocError, Global};
use std::marker::Model;
use std::mem;

/// The most bytes of a line.
pub const LINE_LIMIT: usize = 65_536;

/// What a line says.
#[derive(Debug, Drop)]
pub enum Line {
    /// Nothing: it is empty, or a remark.
    Passed,
    /// What is no command.
    NoCommand,
    /// The words of a command.
    Words(Vec<String>),
}

/// What the next byte of a line is part of.
#[derive(Clone, Copy, Debug)]
enum Place {
    /// Between words.
    Between,
    /// In a word without double quotes.
    Bare,
    /// In a word that began with one.
    Quoted,
    /// Behind a double quote in such a word.
    Closed,
    /// Behind what can't stand in a line of words.
    Wrong,
}

/// What a byte does to the word.
#[derive(Clone, Copy, Debug)]
enum Turn {
    Leaves,
    Adds,
    Ends,
}

fn is_blank(byte: u8) -> bool
    ensures { result ≡ is_blank byte }
{
    byte == b' ' || byte == b'\t' || byte == b'\r'
}

/// Where a byte leads, and what it does to the word.
fn turned(place: Place, byte: u8) -> (Place, Turn)
    ensures { result ≡ turned place byte }
{
    let is_blank = is_blank(byte);
    match place {
        Place::Between if is_blank => (Place::Between, Turn::Leaves),
        Place::Between if byte == b'"' => (Place::Quoted, Turn::Leaves),
        Place::Between => (Place::Bare, Turn::Adds),
        Place::Bare if is_blank => (Place::Between, Turn::Ends),
        Place::Bare if byte == b'"' => (Place::Wrong, Turn::Leaves),
        Place::Bare => (Place::Bare, Turn::Adds),
        Place::Quoted if byte == b'"' => (Place::Closed, Turn::Leaves),
        Place::Quoted => (Place::Quoted, Turn::Adds),
        Place::Closed if is_blank => (Place::Between, Turn::Ends),
        Place::Closed if byte == b'"' => (Place::Quoted, Turn::Adds),
        Place::Closed => (Place::Wrong, Turn::Leaves),
        Place::Wrong => (Place::Wrong, Turn::Leaves),
    }
}

/// The words of a line so far, and the beginning of the next.
#[derive(Drop)]
struct Split {
    place: Place,
    words: Vec<Vec<u8>>,
    word: Vec<u8>,
}

impl Model for Split {
    ghost use Rattle.std.specs.Prelude.{map};
    ghost use Rattle.wh_words.specs.Line.{Split as SplitSoFar};

    ghost Value = { SplitSoFar };

    ghost view = { λ s. record { place = s.place; words = map (λ w. w.items) s.words.items; word = s.word.items } };
}

impl Split {
    fn new(alloc: Global) -> Split
        ensures { result ≡ none_yet }
    {
        Split {
            place: Place::Between,
            words: Vec::new(alloc),
            word: Vec::new(alloc),
        }
    }

    /// Ends the word.
    fn end_word(&mut self, alloc: Global, place: Place) -> Result<(), AllocError>
        ensures { OnOk result (self.new ≡ record { place = place; words = self.old.words ++ self.old.word ∷ []; word = [] }) }
    {
        self.place = place;
        let word = mem::replace(&mut self.word, Vec::new(alloc));
        self.words.push(word)?;
        Ok(())
    }

    /// Adds a byte to the word.
    fn add_byte(&mut self, place: Place, byte: u8) -> Result<(), AllocError>
        ensures { OnOk result (self.new ≡ record (self.old) { place = place; word = self.old.word ++ byte ∷ [] }) }
    {
        self.place = place;
        self.word.push(byte)?;
        Ok(())
    }

    /// Goes on by a byte.
    fn take_byte(&mut self, alloc: Global, byte: u8) -> Result<(), AllocError>
        ensures { OnOk result (self.new ≡ after_byte self.old byte) }
    {
        match turned(self.place, byte) {
            (place, Turn::Leaves) => {
                self.place = place;
                Ok(())
            }
            (place, Turn::Adds) => self.add_byte(place, byte),
            (place, Turn::Ends) => self.end_word(alloc, place),
        }
    }

    /// The words, if no quote is open.
    fn into_words(self) -> Option<Vec<Vec<u8>>>
        ensures { option_map (λ words. map (λ w. w.items) words.items) result ≡ ended self }
    {
        match self.place {
            Place::Between => Some(self.words),
            _ => None,
        }
    }
}

/// What is read of a text.
fn split_of(alloc: Global, text: &[u8]) -> Result<Split, AllocError>
    ensures { IfOk result (λ s. s ≡ fold after_byte none_yet text.now) }
{
    let mut split = Split::new(alloc);
    for byte in text {
        split.take_byte(alloc, *byte)?;
    }
    Ok(split)
}

/// The words of a text: parted by blanks, one that begins with a double quote going to the next that isn't doubled.
fn words_of_text(alloc: Global, text: &[u8]) -> Result<Option<Vec<Vec<u8>>>, AllocError>
    ensures { IfOk result (λ found. option_map (λ words. map (λ w. w.items) words.items) found ≡ words_of_text text.now) }
{
    let mut split = split_of(alloc, text)?;
    split.take_byte(alloc, b' ')?;
    Ok(split.into_words())
}

/// The words as texts, if all of them are UTF-8.
fn texts_of(alloc: Global, words: Vec<Vec<u8>>) -> Result<Option<Vec<String>>, AllocError>
    ensures { IfOk result (λ found. MatchOption found (¬ (All IsUtf8 (map (λ w. w.items) words.items))) (λ texts. map string_bytes texts.items ≡ map (λ w. w.items) words.items)) }
{
    let mut texts = Vec::with_capacity(alloc, words.len())?;
    for word in &words {
        match str::from_utf8(word) {
            Ok(text) => texts.push(String::from_str(alloc, text)?)?,
            Err(_) => return Ok(None),
        }
    }
    Ok(Some(texts))
}

/// The line of some words.
fn line_of_words(alloc: Global, words: Vec<Vec<u8>>) -> Result<Line, AllocError>
    ensures { IfOk result (IsRead (meant (Some (map (λ w. w.items) words.items)))) }
{
    if words.is_empty() {
        return Ok(Line::Passed);
    }
    match texts_of(alloc, words)? {
        Some(texts) => Ok(Line::Words(texts)),
        None => Ok(Line::NoCommand),
    }
}

fn is_remark(line: &[u8]) -> bool
    ensures { result ≡ is_remark line.now }
{
    match line.first() {
        Some(byte) => *byte == b'#',
        None => false,
    }
}

/// What a line says.
pub fn read_line(alloc: Global, line: &[u8]) -> Result<Line, AllocError>
    ensures { IfOk result (IsRead (meaning_of line.now)) }
{
    if line.len() > LINE_LIMIT {
        return Ok(Line::NoCommand);
    }
    if is_remark(line) {
        return Ok(Line::Passed);
    }
    match words_of_text(alloc, line)? {
        Some(words) => line_of_words(alloc, words),
        None => Ok(Line::NoCommand),
    }
}
