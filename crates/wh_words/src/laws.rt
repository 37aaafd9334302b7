//! Laws of the words. They speak of the definitions alone and do nothing.

ghost use Rattle.wh_words.specs.Laws.{WordsAreRead, OtherWordsAreNone};

/// The words of a command ask for what it is to do. All other words without a hyphen in front ask for nothing.
pub fn words_of_commands_are_read()
    ensures read { WordsAreRead }
    ensures others { OtherWordsAreNone }
{}
