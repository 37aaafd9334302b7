//! What `clap` found in the words of a command, by the names of its operands and options.

ghost use Rattle.std.specs.Prelude.{◌≡◌, option_map};
ghost use Rattle.wh_words.specs.Given.{all_words_in, given_in, has_flag, optional_word, word_for, words_for};

use clap::ArgMatches;

/// The words that were given for an operand or an option, if any were.
pub(crate) fn words_for<'m, 'a>(given: &'m ArgMatches<'a>, name: &str) -> Option<&'m [&'a str]>
    ensures { all_words_in result ≡ words_for (given_in given.now) name.now }
{
    given.get_raw(name)
}

/// The first of them, if there is one.
pub(crate) fn optional_word<'a>(given: &ArgMatches<'a>, name: &str) -> Option<&'a str>
    ensures { option_map (λ word. word.now) result ≡ optional_word (given_in given.now) name.now }
{
    given.get_str(name)
}

/// The word for an operand that a command can't do without: `clap` takes no words that lack one.
pub(crate) fn word_for<'a>(given: &ArgMatches<'a>, name: &str) -> &'a str
    ensures { result.now ≡ word_for (given_in given.now) name.now }
{
    optional_word(given, name).unwrap_or("")
}

/// Whether an option that takes no value was given.
pub(crate) fn has_flag(given: &ArgMatches<'_>, name: &str) -> bool
    ensures { result ≡ has_flag (given_in given.now) name.now }
{
    match optional_word(given, name) {
        Some(word) => word == "true",
        None => false,
    }
}
