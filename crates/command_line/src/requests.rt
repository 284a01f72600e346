ghost use Rattle.command_line.specs.CommandLines.{texts};
ghost use Rattle.command_line.specs.OptionTable.{shown_row};
ghost use Rattle.command_line.specs.Requests.{asks, has_short_names, is_named, is_short_name, is_taking, takes_next};
ghost use Rattle.std.specs.List.{list_all, list_any};
ghost use Rattle.std.specs.Prelude.{◌≡◌, ◌==◌, ◌++◌, codes};
ghost use Rattle.std.specs.Str.{bytes_eq};

use crate::option_table::{OptionRow, options};

/// Whether each of the letters is a short name.
fn are_short_names(letters: &[u8]) -> bool
    ensures { result ≡ list_all is_short_name letters.now }
{
    letters
        .iter()
        .all(|letter| *letter == b'h' || *letter == b'V')
}

/// Whether the word is `-` and short names, each of one letter.
fn has_short_names(word: &[u8]) -> bool
    ensures { result ≡ has_short_names word.now }
{
    match word {
        [] => false,
        [byte, letters @ ..] => *byte == b'-' && are_short_names(letters),
    }
}

/// Whether the word has this byte.
fn has_byte(word: &[u8], byte: u8) -> bool
    ensures { result ≡ list_any (λ b. b == byte) word.now }
{
    word.iter().any(|other| *other == byte)
}

/// Whether the word is the long name, or has the letter among its short names.
fn is_named(word: &str, long: &str, letter: u8) -> bool
    ensures { result ≡ is_named long.now letter word.now }
{
    word == long || has_short_names(word.as_bytes()) && has_byte(word.as_bytes(), letter)
}

/// Whether the word is the name after two hyphens.
fn is_long(word: &str, name: &str) -> bool
    ensures { result ≡ bytes_eq word.now (codes "--" ++ name.now) }
{
    word.strip_prefix("--") == Some(name)
}

/// Whether the word is the option, and this takes the next word.
fn is_taking(word: &str, row: &OptionRow) -> bool
    ensures { result ≡ is_taking word.now (shown_row row.now) }
{
    match row.word {
        Some(_wanted) => is_long(word, row.name),
        None => false,
    }
}

/// Whether the word is one of the options, and this takes the next word.
fn any_is_taking(word: &str, rows: &[OptionRow]) -> bool
    ensures { result ≡ list_any (λ row. is_taking word.now (shown_row row)) rows.now }
{
    rows.iter().any(|row| is_taking(word, row))
}

/// Whether the word is an option that takes the next word.
fn takes_next(word: &str) -> bool
    ensures { result ≡ takes_next word.now }
{
    any_is_taking(word, options())
}

/// Whether a word before the first `--` has the long name or the short one, other than the word of an option.
#[tactic(auto, using(crate::proofs::Asking::goes_on, crate::proofs::Asking::found_here, crate::proofs::Asking::dashes_end))]
pub(crate) fn asks_by(words: &[&str], long: &str, letter: u8) -> bool
    ensures { result ≡ asks (is_named long.now letter) (texts words.now) }
{
    let mut follows = false;
    for word in words {
        if *word == "--" {
            return false;
        }
        if is_named(word, long, letter) && !follows {
            return true;
        }
        follows = takes_next(word);
    }
    false
}
