ghost use Rattle.grammar_file.specs.Lines.{texts};
ghost use Rattle.grammar_file.specs.Said.{are_parts, has_form, kind_of};
ghost use Rattle.grammar_file.specs.Names.{is_name};
ghost use Rattle.std.specs.List.{list_all};
ghost use Rattle.std.specs.Prelude.{◌≡◌};

use crate::endings::{EndingWord, ending_word_of, has_ending_form};
use crate::number::is_numeral;
use crate::spelling::is_name;

/// The forms of a rule's body.
#[derive(Clone, Copy, Debug, PartialEq, Eq)]
pub(crate) enum Kind {
    Split,
    Parts,
    Ending(EndingWord),
}

/// The form that this word begins.
#[tactic(auto, unfolding(crate::specs::Said::kind_of))]
pub(crate) fn kind_of(word: &[u8]) -> Option<Kind>
    ensures { result ≡ kind_of word.now }
{
    match word {
        b"split" => Some(Kind::Split),
        b"parts" => Some(Kind::Parts),
        _ => ending_word_of(word).map(Kind::Ending),
    }
}

/// Whether the words are sizes and names in turn.
pub(crate) fn are_parts(words: &[&[u8]]) -> bool
    ensures { result ≡ are_parts (texts words.now) }
{
    match words {
        [] => true,
        [_size] => false,
        [size, name, more @ ..] => is_numeral(size) && is_name(name) && are_parts(more),
    }
}

/// Whether the words are names.
fn are_names(words: &[&[u8]]) -> bool
    ensures { result ≡ list_all is_name (texts words.now) }
{
    words.iter().all(|word| is_name(word))
}

/// Whether the words after its first fit a body of this kind in this version.
pub(crate) fn has_form(version: u8, kind: Kind, words: &[&[u8]]) -> bool
    ensures { result ≡ has_form version kind (texts words.now) }
{
    match kind {
        Kind::Split => words.len() >= 2 && words.len() <= 16 && are_names(words),
        Kind::Parts => { version == 2 && words.len() >= 4 && words.len() <= 32 && are_parts(words) }
        Kind::Ending(word) => has_ending_form(word, words),
    }
}
