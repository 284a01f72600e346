ghost use Rattle.grammar_file.specs.Lines.{texts};
ghost use Rattle.grammar_file.specs.Endings.{body_of_ending, ending_of_words, ending_word_of, ending_words, has_ending_form};
ghost use Rattle.std.specs.List.{join_with_byte};
ghost use Rattle.std.specs.Prelude.{◌≡◌, ◌++◌, IsTrue, OnOk};

use crate::fault::GrammarWhat;
use crate::number::{is_numeral, number_within};
use crate::text::{push, push_number};
use rhythm_base::{Body, Ending};
use std::alloc::{AllocError, Global};

/// The words of the endings.
#[derive(Clone, Copy, Debug, PartialEq, Eq)]
pub(crate) enum EndingWord {
    Note,
    Short,
    Tie,
    Rest,
    Grace,
}

/// The ending that this word begins.
#[tactic(auto, unfolding(crate::specs::Endings::ending_word_of))]
pub(crate) fn ending_word_of(word: &[u8]) -> Option<EndingWord>
    ensures { result ≡ ending_word_of word.now }
{
    match word {
        b"note" => Some(EndingWord::Note),
        b"short" => Some(EndingWord::Short),
        b"tie" => Some(EndingWord::Tie),
        b"rest" => Some(EndingWord::Rest),
        b"grace" => Some(EndingWord::Grace),
        _ => None,
    }
}

/// Whether the words after its first fit an ending of this word.
pub(crate) fn has_ending_form(word: EndingWord, words: &[&[u8]]) -> bool
    ensures { result ≡ has_ending_form word (texts words.now) }
{
    match word {
        EndingWord::Grace => match words {
            [digits] => is_numeral(digits),
            _ => false,
        },
        EndingWord::Note | EndingWord::Short | EndingWord::Tie | EndingWord::Rest => {
            words.is_empty()
        }
    }
}

/// The ending of this word with these words after it.
pub(crate) fn ending_of_words(word: EndingWord, words: &[&[u8]]) -> Result<Ending, GrammarWhat>
    requires { IsTrue (has_ending_form word (texts words.now)) }
    ensures { result ≡ ending_of_words word (texts words.now) }
{
    Ok(match word {
        EndingWord::Note => Ending::Note,
        EndingWord::Short => Ending::Short,
        EndingWord::Tie => Ending::Tie,
        EndingWord::Rest => Ending::Rest,
        EndingWord::Grace => Ending::Grace(number_within(words[0], 1, 3)? as u8),
    })
}

/// Appends the words of an ending.
pub(crate) fn push_ending(
    alloc: Global,
    text: &mut Vec<u8>,
    ending: Ending,
) -> Result<(), AllocError>
    ensures { OnOk result (text.new.items ≡ text.old.items ++ join_with_byte 32 (ending_words ending)) }
{
    match ending {
        Ending::Note => push(text, b"note"),
        Ending::Short => push(text, b"short"),
        Ending::Tie => push(text, b"tie"),
        Ending::Rest => push(text, b"rest"),
        Ending::Grace(graces) => {
            push(text, b"grace ")?;
            push_number(alloc, text, u32::from(graces))
        }
    }
}

/// The body that ends an interval so.
pub(crate) fn body_of_ending(ending: Ending) -> Body
    ensures { result ≡ body_of_ending ending }
{
    match ending {
        Ending::Note => Body::Note,
        Ending::Short => Body::Short,
        Ending::Tie => Body::Tie,
        Ending::Rest => Body::Rest,
        Ending::Grace(graces) => Body::Grace(graces),
    }
}
