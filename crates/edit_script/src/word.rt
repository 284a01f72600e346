ghost use Rattle.edit_script.specs.Pieces.{after, more_numbers, more_words, word_text, words_line, words_text};
ghost use Rattle.edit_script.specs.Sending.{Writes};
ghost use Rattle.edit_script.specs.Replies.{numbers_text};
ghost use Rattle.rhythm_ports.specs.Causes.{HasCause};

use crate::gathered::Gathered;
use rhythm_ports::{Partial, Sink};

/// A word of a reply.
#[derive(Clone, Copy)]
pub(crate) enum Word<'a> {
    Name(&'a [u8]),
    Number(u64),
}

/// Writes a word.
fn write_word<K: Sink>(sink: &mut K, held: &mut Gathered, word: Word) -> Result<(), Partial>
    ensures written { Writes K.taken sink.old sink.new held.old held.new (word_text word.entry) result }
    ensures cause { HasCause (K.faults sink.old) (K.faults sink.new) result }
{
    match word {
        Word::Name(text) => held.write(sink, text),
        Word::Number(number) => {
            let mut buffer = itoa::Buffer::new();
            held.write(sink, buffer.format(number).as_bytes())
        }
    }
}

/// Writes a separator and the word after it.
fn write_after<K: Sink>(
    sink: &mut K,
    held: &mut Gathered,
    separator: u8,
    word: Word,
) -> Result<(), Partial>
    ensures written { Writes K.taken sink.old sink.new held.old held.new (after separator word.entry) result }
    ensures cause { HasCause (K.faults sink.old) (K.faults sink.new) result }
{
    held.write(sink, &[separator])?;
    write_word(sink, held, word)
}

/// Writes words with a space before each.
fn write_later_words<K: Sink>(
    sink: &mut K,
    held: &mut Gathered,
    words: &[Word],
) -> Result<(), Partial>
    ensures written { Writes K.taken sink.old sink.new held.old held.new (more_words words.now) result }
    ensures cause { HasCause (K.faults sink.old) (K.faults sink.new) result }
{
    'words: for word in words {
        write_after(sink, held, b' ', *word)?;
    }
    Ok(())
}

/// Writes numbers with a comma before each.
fn write_later_numbers<K: Sink>(
    sink: &mut K,
    held: &mut Gathered,
    numbers: &[u16],
) -> Result<(), Partial>
    ensures written { Writes K.taken sink.old sink.new held.old held.new (more_numbers numbers.now) result }
    ensures cause { HasCause (K.faults sink.old) (K.faults sink.new) result }
{
    'numbers: for number in numbers {
        write_after(sink, held, b',', Word::Number(u64::from(*number)))?;
    }
    Ok(())
}

/// Writes words with a space between two.
pub(crate) fn write_words<K: Sink>(
    sink: &mut K,
    held: &mut Gathered,
    words: &[Word],
) -> Result<(), Partial>
    ensures written { Writes K.taken sink.old sink.new held.old held.new (words_text words.now) result }
    ensures cause { HasCause (K.faults sink.old) (K.faults sink.new) result }
{
    match words {
        [] => Ok(()),
        [first, later @ ..] => {
            write_word(sink, held, *first)?;
            write_later_words(sink, held, later)
        }
    }
}

/// Writes numbers with a comma between two.
pub(crate) fn write_numbers<K: Sink>(
    sink: &mut K,
    held: &mut Gathered,
    numbers: &[u16],
) -> Result<(), Partial>
    ensures written { Writes K.taken sink.old sink.new held.old held.new (numbers_text numbers.now) result }
    ensures cause { HasCause (K.faults sink.old) (K.faults sink.new) result }
{
    match numbers {
        [] => Ok(()),
        [first, later @ ..] => {
            write_word(sink, held, Word::Number(u64::from(*first)))?;
            write_later_numbers(sink, held, later)
        }
    }
}

/// Writes a line of words.
pub(crate) fn write_line<K: Sink>(
    sink: &mut K,
    held: &mut Gathered,
    words: &[Word],
) -> Result<(), Partial>
    ensures written { Writes K.taken sink.old sink.new held.old held.new (words_line words.now) result }
    ensures cause { HasCause (K.faults sink.old) (K.faults sink.new) result }
{
    write_words(sink, held, words)?;
    held.write(sink, b"\n")
}
