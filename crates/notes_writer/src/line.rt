ghost use Rattle.notes_writer.specs.Line.{words_line, record_word};
ghost use Rattle.std.specs.List.{flat_map};
ghost use Rattle.std.specs.Prelude.{◌≡◌, ◌∷◌, ◌++◌, OnOk, codes, map};

use std::alloc::AllocError;

/// A word of a line after its first.
#[derive(Clone, Copy)]
pub(crate) enum Word {
    Number(u64),
    /// Sharps where above 0, flats where below.
    Sharps(i8),
    /// Beats, and the value of a beat as the part of a whole note.
    Signature { num: u8, den: u8 },
}

/// Appends a word.
fn push_word(text: &mut Vec<u8>, word: Word) -> Result<(), AllocError>
    ensures { OnOk result (text.new.items ≡ text.old.items ++ record_word word) }
{
    let mut buffer = itoa::Buffer::new();
    match word {
        Word::Number(number) => text.extend_from_slice(buffer.format(number).as_bytes()),
        Word::Sharps(sharps) => text.extend_from_slice(buffer.format(sharps).as_bytes()),
        Word::Signature { num, den } => {
            text.extend_from_slice(buffer.format(num).as_bytes())?;
            text.extend_from_slice(b"/")?;
            text.extend_from_slice(buffer.format(den).as_bytes())
        }
    }
}

/// Appends words with a space before each.
fn push_words(text: &mut Vec<u8>, words: &[Word]) -> Result<(), AllocError>
    ensures { OnOk result (text.new.items ≡ text.old.items ++ flat_map (λ w. codes " " ++ record_word w) words.now) }
{
    'words: for word in words {
        text.extend_from_slice(b" ")?;
        push_word(text, *word)?;
    }
    Ok(())
}

/// Appends a line of a name and the words after it.
pub(crate) fn push_line(text: &mut Vec<u8>, name: &[u8], words: &[Word]) -> Result<(), AllocError>
    ensures { OnOk result (text.new.items ≡ text.old.items ++ words_line (name.now ∷ map record_word words.now)) }
{
    text.extend_from_slice(name)?;
    push_words(text, words)?;
    text.extend_from_slice(b"\n")
}
