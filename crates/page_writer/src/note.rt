ghost use Rattle.derivation.specs.Score.{IsKeySignature};
ghost use Rattle.page_writer.specs.Groups.{chord_word, grace_text, graces_word, note_word, note_words, own_graces, short_text, silent_graces_text, tie_text};
ghost use Rattle.page_writer.specs.Words.{words_text};
ghost use Rattle.score_words.specs.Writing.{Writes};
ghost use Rattle.std.specs.Prelude.{◌≡◌, ◌==◌, ◌++◌, ◌∷◌, [], IfSome, map};

use crate::chord::push_chord;
use crate::value_text::push_value;
use notation::Note;
use rhythm_base::Keys;
use std::alloc::AllocError;

/// Appends so many silent grace notes, with a space after each.
fn push_silent_graces(text: &mut Vec<u8>, count: usize) -> Result<(), AllocError>
    ensures { Writes (silent_graces_text count) text.old result text.new }
{
    'silent: for _ in 0..count {
        text.extend_from_slice(b"s8 ")?;
    }
    Ok(())
}

/// Appends grace chords as eighths, with a space after each.
fn push_grace_chords(text: &mut Vec<u8>, sf: Option<i8>, chords: &[Keys]) -> Result<(), AllocError>
    requires { IfSome sf IsKeySignature }
    ensures { Writes (words_text (map (grace_text sf) chords.now)) text.old result text.new }
{
    'chords: for keys in chords {
        push_chord(text, sf, *keys)?;
        text.extend_from_slice(b"8 ")?;
    }
    Ok(())
}

/// Appends so many silent grace notes and these grace chords in their braces, and a space.
pub(crate) fn push_graces(
    text: &mut Vec<u8>,
    sf: Option<i8>,
    silent: usize,
    chords: &[Keys],
) -> Result<(), AllocError>
    requires { IfSome sf IsKeySignature }
    ensures { Writes (words_text (graces_word sf silent chords.now ∷ [])) text.old result text.new }
{
    text.extend_from_slice(b"\\slashedGrace { ")?;
    push_silent_graces(text, silent)?;
    push_grace_chords(text, sf, chords)?;
    text.extend_from_slice(b"} ")?;
    Ok(())
}

/// Appends the grace chords before a note, where there are some that have not been written.
fn push_own_graces(
    text: &mut Vec<u8>,
    sf: Option<i8>,
    written: bool,
    note: &Note,
) -> Result<(), AllocError>
    requires { IfSome sf IsKeySignature }
    ensures { Writes (words_text (own_graces sf written note.now)) text.old result text.new }
{
    if written || note.graces.is_empty() {
        return Ok(());
    }
    push_graces(text, sf, 0, note.graces)
}

/// Appends the marks of a chord: one of a short chord, and one where it is tied to the next.
fn push_marks(text: &mut Vec<u8>, short: bool, goes: bool) -> Result<(), AllocError>
    ensures { Writes (short_text short ++ tie_text goes) text.old result text.new }
{
    if short {
        text.extend_from_slice(b"-.")?;
    }
    if goes {
        text.push(b'~')?;
    }
    Ok(())
}

/// Appends a chord with its value and its marks.
fn push_chord_word(text: &mut Vec<u8>, sf: Option<i8>, note: &Note) -> Result<(), AllocError>
    requires { IfSome sf IsKeySignature }
    ensures { Writes (chord_word sf note.now) text.old result text.new }
{
    push_chord(text, sf, note.keys)?;
    push_value(text, note.value)?;
    push_marks(text, note.is_short, note.goes)
}

/// Whether a note is a rest.
fn is_rest(note: &Note) -> bool
    ensures { result ≡ (note.now.keys == 0) }
{
    note.keys == Keys::none()
}

/// Appends a note, a chord or a rest.
fn push_note_word(text: &mut Vec<u8>, sf: Option<i8>, note: &Note) -> Result<(), AllocError>
    requires { IfSome sf IsKeySignature }
    ensures { Writes (note_word sf note.now) text.old result text.new }
{
    if is_rest(note) {
        text.push(b'r')?;
        return push_value(text, note.value);
    }
    push_chord_word(text, sf, note)
}

/// Appends the words of a note, whose grace chords have been written or not, with a space after each.
pub(crate) fn push_note(
    text: &mut Vec<u8>,
    sf: Option<i8>,
    written: bool,
    note: &Note,
) -> Result<(), AllocError>
    requires { IfSome sf IsKeySignature }
    ensures { Writes (words_text (note_words sf written note.now)) text.old result text.new }
{
    push_own_graces(text, sf, written, note)?;
    push_note_word(text, sf, note)?;
    text.push(b' ')?;
    Ok(())
}
