ghost use Rattle.derivation.specs.Score.{IsKeySignature};
ghost use Rattle.page_writer.specs.Pitches as definitions;
ghost use Rattle.page_writer.specs.Pitches.{name_text, octave_marks, page_pitch};
ghost use Rattle.score_words.specs.Writing.{Writes};
ghost use Rattle.std.specs.Prelude.{◌≡◌, ◌<◌, IfSome};

use notation::{Alteration, Letter, PitchName, pitch_name};
use score_words::push_times;
use std::alloc::AllocError;

/// The text of a letter.
pub(crate) fn letter_text(letter: Letter) -> &'static [u8]
    ensures { result.now ≡ definitions.letter_text letter }
{
    match letter {
        Letter::C => b"c",
        Letter::D => b"d",
        Letter::E => b"e",
        Letter::F => b"f",
        Letter::G => b"g",
        Letter::A => b"a",
        Letter::B => b"b",
    }
}

/// The text of an alteration.
pub(crate) fn alteration_text(alteration: Alteration) -> &'static [u8]
    ensures { result.now ≡ definitions.alteration_text alteration }
{
    match alteration {
        Alteration::DoubleFlat => b"eses",
        Alteration::Flat => b"es",
        Alteration::Natural => b"",
        Alteration::Sharp => b"is",
        Alteration::DoubleSharp => b"isis",
    }
}

/// Appends the marks of an octave.
fn push_octave(text: &mut Vec<u8>, octave: i8) -> Result<(), AllocError>
    ensures { Writes (octave_marks octave) text.old result text.new }
{
    let marks = octave.abs_diff(3);
    if octave < 3 {
        push_times(text, b',', marks)
    } else {
        push_times(text, b'\'', marks)
    }
}

/// Appends the name of a pitch.
fn push_name(text: &mut Vec<u8>, name: PitchName) -> Result<(), AllocError>
    ensures { Writes (name_text name) text.old result text.new }
{
    text.extend_from_slice(letter_text(name.letter))?;
    text.extend_from_slice(alteration_text(name.alteration))?;
    push_octave(text, name.octave)
}

/// Appends the pitch of a key, where a key signature is in force or none.
pub(crate) fn push_pitch(text: &mut Vec<u8>, sf: Option<i8>, key: u8) -> Result<(), AllocError>
    requires key { key < 128 }
    requires sf { IfSome sf IsKeySignature }
    ensures { Writes (page_pitch sf key) text.old result text.new }
{
    push_name(text, pitch_name(key, sf))
}
