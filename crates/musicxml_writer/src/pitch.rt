ghost use Rattle.musicxml_writer.specs.Pitches as definitions;
ghost use Rattle.derivation.specs.Score.{IsKeySignature};
ghost use Rattle.musicxml_writer.specs.Pitches.{key_pitch, pitch_text};
ghost use Rattle.score_words.specs.Writing.{Writes};
ghost use Rattle.std.specs.Prelude.{◌≡◌, ◌<◌, IfSome};

use crate::elements::{close, open, push_signed, push_some, push_words};
use notation::{Alteration, Letter, PitchName, pitch_name};
use std::alloc::AllocError;

/// The text of a letter.
fn letter_text(letter: Letter) -> &'static str
    ensures { result.now ≡ definitions.letter_text letter }
{
    match letter {
        Letter::C => "C",
        Letter::D => "D",
        Letter::E => "E",
        Letter::F => "F",
        Letter::G => "G",
        Letter::A => "A",
        Letter::B => "B",
    }
}

/// By how many half tones a letter is raised or lowered: no text where it is not.
fn alter_text(alteration: Alteration) -> &'static str
    ensures { result.now ≡ definitions.alter_text alteration }
{
    match alteration {
        Alteration::DoubleFlat => "-2",
        Alteration::Flat => "-1",
        Alteration::Natural => "",
        Alteration::Sharp => "1",
        Alteration::DoubleSharp => "2",
    }
}

/// Appends the element of a pitch.
#[tactic(auto, unfolding(crate::specs::Elements::element, crate::specs::Pitches::pitch_text))]
fn push_pitch(text: &mut Vec<u8>, name: PitchName) -> Result<(), AllocError>
    ensures { Writes (pitch_text name) text.old result text.new }
{
    open(text, "pitch")?;
    push_words(text, "step", letter_text(name.letter))?;
    push_some(text, "alter", alter_text(name.alteration))?;
    push_signed(text, "octave", name.octave)?;
    close(text, "pitch")
}

/// Appends the element of a key, by its name where a key signature is in force or none.
#[tactic(auto, unfolding(crate::specs::Pitches::key_pitch))]
pub(crate) fn push_key_pitch(text: &mut Vec<u8>, sf: Option<i8>, key: u8) -> Result<(), AllocError>
    requires sf { IfSome sf IsKeySignature }
    requires key { key < 128 }
    ensures { Writes (key_pitch sf key) text.old result text.new }
{
    push_pitch(text, pitch_name(key, sf))
}
