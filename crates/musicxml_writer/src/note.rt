ghost use Rattle.musicxml_writer.specs.Notes.{IsSetting, chord_mark, chord_text, grace_text, key_text, note_text, rest_text};
ghost use Rattle.std.specs.List.{flat_map};
ghost use Rattle.score_words.specs.Writing.{Writes};
ghost use Rattle.std.specs.Prelude.{◌<◌};

use crate::elements::{close_line, open, push_count, push_empty, push_empty_with, push_words};
use crate::marks::{Setting, push_key_notations, push_rest_notations, push_tie_ends};
use crate::pitch::push_key_pitch;
use crate::value::push_value;
use notation::Note;
use rhythm_base::Keys;
use score_words::RisingKeys;
use std::alloc::AllocError;

/// Appends the mark of a key that sounds with the one before it.
#[tactic(auto, unfolding(crate::specs::Notes::chord_mark))]
fn push_chord_mark(text: &mut Vec<u8>, lowest: bool) -> Result<(), AllocError>
    ensures { Writes (chord_mark lowest) text.old result text.new }
{
    if lowest {
        Ok(())
    } else {
        push_empty(text, "chord")
    }
}

/// Appends the line of a key of a chord.
#[tactic(auto, unfolding(crate::specs::Elements::element, crate::specs::Notes::key_text))]
fn push_key(
    text: &mut Vec<u8>,
    setting: Setting,
    note: &Note<'_>,
    lowest: bool,
    key: u8,
) -> Result<(), AllocError>
    requires setting { IsSetting setting }
    requires key { key < 128 }
    ensures { Writes (key_text setting note.now lowest key) text.old result text.new }
{
    open(text, "note")?;
    push_chord_mark(text, lowest)?;
    push_key_pitch(text, setting.sf, key)?;
    push_count(text, "duration", note.duration)?;
    push_tie_ends(text, "tie", note)?;
    push_value(text, setting.ratio, note.value)?;
    push_key_notations(text, setting.bracket, note, lowest)?;
    close_line(text, "note")
}

/// Appends the lines of the keys of a chord, by rising key.
fn push_chord(text: &mut Vec<u8>, setting: Setting, note: &Note<'_>) -> Result<(), AllocError>
    requires { IsSetting setting }
    ensures { Writes (chord_text (key_text setting note.now) note.now.keys) text.old result text.new }
{
    let mut left = RisingKeys::of(note.keys);
    let mut lowest = true;
    'keys: while let Some(key) = left.next() {
        push_key(text, setting, note, lowest, key)?;
        lowest = false;
    }
    Ok(())
}

/// Appends the line of a key of a grace chord.
#[tactic(auto, unfolding(crate::specs::Elements::element, crate::specs::Notes::grace_text))]
fn push_grace(text: &mut Vec<u8>, setting: Setting, lowest: bool, key: u8) -> Result<(), AllocError>
    requires setting { IsSetting setting }
    requires key { key < 128 }
    ensures { Writes (grace_text setting lowest key) text.old result text.new }
{
    open(text, "note")?;
    push_empty_with(text, "grace", "slash", "yes")?;
    push_chord_mark(text, lowest)?;
    push_key_pitch(text, setting.sf, key)?;
    push_words(text, "type", "eighth")?;
    close_line(text, "note")
}

/// Appends the lines of a grace chord, by rising key.
fn push_grace_chord(text: &mut Vec<u8>, setting: Setting, keys: Keys) -> Result<(), AllocError>
    requires { IsSetting setting }
    ensures { Writes (chord_text (grace_text setting) keys) text.old result text.new }
{
    let mut left = RisingKeys::of(keys);
    let mut lowest = true;
    'keys: while let Some(key) = left.next() {
        push_grace(text, setting, lowest, key)?;
        lowest = false;
    }
    Ok(())
}

/// Appends the lines of grace chords.
fn push_graces(text: &mut Vec<u8>, setting: Setting, chords: &[Keys]) -> Result<(), AllocError>
    requires { IsSetting setting }
    ensures { Writes (flat_map (chord_text (grace_text setting)) chords.now) text.old result text.new }
{
    'chords: for keys in chords {
        push_grace_chord(text, setting, *keys)?;
    }
    Ok(())
}

/// Appends the line of a rest.
#[tactic(auto, unfolding(crate::specs::Elements::element, crate::specs::Notes::rest_text))]
fn push_rest(text: &mut Vec<u8>, setting: Setting, note: &Note<'_>) -> Result<(), AllocError>
    requires { IsSetting setting }
    ensures { Writes (rest_text setting note.now) text.old result text.new }
{
    open(text, "note")?;
    push_empty(text, "rest")?;
    push_count(text, "duration", note.duration)?;
    push_value(text, setting.ratio, note.value)?;
    push_rest_notations(text, setting.bracket)?;
    close_line(text, "note")
}

/// Appends the lines of a note: a rest, or grace chords and a chord.
#[tactic(auto, unfolding(crate::specs::Notes::note_text))]
pub(crate) fn push_note(
    text: &mut Vec<u8>,
    setting: Setting,
    note: &Note<'_>,
) -> Result<(), AllocError>
    requires { IsSetting setting }
    ensures { Writes (note_text setting note.now) text.old result text.new }
{
    if note.keys == Keys::none() {
        return push_rest(text, setting, note);
    }
    push_graces(text, setting, note.graces)?;
    push_chord(text, setting, note)
}
