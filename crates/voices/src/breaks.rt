ghost use Rattle.std.specs.Prelude.{◌↔◌, ◌≤◌, IsTrue, length};
ghost use Rattle.voices.specs.Breaks.{IsBreak, IsLastBreak, IsNextBreak};
ghost use Rattle.voices.specs.Voice.{AreNotesOfVoice};

use crate::voice_notes::VoiceNotes;
use tempo_map::TempoMap;

/// The place is a break: its note begins more than `window` microseconds after the note before it, or one of them is not there.
fn is_break(
    notes: &VoiceNotes<'_>,
    map: &TempoMap,
    division: u16,
    window: u32,
    place: usize,
) -> bool
    requires { AreNotesOfVoice notes.now }
    ensures { IsTrue result ↔ IsBreak map.now.tempos division window notes.now place }
{
    if place == 0 || place >= notes.len() {
        return true;
    }
    let window = u64::from(window) * u64::from(division);
    let before = map.time(notes.onset(place - 1));
    map.time(notes.onset(place)).saturating_sub(before) > window
}

/// The last break of the notes of a voice up to a place. A break may stand at 0 and after the last note.
pub fn break_up_to(
    notes: &VoiceNotes<'_>,
    map: &TempoMap,
    division: u16,
    window: u32,
    most: usize,
) -> usize
    requires { AreNotesOfVoice notes.now }
    ensures { IsLastBreak map.now.tempos division window notes.now most result }
{
    let mut place = most;
    'notes: while !is_break(notes, map, division, window, place) {
        place -= 1;
    }
    place
}

/// The first break of the notes of a voice from a place on, or the place after the last note.
pub fn break_from(
    notes: &VoiceNotes<'_>,
    map: &TempoMap,
    division: u16,
    window: u32,
    least: usize,
) -> usize
    requires notes { AreNotesOfVoice notes.now }
    requires least { least ≤ length notes.now }
    ensures { IsNextBreak map.now.tempos division window notes.now least result }
{
    let _few = notes.len();
    let mut place = least;
    'notes: while !is_break(notes, map, division, window, place) {
        place += 1;
    }
    place
}
