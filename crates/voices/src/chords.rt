ghost use Rattle.std.specs.Prelude.{◌≡◌, ◌<◌, [], ◌∷◌, IfOk, length, vec_capacity};
ghost use Rattle.rhythm_base.specs.Chords as chords;
ghost use Rattle.voices.specs.Voice as voice;
ghost use Rattle.voices.specs.Voice.{AreNotesOfVoice, IsSounded};

use rhythm_base::{Chord, Keys, Note};
use std::alloc::{AllocError, Global};
use tempo_map::TempoMap;

/// The chord of one note.
fn chord_of(note: &Note) -> Chord
    requires { IsSounded note.now }
    ensures { result ≡ chords.chord_of note.now [] }
{
    Chord {
        onset: note.onset,
        end: note.end,
        keys: Keys::one(note.key),
    }
}

/// The chord with one note more.
fn joined(chord: Chord, note: &Note) -> Chord
    requires { IsSounded note.now }
    ensures { result ≡ voice.joined chord note.now }
{
    Chord {
        onset: chord.onset,
        end: chord.end.max(note.end),
        keys: chord.keys.join(Keys::one(note.key)),
    }
}

/// The chords of a voice of one note and others after it, put into a list that has room for a chord of each.
fn gathered(
    mut list: Vec<Chord>,
    first: &Note,
    others: &[Note],
    map: &TempoMap,
    division: u16,
    window: u32,
) -> Vec<Chord>
    requires none { list.items ≡ [] }
    requires room { length others.now < vec_capacity list }
    requires notes { AreNotesOfVoice (first.now ∷ others.now) }
    ensures { chords.AreChords map.now.tempos division window (first.now ∷ others.now) result.items }
{
    let window = u64::from(window) * u64::from(division);
    let mut chord = chord_of(first);
    let mut begin = map.time(first.onset);
    'notes: for note in others {
        let time = map.time(note.onset);
        if time - begin > window {
            list.push_reserved(chord);
            chord = chord_of(note);
            begin = time;
        } else {
            chord = joined(chord, note);
        }
    }
    list.push_reserved(chord);
    list
}

/// The chords of a voice. A note joins the chord before it where its time is at most `window` microseconds after that of
/// the chord's first note. `division` is the ticks of a quarter note.
pub fn chords_of(
    alloc: Global,
    notes: &[Note],
    map: &TempoMap,
    division: u16,
    window: u32,
) -> Result<Vec<Chord>, AllocError>
    requires { AreNotesOfVoice notes.now }
    ensures { IfOk result (λ v. chords.AreChords map.now.tempos division window notes.now v.items) }
{
    let chords = Vec::with_capacity(alloc, notes.len())?;
    match notes {
        [] => Ok(chords),
        [first, others @ ..] => Ok(gathered(chords, first, others, map, division, window)),
    }
}
