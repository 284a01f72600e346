ghost use Rattle.barline_follow.specs.Sounded.{AreSounded};
ghost use Rattle.rhythm_base.specs.Lists.{Each};
ghost use Rattle.rhythm_base.specs.Performance.{IsWellFormed};
ghost use Rattle.rhythm_base.specs.Voices.{AreChordsOf};
ghost use Rattle.std.specs.Prelude.{◌≡◌, IfOk};

use rhythm_base::{Chord, Grammar, Performance};
use std::alloc::{AllocError, Global};
use std::marker::Model;
use tempo_map::TempoMap;
use voices::{chords_of, notes_of_voice};

/// The chords of a voice.
#[derive(Drop)]
pub struct Voice {
    chords: Vec<Chord>,
}

impl Model for Voice {
    ghost use Rattle.barline_follow.specs.Sounded.{AreSounded};
    ghost use Rattle.rhythm_base.specs.declared.chord.Chord.{Chord};
    ghost use Rattle.std.specs.Prelude.{List};

    ghost Value = { List Chord };

    ghost view = { λ v. v.chords.items };

    ghost invariant = { λ v. AreSounded v.chords.items };
}

impl Voice {
    /// The voice of these chords.
    fn of(chords: Vec<Chord>) -> Voice
        requires { AreSounded chords.items }
        ensures { result ≡ chords.items }
    {
        Voice { chords }
    }

    /// The chords, by their onsets.
    pub fn chords(&self) -> &[Chord]
        ensures value { result.now ≡ self.now }
        ensures sounded { AreSounded result.now }
    {
        self.chords.as_slice()
    }
}

/// The voice of a channel.
fn voice_of(
    alloc: Global,
    grammar: &Grammar,
    performance: &Performance,
    tempo_map: &TempoMap,
    channel: u8,
) -> Result<Voice, AllocError>
    requires { tempo_map.now.tempos ≡ performance.now.tempos }
    ensures { IfOk result (λ v. AreChordsOf grammar.now performance.now channel v) }
{
    let notes = notes_of_voice(alloc, performance.notes(), channel)?;
    let division = performance.division();
    let chords = chords_of(alloc, notes.as_slice(), tempo_map, division, grammar.window)?;
    Ok(Voice::of(chords))
}

/// The voices of a performance, in the order of its channels.
pub fn voices_of(
    alloc: Global,
    grammar: &Grammar,
    performance: &Performance,
) -> Result<Vec<Voice>, AllocError>
    requires { IsWellFormed performance.now }
    ensures { IfOk result (λ v. Each (AreChordsOf grammar.now performance.now) performance.now.channels v.items) }
{
    let tempo_map = TempoMap::new(alloc, performance.tempos(), performance.key_marks())?;
    let mut voices = Vec::new(alloc);
    'channels: for channel in performance.channels() {
        voices.push(voice_of(alloc, grammar, performance, &tempo_map, *channel)?)?;
    }
    Ok(voices)
}
