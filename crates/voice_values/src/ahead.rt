ghost use Rattle.voice_values.specs.Ahead as definitions;
ghost use Rattle.std.specs.Prelude.{◌≡◌};

use rhythm_base::{Sound, SoundKind};

/// Whether the first of the sounds is a tie.
pub fn begins_with_tie(sounds: &[Sound]) -> bool
    ensures { result ≡ definitions.begins_with_tie sounds.now }
{
    match sounds {
        [] => false,
        [sound, ..] => sound.kind == SoundKind::Tie,
    }
}
