ghost use Rattle.durations.specs.Pitch as pitches;
ghost use Rattle.durations.specs.Pitch.{letters};
ghost use Rattle.std.specs.Prelude.{◌≡◌, ◌<◌, slice_index};

/// The letters of the twelve keys of an octave, where black keys are sharps.
const WITH_SHARPS: [u8; 12] = *b"ccddeffggaab";

/// And where they are flats.
const WITH_FLATS: [u8; 12] = *b"cddeefggaabb";

/// The letter of a key of an octave, 0 for C to 11 for B, where black keys are flats or sharps.
pub fn letter(flats: bool, key: u8) -> u8
    requires { key < 12 }
    ensures { result ≡ slice_index (letters flats) key }
{
    let place = usize::from(key);
    if flats {
        WITH_FLATS[place]
    } else {
        WITH_SHARPS[place]
    }
}

/// Whether a key of an octave, 0 for C to 11 for B, is black.
pub fn is_black(key: u8) -> bool
    ensures { result ≡ pitches.is_black key }
{
    matches!(key, 1 | 3 | 6 | 8 | 10)
}
