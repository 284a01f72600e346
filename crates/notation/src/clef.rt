ghost use Rattle.notation.specs.Clefs as definitions;
ghost use Rattle.notation.specs.Clefs.{begun_keys, chord_keys};
ghost use Rattle.score_words.specs.Keys.{rising_keys};
ghost use Rattle.std.specs.Prelude.{◌≡◌, ◌^◌, ◌≤◌, length, sum};

use rhythm_base::{Keys, Sound, SoundKind};
use score_words::RisingKeys;

/// The clef of a staff.
#[derive(Clone, Copy, Debug, PartialEq, Eq)]
pub enum Clef {
    /// The bass clef an octave down.
    BassBelow,
    Bass,
    Treble,
    /// The treble clef an octave up.
    TrebleAbove,
}

/// Some keys: how many they are, and their sum.
#[derive(Clone, Copy)]
struct KeySum {
    count: u64,
    total: u64,
}

/// The keys of a chord.
fn keys_sum(keys: Keys) -> KeySum
    ensures count { result.count ≡ length (rising_keys keys) }
    ensures total { result.total ≡ sum (rising_keys keys) }
    ensures few { result.count ≤ 128 }
    ensures low { result.total ≤ 16384 }
{
    let mut left = RisingKeys::of(keys);
    let mut count = 0;
    let mut total = 0;
    'keys: while let Some(key) = left.next() {
        count += 1;
        total += u64::from(key);
    }
    KeySum { count, total }
}

/// The keys of the chord that a sound begins.
fn begun_sum(sound: &Sound) -> KeySum
    ensures count { result.count ≡ length (begun_keys sound.now) }
    ensures total { result.total ≡ sum (begun_keys sound.now) }
    ensures few { result.count ≤ 128 }
    ensures low { result.total ≤ 16384 }
{
    match sound.kind {
        SoundKind::Begin | SoundKind::Short => keys_sum(sound.keys),
        SoundKind::Tie | SoundKind::Rest => KeySum { count: 0, total: 0 },
    }
}

/// The keys of all chords of a voice.
fn chords_sum(sounds: &[Sound]) -> KeySum
    requires { length sounds.now ≤ 2 ^ 32 }
    ensures count { result.count ≡ length (chord_keys sounds.now) }
    ensures total { result.total ≡ sum (chord_keys sounds.now) }
    ensures few { result.count ≤ 2 ^ 39 }
{
    let mut count = 0;
    let mut total = 0;
    'sounds: for sound in sounds {
        let own = begun_sum(sound);
        count += own.count;
        total += own.total;
    }
    KeySum { count, total }
}

/// The clef for so many keys with this sum.
fn mean_clef(keys: KeySum) -> Clef
    requires { keys.count ≤ 2 ^ 39 }
    ensures { result ≡ definitions.mean_clef keys.total keys.count }
{
    let KeySum { count, total } = keys;
    if count == 0 {
        Clef::Treble
    } else if total < 41 * count {
        Clef::BassBelow
    } else if total < 60 * count {
        Clef::Bass
    } else if total < 81 * count {
        Clef::Treble
    } else {
        Clef::TrebleAbove
    }
}

/// The clef of a voice, by the mean key of its chords; the treble clef where it has none.
pub fn clef_of(sounds: &[Sound]) -> Clef
    requires { length sounds.now ≤ 2 ^ 32 }
    ensures { result ≡ definitions.clef_of sounds.now }
{
    mean_clef(chords_sum(sounds))
}
