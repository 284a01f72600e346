ghost use Rattle.std.specs.List.Sorted.{IsNonDecreasing};
ghost use Rattle.std.specs.Prelude.{◌≡◌, All, IfOk, IsTrue, map};
ghost use Rattle.std.specs.Cmp.Lexicographic.{slice_cmp};
ghost use Rattle.std.specs.Ordering.{nat_cmp};
ghost use Rattle.std.specs.declared.cmp.Ordering.TheVariants.{Less};
ghost use Rattle.rhythm_base.specs.Performance.{place_of_note};
ghost use Rattle.voices.specs.Voice.{AreNotesOfVoice};

use rhythm_base::{Chord, Keys, Note, Tempo};
use std::alloc::{AllocError, Global};
use std::test::Fail;
use tempo_map::TempoMap;
use voices::chords_of;

/// A note: its key, its onset and its end.
type Played = (u8, u64, u64);

/// A chord: its onset, its end and its keys.
type Gathered = (u64, u64, &'static [u8]);

/// The tempo changes from 125 to 62.5 quarter notes a minute at tick 10.
const SLOWER: &[(u64, u32)] = &[(0, 480_000), (10, 960_000)];

/// Changes of tempo, the window in microseconds, the notes and the chords, with 480 ticks to a quarter note.
const VOICES: [(&str, &[(u64, u32)], u32, &[Played], &[Gathered]); 9] = [
    ("no notes", &[], 30_000, &[], &[]),
    ("one note", &[], 30_000, &[(60, 5, 7)], &[(5, 7, &[60])]),
    (
        "30 milliseconds apart",
        SLOWER,
        30_000,
        &[(60, 0, 1920), (64, 20, 1920)],
        &[(0, 1920, &[60, 64])],
    ),
    (
        "32 milliseconds apart",
        SLOWER,
        30_000,
        &[(60, 0, 1920), (64, 21, 1920)],
        &[(0, 1920, &[60]), (21, 1920, &[64])],
    ),
    (
        "from the first note of the chord on",
        &[],
        30_000,
        &[(60, 0, 9), (62, 20, 29), (64, 40, 49)],
        &[(0, 29, &[60, 62]), (40, 49, &[64])],
    ),
    (
        "together without a window",
        &[],
        0,
        &[(60, 3, 9), (62, 3, 8), (64, 4, 9)],
        &[(3, 9, &[60, 62]), (4, 9, &[64])],
    ),
    (
        "the last end",
        &[],
        30_000,
        &[(60, 0, 5), (62, 1, 9), (64, 2, 7)],
        &[(0, 9, &[60, 62, 64])],
    ),
    (
        "a key twice",
        &[],
        30_000,
        &[(60, 0, 5), (60, 7, 9)],
        &[(0, 9, &[60])],
    ),
    (
        "no length",
        &[],
        0,
        &[(0, 0, 0), (127, 1, 1)],
        &[(0, 0, &[0]), (1, 1, &[127])],
    ),
];

fn comes_before(m: Note, n: Note) -> bool
    ensures channel { IsTrue result → m.channel ≡ n.channel }
    ensures place { IsTrue result → slice_cmp nat_cmp (place_of_note m) (place_of_note n) ≡ Less }
{
    m.channel == n.channel && (m.onset < n.onset || (m.onset == n.onset && m.key < n.key))
}

fn all_come_before(notes: &[Note], n: Note) -> bool
    ensures channel { IsTrue result → All (λ m. m.channel ≡ n.channel) notes.now }
    ensures place { IsTrue result → All (λ m. slice_cmp nat_cmp (place_of_note m) (place_of_note n) ≡ Less) notes.now }
{
    'earlier: for m in notes {
        if !comes_before(*m, n) {
            return false;
        }
    }
    true
}

/// The notes of a voice, as far as they stand in order.
fn voice(alloc: Global, played: &[Played]) -> Result<Vec<Note>, AllocError>
    ensures { IfOk result (λ v. AreNotesOfVoice v.items) }
{
    let mut notes = Vec::new(alloc);
    'played: for (key, onset, end) in played {
        let note = Note {
            channel: 0,
            key: *key % 128,
            onset: (*onset).min(2_000_000_000),
            end: (*end).min(2_000_000_000),
        };
        if all_come_before(notes.as_slice(), note) {
            notes.push(note)?;
        }
    }
    Ok(notes)
}

/// These tempos in order.
fn tempos_in_order(alloc: Global, changes: &[(u64, u32)]) -> Result<Vec<Tempo>, AllocError>
    ensures { IfOk result (λ v. IsNonDecreasing (map (λ t. t.tick) v.items)) }
{
    let mut tempos: Vec<Tempo> = changes
        .iter()
        .map(|(tick, micros)| Tempo {
            tick: *tick,
            micros: *micros,
        })
        .collect(alloc)?;
    tempos.sort_by_key(|change| change.tick)?;
    Ok(tempos)
}

fn keys(list: &[u8]) -> Keys {
    let mut all = Keys::none();
    for key in list {
        all = all.join(Keys::one(*key % 128));
    }
    all
}

fn chords(alloc: Global, gathered: &[Gathered]) -> Result<Vec<Chord>, AllocError> {
    gathered
        .iter()
        .map(|(onset, end, list)| Chord {
            onset: *onset,
            end: *end,
            keys: keys(list),
        })
        .collect(alloc)
}

/// How many of these notes stand in order, and the chords of these.
fn gathered(
    alloc: Global,
    tempos: &[(u64, u32)],
    window: u32,
    played: &[Played],
) -> Result<(usize, Vec<Chord>), AllocError> {
    let tempos = tempos_in_order(alloc, tempos)?;
    let map = TempoMap::new(alloc, tempos.as_slice(), &[])?;
    let notes = voice(alloc, played)?;
    let chords = chords_of(alloc, notes.as_slice(), &map, 480, window)?;
    Ok((notes.len(), chords))
}

#[test]
fn gathers_chords(rt: HostRuntime) -> Result<(), Fail> {
    for (name, tempos, window, played, wanted) in &VOICES {
        let (count, found) = gathered(rt.alloc(), tempos, *window, played)?;
        let wanted = chords(rt.alloc(), wanted)?;
        assert_eq!(rt;
            (count, found.as_slice()),
            (played.len(), wanted.as_slice()),
            "{name}"
        );
    }
    Ok(())
}
