ghost use Rattle.derivation.specs.WellSounded.{AreKeys, AreWellSounded, IsWellSounding, StandInBars, TiesGoOn};
ghost use Rattle.derivation.specs.Score.{IsKeySignature, IsScore, IsScoreBar};
ghost use Rattle.rhythm_base.specs.Signatures.{is_den};
ghost use Rattle.rhythm_base.specs.SoundKinds.{is_rest};
ghost use Rattle.std.specs.Prelude.{[], ◌∷◌, ◌≡◌, ◌≢◌, ◌≤◌, ◌<◌, ◌^◌, All, IfOk, IfSome, IsTrue, None, Some, false, length, true};

use derivation::{Score, ScoreBar, VoiceSounds};
use kern_writer::write_kern;
use rhythm_base::SoundKind::{Begin, Rest, Short, Tie};
use rhythm_base::{Graces, Keys, MOST_UNITS, MOST_VOICES, SLOWEST_TEMPO, Sound, SoundKind};
use std::alloc::Global;
use std::test::Fail;

/// Keys that sound together, by rising key.
type Chord = &'static [u8];

/// A sound: how many units it is wide, how it sounds, its keys, and its grace chords. A bar is filled before the next begins.
type Leaf = (u16, SoundKind, Chord, &'static [Chord]);

/// A bar: its signature, its tempo and its key.
type Head = (u8, u8, u32, Option<i8>);

/// What a score shows, how many units a bar has, its bars, its voices and its text.
type Case = (
    &'static str,
    u16,
    &'static [Head],
    &'static [&'static [Leaf]],
    &'static str,
);

/// 4/4 at 120 quarters a minute, without a key.
const PLAIN: Head = (4, 4, 500_000, None);

const CASES: [Case; 20] = [
    (
        "a note of the whole bar",
        8,
        &[PLAIN],
        &[&[(8, Begin, &[60], &[])]],
        "**kern\n*M4/4\n*MM120\n=1\n1c\n==\n*-\n",
    ),
    (
        "five quarters are a whole note and a quarter",
        1,
        &[(5, 4, 500_000, None)],
        &[&[(1, Begin, &[60], &[])]],
        "**kern\n*M5/4\n*MM120\n=1\n[1c\n4c]\n==\n*-\n",
    ),
    (
        "a tie within the bar",
        2,
        &[PLAIN],
        &[&[(1, Begin, &[60], &[]), (1, Tie, &[60], &[])]],
        "**kern\n*M4/4\n*MM120\n=1\n[2c\n2c]\n==\n*-\n",
    ),
    (
        "a rest and a note",
        2,
        &[PLAIN],
        &[&[(1, Rest, &[], &[]), (1, Begin, &[60], &[])]],
        "**kern\n*M4/4\n*MM120\n=1\n2r\n2c\n==\n*-\n",
    ),
    (
        "a bar of rest before the first note",
        8,
        &[PLAIN, PLAIN],
        &[&[
            (8, Rest, &[], &[]),
            (4, Begin, &[60], &[]),
            (4, Rest, &[], &[]),
        ]],
        "**kern\n*M4/4\n*MM120\n=1\n1r\n=2\n2c\n2r\n==\n*-\n",
    ),
    (
        "a short note",
        8,
        &[PLAIN, PLAIN],
        &[&[
            (8, Rest, &[], &[]),
            (2, Short, &[60], &[]),
            (2, Rest, &[], &[]),
            (4, Rest, &[], &[]),
        ]],
        "**kern\n*M4/4\n*MM120\n=1\n1r\n=2\n4c'\n4r\n2r\n==\n*-\n",
    ),
    (
        "two grace notes",
        4,
        &[PLAIN],
        &[&[
            (1, Rest, &[], &[]),
            (1, Begin, &[60], &[&[62], &[64]]),
            (1, Rest, &[], &[]),
            (1, Rest, &[], &[]),
        ]],
        "**kern\n*M4/4\n*MM120\n=1\n4r\nqd\nqe\n4c\n4r\n4r\n==\n*-\n",
    ),
    (
        "two voices, of which one is tied over a barline at which the tempo changes",
        8,
        &[(4, 4, 600_000, Some(-2)), (4, 4, 500_000, Some(-2))],
        &[
            &[
                (2, Begin, &[70, 74], &[]),
                (2, Begin, &[72], &[]),
                (4, Tie, &[72], &[]),
                (8, Begin, &[70], &[]),
            ],
            &[(8, Begin, &[46], &[]), (8, Tie, &[46], &[])],
        ],
        "**kern\t**kern\n*k[b-e-]\t*k[b-e-]\n*M4/4\t*M4/4\n*MM100\t*MM100\n=1\t=1\n4b- 4dd\t[1BB-\n[4cc\t.\n2cc]\t.\n*MM120\t*MM120\n=2\t=2\n1b-\t1BB-]\n==\t==\n*-\t*-\n",
    ),
    (
        "a chord",
        8,
        &[(4, 4, 480_000, None)],
        &[&[(8, Begin, &[60, 64], &[])]],
        "**kern\n*M4/4\n*MM125\n=1\n1c 1e\n==\n*-\n",
    ),
    (
        "a grace note before a span of four values",
        8,
        &[(4, 4, 480_000, None)],
        &[&[
            (1, Begin, &[64], &[&[60]]),
            (1, Tie, &[64], &[]),
            (2, Tie, &[64], &[]),
            (4, Tie, &[64], &[]),
        ]],
        "**kern\n*M4/4\n*MM125\n=1\nqc\n[8e\n8e_\n4e_\n2e]\n==\n*-\n",
    ),
    (
        "a signature changes, and a dotted half",
        1,
        &[PLAIN, (6, 8, 500_000, None)],
        &[&[(1, Begin, &[60], &[]), (1, Begin, &[62], &[])]],
        "**kern\n*M4/4\n*MM120\n=1\n1c\n*M6/8\n=2\n2.d\n==\n*-\n",
    ),
    (
        "a note of three bars",
        8,
        &[PLAIN, PLAIN, PLAIN],
        &[&[
            (8, Begin, &[60], &[]),
            (8, Tie, &[60], &[]),
            (8, Tie, &[60], &[]),
        ]],
        "**kern\n*M4/4\n*MM120\n=1\n[1c\n=2\n1c_\n=3\n1c]\n==\n*-\n",
    ),
    (
        "a grace chord",
        8,
        &[PLAIN],
        &[&[
            (1, Begin, &[64], &[&[60, 62]]),
            (1, Tie, &[64], &[]),
            (2, Tie, &[64], &[]),
            (4, Rest, &[], &[]),
        ]],
        "**kern\n*M4/4\n*MM120\n=1\nqc qd\n[8e\n8e_\n4e]\n2r\n==\n*-\n",
    ),
    (
        "a tie of half the length is a dot",
        8,
        &[PLAIN],
        &[&[
            (2, Begin, &[60], &[]),
            (1, Tie, &[60], &[]),
            (1, Rest, &[], &[]),
            (4, Rest, &[], &[]),
        ]],
        "**kern\n*M4/4\n*MM120\n=1\n4.c\n8r\n2r\n==\n*-\n",
    ),
    (
        "two voices with values at different places",
        8,
        &[PLAIN],
        &[
            &[
                (1, Begin, &[67], &[]),
                (1, Begin, &[67], &[]),
                (1, Begin, &[67], &[]),
                (1, Begin, &[67], &[]),
                (2, Rest, &[], &[]),
                (2, Begin, &[71], &[]),
            ],
            &[
                (2, Begin, &[59], &[]),
                (2, Begin, &[53], &[]),
                (2, Begin, &[59], &[]),
                (2, Begin, &[49], &[]),
            ],
        ],
        "**kern\t**kern\n*M4/4\t*M4/4\n*MM120\t*MM120\n=1\t=1\n8g\t4B\n8g\t.\n8g\t4F\n8g\t.\n4r\t4B\n4b\t4C#\n==\t==\n*-\t*-\n",
    ),
    (
        "two voices with different numbers of grace chords at one place, and one without",
        1,
        &[PLAIN],
        &[
            &[(1, Begin, &[60], &[&[62], &[64]])],
            &[(1, Begin, &[48], &[&[53]])],
            &[(1, Rest, &[], &[])],
        ],
        "**kern\t**kern\t**kern\n*M4/4\t*M4/4\t*M4/4\n*MM120\t*MM120\t*MM120\n=1\t=1\t=1\nqd\t.\t.\nqe\tqF\t.\n1c\t1C\t1r\n==\t==\t==\n*-\t*-\t*-\n",
    ),
    (
        "a key, a signature and a tempo change at one barline, and then only a key",
        1,
        &[PLAIN, (3, 4, 250_000, Some(3)), (3, 4, 250_000, Some(0))],
        &[&[
            (1, Rest, &[], &[]),
            (1, Rest, &[], &[]),
            (1, Rest, &[], &[]),
        ]],
        "**kern\n*M4/4\n*MM120\n=1\n1r\n*k[f#c#g#]\n*M3/4\n*MM240\n=2\n2.r\n*k[]\n=3\n2.r\n==\n*-\n",
    ),
    (
        "a tempo that is rounded to the same number is no change",
        1,
        &[
            (4, 4, 480_000, None),
            (4, 4, 480_001, None),
            (4, 4, 483_000, None),
        ],
        &[&[
            (1, Rest, &[], &[]),
            (1, Rest, &[], &[]),
            (1, Rest, &[], &[]),
        ]],
        "**kern\n*M4/4\n*MM125\n=1\n1r\n=2\n1r\n*MM124\n=3\n1r\n==\n*-\n",
    ),
    (
        "black keys are sharps, and flats where the key has flats",
        1,
        &[PLAIN, (4, 4, 500_000, Some(-1))],
        &[&[
            (1, Begin, &[61, 63, 66, 68, 70], &[]),
            (1, Begin, &[61, 63, 66, 68, 70], &[]),
        ]],
        "**kern\n*M4/4\n*MM120\n=1\n1c# 1d# 1f# 1g# 1a#\n*k[b-]\n=2\n1d- 1e- 1g- 1a- 1b-\n==\n*-\n",
    ),
    (
        "two, three and four whole notes, and the lowest and the highest key",
        1,
        &[
            (8, 4, 500_000, None),
            (12, 4, 500_000, None),
            (16, 4, 500_000, None),
            (7, 2, 500_000, None),
        ],
        &[&[
            (1, Begin, &[60], &[]),
            (1, Begin, &[0, 127], &[]),
            (1, Begin, &[60], &[]),
            (1, Short, &[60], &[]),
        ]],
        "**kern\n*M8/4\n*MM120\n=1\n0c\n*M12/4\n=2\n0.CCCCC 0.gggggg\n*M16/4\n=3\n00c\n*M7/2\n=4\n[0c'\n1.c]\n==\n*-\n",
    ),
];

/// The set of these keys, of which there are some.
fn keys_of(keys: &[u8]) -> Option<Keys>
    ensures { IfSome result AreKeys }
{
    let mut set = Keys::none();
    'keys: for key in keys {
        if *key > 127 {
            return None;
        }
        set = set.join(Keys::one(*key));
    }
    if keys.is_empty() { None } else { Some(set) }
}

/// The keys of a sound: a rest has none, and any other some.
fn sounding_keys(kind: SoundKind, keys: &[u8]) -> Option<Keys>
    ensures silent { IfSome result (λ k. is_rest kind ≡ true → k ≡ 0) }
    ensures sounding { IfSome result (λ k. is_rest kind ≡ false → AreKeys k) }
{
    match kind {
        Rest => Some(Keys::none()),
        _ => keys_of(keys),
    }
}

fn graces_of(alloc: Global, chords: &[Chord]) -> Result<Graces, Fail>
    ensures keys { IfOk result (λ g. All AreKeys g) }
    ensures length { IfOk result (λ g. length g ≡ length chords.now) }
{
    let mut graces = Vec::new(alloc);
    'chords: for chord in chords {
        graces.push(keys_of(chord).ok_or("the keys of a grace chord")?)?;
    }
    Ok(Graces::of(graces))
}

/// The sound of a leaf that begins here.
fn sound_of(alloc: Global, bar: u32, place: u16, leaf: &Leaf) -> Result<Sound, Fail>
    ensures { IfOk result IsWellSounding }
{
    let (width, kind, keys, chords) = *leaf;
    if chords.len() > 3 || (!chords.is_empty() && kind != Begin) {
        return Err("a sound with grace chords")?;
    }
    Ok(Sound {
        bar,
        place,
        width,
        kind,
        keys: sounding_keys(kind, keys).ok_or("the keys of a sound")?,
        graces: graces_of(alloc, chords)?,
    })
}

/// The sounds of leaves that fill one bar after another.
fn sounds_of(alloc: Global, resolution: u16, leaves: &[Leaf]) -> Result<Vec<Sound>, Fail>
    ensures { IfOk result (λ v. All IsWellSounding v.items) }
{
    let mut sounds = Vec::new(alloc);
    let mut units = 0u32;
    'leaves: for leaf in leaves {
        let bar = units.checked_div(u32::from(resolution)).unwrap_or(0);
        let place = units.checked_rem(u32::from(resolution)).unwrap_or(0) as u16;
        sounds.push(sound_of(alloc, bar, place, leaf)?)?;
        units = units.wrapping_add(u32::from(leaf.0));
    }
    Ok(sounds)
}

/// Whether sounds stand side by side from a unit of a bar on.
fn stand(resolution: u16, bars: usize, bar: usize, place: u16, sounds: &[Sound]) -> bool
    ensures { IsTrue result → StandInBars resolution bars bar place sounds.now }
{
    let [sound, more @ ..] = sounds else {
        return bar == bars && place == 0;
    };
    let end = u32::from(place) + u32::from(sound.width);
    if bar >= bars || sound.bar as usize != bar || sound.place != place || sound.width == 0 {
        return false;
    }
    if end < u32::from(resolution) {
        return stand(resolution, bars, bar, end as u16, more);
    }
    end == u32::from(resolution) && stand(resolution, bars, bar + 1, 0, more)
}

/// Whether each tie goes on from the sound right before it.
fn ties_go_on(before: &Sound, sounds: &[Sound]) -> bool
    ensures { IsTrue result → TiesGoOn (Some before.now) sounds.now }
{
    let [sound, more @ ..] = sounds else {
        return true;
    };
    let goes_on = matches!(before.kind, Begin | Tie) && before.keys == sound.keys;
    (sound.kind != Tie || goes_on) && ties_go_on(sound, more)
}

/// Whether the first sound is no tie, and each tie goes on from the sound right before it.
fn are_tied(sounds: &[Sound]) -> bool
    ensures { IsTrue result → TiesGoOn None sounds.now }
{
    let [sound, more @ ..] = sounds else {
        return true;
    };
    sound.kind != Tie && ties_go_on(sound, more)
}

/// A voice of these leaves.
fn voice_of(
    alloc: Global,
    resolution: u16,
    bars: usize,
    leaves: &[Leaf],
) -> Result<VoiceSounds, Fail>
    ensures { IfOk result (λ v. AreWellSounded resolution bars v) }
{
    let sounds = sounds_of(alloc, resolution, leaves)?;
    if !stand(resolution, bars, 0, 0, &sounds) || !are_tied(&sounds) {
        return Err("the sounds of a voice")?;
    }
    Ok(VoiceSounds::of(alloc, sounds))
}

/// A bar of this head.
fn bar_of(head: &Head) -> Option<ScoreBar>
    ensures { IfSome result IsScoreBar }
{
    let (num, den, tempo, sf) = *head;
    let key = match sf {
        None => true,
        Some(sharps) => (-7..=7).contains(&sharps),
    };
    let signature = (1..=64).contains(&num) && matches!(den, 1 | 2 | 4 | 8 | 16 | 32 | 64);
    if key && signature && (1..=SLOWEST_TEMPO).contains(&tempo) {
        Some(ScoreBar {
            num,
            den,
            tempo,
            sf,
        })
    } else {
        None
    }
}

fn bars_of(alloc: Global, heads: &[Head]) -> Result<Vec<ScoreBar>, Fail>
    ensures { IfOk result (λ v. All IsScoreBar v.items) }
{
    let mut bars = Vec::new(alloc);
    'heads: for head in heads {
        bars.push(bar_of(head).ok_or("a bar")?)?;
    }
    Ok(bars)
}

fn voices_of(
    alloc: Global,
    resolution: u16,
    bars: usize,
    leaves: &[&[Leaf]],
) -> Result<Vec<VoiceSounds>, Fail>
    ensures voices { IfOk result (λ v. All (AreWellSounded resolution bars) v.items) }
    ensures length { IfOk result (λ v. length v.items ≡ length leaves.now) }
{
    let mut voices = Vec::new(alloc);
    'voices: for voice in leaves {
        voices.push(voice_of(alloc, resolution, bars, voice)?)?;
    }
    Ok(voices)
}

fn score_of(alloc: Global, case: &Case) -> Result<Score, Fail>
    ensures { IfOk result IsScore }
{
    let (_, resolution, heads, leaves, _) = *case;
    if resolution == 0
        || resolution > MOST_UNITS
        || leaves.is_empty()
        || leaves.len() > MOST_VOICES
    {
        return Err("a score")?;
    }
    let bars = bars_of(alloc, heads)?;
    let voices = voices_of(alloc, resolution, bars.len(), leaves)?;
    Ok(Score {
        resolution,
        bars,
        voices,
    })
}

#[test]
fn kern(rt: HostRuntime) -> Result<(), Fail> {
    for case in &CASES {
        let score = score_of(rt.alloc(), case)?;
        let text = write_kern(rt.alloc(), &score)?;
        assert!(rt; text.as_slice() == case.4.as_bytes(), "{}", case.0);
    }
    Ok(())
}
