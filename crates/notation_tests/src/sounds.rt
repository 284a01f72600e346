ghost use Rattle.grammar_file.specs.Grammar.{grammar_of};
ghost use Rattle.rhythm_base.specs.Readable.{IsReadable};
ghost use Rattle.std.specs.Prelude.{◌≡◌, ◌≤◌, IfOk, Ok, length};

use derivation::{derivations_are_well_sounded, sounds_of, spans_of};
use grammar_file::read_grammar;
use kern_reader::{KernEvent, read_kern};
use rhythm_base::SoundKind::{Begin, Rest, Tie};
use rhythm_base::{Bar, Chord, Graces, Grammar, Keys, Sound, SoundKind, Span};
use sample_grammars::USUAL;
use std::alloc::Global;
use std::test::Fail;

/// A bar of four quarters, with two grace chords or none.
const QUARTERS: &[u8] = b"\
    rhythm 1\n\
    resolution 4\n\
    window 0\n\
    onset 1\n\
    start 4/4 B\n\
    B 0 split Q Q Q Q\n\
    Q 0 note\n\
    Q 0 rest\n\
    Q 0 tie\n\
    Q 0 short\n\
    Q 5 grace 2\n\
";

fn read(alloc: Global, text: &[u8]) -> Result<Grammar, Fail>
    requires { length text.now ≤ 1000 }
    ensures value { IfOk result (λ g. grammar_of text.now ≡ Ok g) }
    ensures readable { IfOk result IsReadable }
{
    Ok(read_grammar(alloc, text)?)
}

/// A bar of 4/4, 1,920 ticks long.
const fn bar(start: u64) -> Bar
    ensures { result ≡ record { start = start; num = 4; den = 4 } }
{
    Bar {
        start,
        num: 4,
        den: 4,
    }
}

fn chord(onset: u64, end: u64, keys: Keys) -> Chord
    ensures { result ≡ record { onset = onset; end = end; keys = keys } }
{
    Chord { onset, end, keys }
}

/// What a derivation sounds like.
#[derive(Drop)]
struct Heard {
    sounds: Vec<Sound>,
    spans: Vec<Span>,
}

/// Two notes that begin together and one that is held, up to a note of the whole next bar, which begins a little early.
fn upper_voice(alloc: Global) -> Result<Heard, Fail> {
    derivations_are_well_sounded();
    let grammar = read(alloc, USUAL)?;
    let lists: [&[u16]; 2] = [&[3, 7, 8, 8, 5], &[0]];
    let bars = [bar(0), bar(1920)];
    let chords = [
        chord(5, 470, Keys::one(70).join(Keys::one(74))),
        chord(485, 1900, Keys::one(72)),
        chord(1910, 3800, Keys::one(70)),
    ];
    let sounds = sounds_of(alloc, &grammar, &lists, &bars, 3840, &chords)?;
    let spans = spans_of(alloc, sounds.as_slice(), &bars, grammar.resolution)?;
    Ok(Heard { sounds, spans })
}

/// A note of both bars.
fn lower_voice(alloc: Global) -> Result<Heard, Fail> {
    derivations_are_well_sounded();
    let grammar = read(alloc, USUAL)?;
    let lists: [&[u16]; 2] = [&[0], &[1]];
    let bars = [bar(0), bar(1920)];
    let chords = [chord(0, 3840, Keys::one(46))];
    let sounds = sounds_of(alloc, &grammar, &lists, &bars, 3840, &chords)?;
    let spans = spans_of(alloc, sounds.as_slice(), &bars, grammar.resolution)?;
    Ok(Heard { sounds, spans })
}

/// Two short notes right before a quarter.
fn graced_voice(alloc: Global) -> Result<Heard, Fail> {
    derivations_are_well_sounded();
    let grammar = read(alloc, QUARTERS)?;
    let lists: [&[u16]; 1] = [&[0, 2, 5, 2, 2]];
    let bars = [bar(0)];
    let chords = [
        chord(400, 440, Keys::one(62)),
        chord(440, 480, Keys::one(64)),
        chord(480, 960, Keys::one(60)),
    ];
    let sounds = sounds_of(alloc, &grammar, &lists, &bars, 1920, &chords)?;
    let spans = spans_of(alloc, sounds.as_slice(), &bars, grammar.resolution)?;
    Ok(Heard { sounds, spans })
}

/// A sound: its bar, place, width and kind, its keys, and the keys of its grace chords, of which each has one.
type Sounding = (u32, u16, u16, SoundKind, &'static [u8], &'static [u8]);

/// A span: its start and its length as fractions of a whole note, its keys, and the keys of its grace chords.
type Lasting = ((u64, u64), (u64, u64), &'static [u8], &'static [u8]);

/// The set of these keys.
fn set_of(keys: &[u8]) -> Keys {
    let mut set = Keys::none();
    for key in keys {
        if *key < 128 {
            set = set.join(Keys::one(*key));
        }
    }
    set
}

/// Whether the grace chords have one key each, and these.
fn are_graces(graces: &Graces, wanted: &[u8]) -> bool {
    let keys = wanted.iter().map(|key| set_of(&[*key]));
    graces.as_slice().iter().copied().eq(keys)
}

/// Whether the sound is this one.
fn is_sound(sound: &Sound, wanted: &Sounding) -> bool {
    let (bar, place, width, kind, keys, graces) = *wanted;
    sound.bar == bar
        && sound.place == place
        && sound.width == width
        && sound.kind == kind
        && sound.keys == set_of(keys)
        && are_graces(&sound.graces, graces)
}

/// Whether the span is this one. None of them is marked short.
fn is_span(span: &Span, wanted: &Lasting) -> bool {
    let (start, len, keys, graces) = *wanted;
    (span.start.num, span.start.den) == start
        && (span.len.num, span.len.den) == len
        && !span.short
        && span.keys == set_of(keys)
        && are_graces(&span.graces, graces)
}

/// Whether a derivation has these sounds and these spans.
fn is_heard(heard: &Heard, sounds: &[Sounding], spans: &[Lasting]) -> bool {
    let are_sounds = heard.sounds.len() == sounds.len()
        && heard
            .sounds
            .iter()
            .zip(sounds)
            .all(|(found, wanted)| is_sound(found, wanted));
    let are_spans = heard.spans.len() == spans.len()
        && heard
            .spans
            .iter()
            .zip(spans)
            .all(|(found, wanted)| is_span(found, wanted));
    are_sounds && are_spans
}

const UPPER_SOUNDS: [Sounding; 4] = [
    (0, 0, 2, Begin, &[70, 74], &[]),
    (0, 2, 2, Begin, &[72], &[]),
    (0, 4, 4, Tie, &[72], &[]),
    (1, 0, 8, Begin, &[70], &[]),
];

const UPPER_SPANS: [Lasting; 3] = [
    ((0, 1), (1, 4), &[70, 74], &[]),
    ((1, 4), (3, 4), &[72], &[]),
    ((1, 1), (1, 1), &[70], &[]),
];

const LOWER_SOUNDS: [Sounding; 2] = [(0, 0, 8, Begin, &[46], &[]), (1, 0, 8, Tie, &[46], &[])];

const LOWER_SPANS: [Lasting; 1] = [((0, 1), (2, 1), &[46], &[])];

const GRACED_SOUNDS: [Sounding; 4] = [
    (0, 0, 1, Rest, &[], &[]),
    (0, 1, 1, Begin, &[60], &[62, 64]),
    (0, 2, 1, Rest, &[], &[]),
    (0, 3, 1, Rest, &[], &[]),
];

const GRACED_SPANS: [Lasting; 1] = [((1, 4), (1, 4), &[60], &[62, 64])];

#[test]
fn sounds(rt: HostRuntime) -> Result<(), Fail> {
    let upper = upper_voice(rt.alloc())?;
    assert!(rt; is_heard(&upper, &UPPER_SOUNDS, &UPPER_SPANS), "upper");
    let lower = lower_voice(rt.alloc())?;
    assert!(rt; is_heard(&lower, &LOWER_SOUNDS, &LOWER_SPANS), "lower");
    let graced = graced_voice(rt.alloc())?;
    assert!(rt; is_heard(&graced, &GRACED_SOUNDS, &GRACED_SPANS), "graced");
    Ok(())
}

/// The score of the upper and the lower voice.
const SCORE: &[u8] = b"\
    **kern\t**kern\n\
    *k[b-e-]\t*k[b-e-]\n\
    *M4/4\t*M4/4\n\
    *MM100\t*MM100\n\
    =1\t=1\n\
    4b- 4dd\t[1BB-\n\
    [4cc\t.\n\
    2cc]\t.\n\
    *MM120\t*MM120\n\
    =2\t=2\n\
    1b-\t1BB-]\n\
    ==\t==\n\
    *-\t*-\n\
";

/// Whether an event is this span of a spine.
fn is_event(event: &KernEvent, spine: u8, span: &Span) -> bool {
    event.spine == spine
        && event.span.start == span.start
        && event.span.len == span.len
        && event.span.keys == span.keys
        && event.span.short == span.short
        && event.span.graces.as_slice() == span.graces.as_slice()
}

/// Whether the events of a spine are these spans.
fn are_events(events: &[KernEvent], spine: u8, spans: &[Span]) -> bool {
    events.len() == spans.len()
        && events
            .iter()
            .zip(spans)
            .all(|(event, span)| is_event(event, spine, span))
}

/// The events that are read of a score are the spans of its voices.
#[test]
fn spans_are_the_events_of_the_score(rt: HostRuntime) -> Result<(), Fail> {
    let upper = upper_voice(rt.alloc())?;
    let lower = lower_voice(rt.alloc())?;
    let score = read_kern(rt.alloc(), SCORE)?;
    let events = score.events(rt.alloc())?;
    assert!(rt; events.len() == 4);
    let (first, second) = events.as_slice().split_at(3);
    assert!(rt; are_events(first, 1, upper.spans.as_slice()), "upper");
    assert!(rt; are_events(second, 2, lower.spans.as_slice()), "lower");
    Ok(())
}
