ghost use Rattle.edit_session.specs.Spans.{AreSameBefore, AreSameFrom, IsBarEnd, IsFirstBar, IsNotePart, IsSpanOf};
ghost use Rattle.rhythm_base.specs.Barlines.{barline};
ghost use Rattle.rhythm_base.specs.Performance.{IsWellFormed};
ghost use Rattle.std.specs.List.Sorted.{IsStrictlyIncreasing};
ghost use Rattle.std.specs.Prelude.{◌≡◌, ◌<◌, ◌≤◌, ◌-◌, ℕ, IfSome, drop, filter, length, map, nat_le, nat_lt, take};
ghost use Rattle.tempo_map.specs.TempoMap.{AreUpTo};
ghost use Rattle.voices.specs.Voice.{AreNotesOfVoice};

use crate::known::Known;
use rhythm_base::{Bar, Performance};
use tempo_map::TempoMap;
use voices::{VoiceNotes, break_from, break_up_to};

/// The bars of a voice that a change of its notes may reach, from one bar up to another, and the notes of the voice, from one up to
/// another, on which their inputs depend.
#[derive(Clone, Copy, Debug, PartialEq, Eq)]
pub struct Span {
    pub first_bar: usize,
    pub bar_end: usize,
    pub first_note: usize,
    pub note_end: usize,
}

/// A place among the notes of a voice, and a tick there.
#[derive(Clone, Copy, Debug, PartialEq, Eq)]
struct Edge {
    place: usize,
    tick: u64,
}

/// Some of the notes of a voice, from one up to another.
#[derive(Clone, Copy, Debug, PartialEq, Eq)]
struct Part {
    first: usize,
    end: usize,
}

/// Where a barline stands.
pub fn barline_at(bars: &[Bar], last: u64, number: usize) -> u64
    ensures { result ≡ barline bars.now last number }
{
    match bars.get(number) {
        Some(bar) => bar.start,
        None => last,
    }
}

/// How many bars start at or before a tick.
fn bars_up_to(bars: &[Bar], tick: u64) -> usize
    requires { IsStrictlyIncreasing (map (λ b. b.start) bars.now) }
    ensures { AreUpTo (λ b. b.start) bars.now tick result }
{
    bars.partition_point(|bar| bar.start <= tick)
}

/// Up to where the notes are as before, where the first `same` are.
fn first_edge(
    before: &VoiceNotes<'_>,
    after: &VoiceNotes<'_>,
    same: usize,
    tempo_map: &TempoMap,
    division: u16,
    window: u32,
) -> Edge
    requires before { AreNotesOfVoice before.now }
    requires after { AreNotesOfVoice after.now }
    requires same { take same before.now ≡ take same after.now }
    requires within { same ≤ length before.now }
    requires within_after { same ≤ length after.now }
    ensures { AreSameBefore tempo_map.now.tempos division window before.now after.now result.place result.tick }
{
    let place = break_up_to(after, tempo_map, division, window, same.saturating_sub(1));
    if place == 0 {
        return Edge { place, tick: 0 };
    }
    Edge {
        place,
        tick: after.onset(place),
    }
}

/// From where on the notes are as before, where the last `same` are.
fn last_edge(
    before: &VoiceNotes<'_>,
    after: &VoiceNotes<'_>,
    same: usize,
    tempo_map: &TempoMap,
    division: u16,
    window: u32,
) -> Option<Edge>
    requires before { AreNotesOfVoice before.now }
    requires after { AreNotesOfVoice after.now }
    requires same { drop (length before.now - same) before.now ≡ drop (length after.now - same) after.now }
    requires within { same ≤ length before.now }
    requires within_after { same ≤ length after.now }
    ensures { IfSome result (λ edge. AreSameFrom tempo_map.now.tempos division window before.now after.now edge.place edge.tick) }
{
    let least = after.len() - same.saturating_sub(1);
    let place = break_from(after, tempo_map, division, window, least);
    match after.get(place) {
        None => None,
        Some(note) => Some(Edge {
            place,
            tick: note.onset,
        }),
    }
}

/// The notes on which the inputs of the bars between two ticks depend.
fn part_of(
    notes: &VoiceNotes<'_>,
    low: u64,
    high: u64,
    tempo_map: &TempoMap,
    division: u16,
    window: u32,
) -> Part
    requires { AreNotesOfVoice notes.now }
    ensures { IsNotePart tempo_map.now.tempos division window notes.now low high result.first result.end }
{
    let earlier = notes.count_before(low);
    let up_to = notes.count_before(high);
    let first = break_up_to(
        notes,
        tempo_map,
        division,
        window,
        earlier.saturating_sub(1),
    );
    let end = break_from(notes, tempo_map, division, window, up_to.max(earlier));
    Part { first, end }
}

/// The first bar that a change may reach, where the first `same` notes are as before.
fn first_bar_of(
    before: &VoiceNotes<'_>,
    after: &VoiceNotes<'_>,
    same: usize,
    bars: &[Bar],
    tempo_map: &TempoMap,
    division: u16,
    window: u32,
) -> usize
    requires before { AreNotesOfVoice before.now }
    requires after { AreNotesOfVoice after.now }
    requires same { take same before.now ≡ take same after.now }
    requires within { same ≤ length before.now }
    requires within_after { same ≤ length after.now }
    requires bars { IsStrictlyIncreasing (map (λ b. b.start) bars.now) }
    ensures { (last : ℕ) → IsFirstBar tempo_map.now.tempos division window before.now after.now bars.now last result }
{
    let edge = first_edge(before, after, same, tempo_map, division, window);
    bars_up_to(bars, edge.tick).saturating_sub(1)
}

/// The bar after the last one that a change may reach, where the last `same` notes are as before.
fn bar_end_of(
    before: &VoiceNotes<'_>,
    after: &VoiceNotes<'_>,
    same: usize,
    bars: &[Bar],
    tempo_map: &TempoMap,
    division: u16,
    window: u32,
) -> usize
    requires before { AreNotesOfVoice before.now }
    requires after { AreNotesOfVoice after.now }
    requires same { drop (length before.now - same) before.now ≡ drop (length after.now - same) after.now }
    requires within { same ≤ length before.now }
    requires within_after { same ≤ length after.now }
    requires bars { IsStrictlyIncreasing (map (λ b. b.start) bars.now) }
    ensures { (last : ℕ) → IsBarEnd tempo_map.now.tempos division window before.now after.now bars.now last result }
{
    match last_edge(before, after, same, tempo_map, division, window) {
        None => bars.len(),
        Some(edge) => bars_up_to(bars, edge.tick),
    }
}

/// The bars of a voice that an edit may reach, by what is known of the performance before it.
pub fn span_of(
    before: &VoiceNotes<'_>,
    after: &VoiceNotes<'_>,
    performance: &Performance,
    known: Known<'_>,
    tempo_map: &TempoMap,
    window: u32,
) -> Span
    requires before { AreNotesOfVoice before.now }
    requires after { AreNotesOfVoice after.now }
    requires formed { IsWellFormed performance.now }
    requires early { filter (λ n. nat_lt n.onset known.low) after.now ≡ filter (λ n. nat_lt n.onset known.low) before.now }
    requires late { filter (λ n. nat_le known.high n.onset) after.now ≡ filter (λ n. nat_le known.high n.onset) before.now }
    requires end { known.bar_end ≤ length performance.now.bars }
    ensures { IsSpanOf tempo_map.now.tempos performance.now window before.now after.now known.entry.first_bar known.entry.bar_end result }
{
    let division = performance.division();
    let bars = performance.bars();
    let last = performance.last();
    let front = before.count_before(known.low);
    let back = before.len() - before.count_before(known.high);
    let first = first_bar_of(before, after, front, bars, tempo_map, division, window);
    let first_bar = first.min(known.first_bar);
    let end = bar_end_of(before, after, back, bars, tempo_map, division, window);
    let bar_end = end.max(known.bar_end);
    let low = barline_at(bars, last, first_bar);
    let high = barline_at(bars, last, bar_end);
    let part = part_of(after, low, high, tempo_map, division, window);
    Span {
        first_bar,
        bar_end,
        first_note: part.first,
        note_end: part.end,
    }
}
