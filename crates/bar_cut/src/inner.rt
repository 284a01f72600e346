ghost use Rattle.bar_cut.specs.Cuts.{moved, moved_all};
ghost use Rattle.rhythm_base.specs.Lists.{last_end};
ghost use Rattle.std.specs.Prelude.{◌≡◌, ◌↔◌, IfOk, IsTrue, unwrap_or, length, map, min, ◌-◌, nat_le};
ghost use Rattle.std.specs.List.{position};

use rhythm_base::{Chord, Inner};
use std::alloc::{AllocError, Global};

/// An end in ticks from a bar's start: 0 where it is before the bar, and cut to the bar's length.
pub fn cut_end(start: u64, length: u64, end: u64) -> u64
    ensures { result ≡ min (end - start) length }
{
    end.saturating_sub(start).min(length)
}

/// A chord of a bar as the bar sees it.
fn inner_chord(chord: &Chord, start: u64, length: u64) -> Inner
    ensures { result ≡ moved start length chord.now }
{
    Inner {
        onset: chord.onset.saturating_sub(start),
        end: cut_end(start, length, chord.end),
    }
}

/// The chords of a bar as the bar sees them.
pub fn inner_of(
    alloc: Global,
    own: &[Chord],
    start: u64,
    length: u64,
) -> Result<Vec<Inner>, AllocError>
    ensures { IfOk result (λ v. v.items ≡ moved_all start length own.now) }
{
    let mut inner = Vec::with_capacity(alloc, own.len())?;
    for chord in own {
        inner.push(inner_chord(chord, start, length))?;
    }
    Ok(inner)
}

/// The chords of a bar are these as the bar sees them.
pub fn same_inner(start: u64, length: u64, own: &[Chord], inner: &[Inner]) -> bool
    ensures { IsTrue result ↔ (inner.now ≡ moved_all start length own.now) }
{
    if own.len() != inner.len() {
        return false;
    }
    'chords: for number in 0..own.len() {
        if inner_chord(&own[number], start, length) != inner[number] {
            return false;
        }
    }
    true
}

/// How many chords begin before a tick, before the first that does not.
pub fn count_before(voice: &[Chord], tick: u64) -> usize
    ensures { result ≡ unwrap_or (position (λ c. nat_le tick c.onset) voice.now) (length voice.now) }
{
    voice
        .iter()
        .position(|chord| chord.onset >= tick)
        .unwrap_or(voice.len())
}

/// The end of the last of the chords, or `end` where there is none.
pub fn last_end(chords: &[Chord], end: u64) -> u64
    ensures { result ≡ last_end end (map (λ c. c.end) chords.now) }
{
    match chords {
        [] => end,
        [.., last] => last.end,
    }
}
