ghost use Rattle.rhythm_base.specs.BarInput.{IsInner};
ghost use Rattle.rhythm_base.specs.Line.{Rising};
ghost use Rattle.rhythm_base.specs.Readable.{IsReadable};
ghost use Rattle.std.specs.Prelude.{◌≡◌, All, IfSome, IsTrue};

use least_cost::BarTable;
use rhythm_base::{BarInput, Best, Grammar, Inner, Shape};
use std::alloc::{AllocError, Global};

/// Whether the onsets rise from a tick on.
fn are_rising(low: u64, chords: &[Inner]) -> bool
    ensures { IsTrue result → Rising low chords.now }
{
    match chords {
        [] => true,
        [chord, chords @ ..] => {
            low <= chord.onset && chord.onset < 2_000_000_000 && are_rising(chord.onset + 1, chords)
        }
    }
}

/// Whether the chords lie in a bar of so many ticks.
fn are_within(length: u64, chords: &[Inner]) -> bool
    ensures { IsTrue result → All (IsInner length) chords.now }
{
    for chord in chords {
        if chord.onset >= length {
            return false;
        }
        if chord.onset > chord.end {
            return false;
        }
        if chord.end > length {
            return false;
        }
    }
    true
}

/// Chords of these onsets and ends.
pub fn chords_of(alloc: Global, chords: &[(u64, u64)]) -> Result<Vec<Inner>, AllocError> {
    chords
        .iter()
        .map(|chord| Inner {
            onset: chord.0,
            end: chord.1,
        })
        .collect(alloc)
}

/// A bar of 4/4 of 1,920 ticks, in the units of a grammar; none where the chords are not in it in order.
pub fn bar_of(
    grammar: &Grammar,
    chords: Vec<Inner>,
    before: u64,
    pin: Option<Shape>,
) -> Option<BarInput>
    requires { IsReadable grammar.now }
    ensures { IfSome result (λ b. b.resolution ≡ grammar.now.resolution) }
{
    if before <= 1920 && are_rising(0, chords.as_slice()) && are_within(1920, chords.as_slice()) {
        Some(BarInput::make(0, grammar.resolution, 4, 4, 1920, chords, before, pin))
    } else {
        None
    }
}

/// The number of entries of a table.
pub fn count_entries(table: &BarTable) -> usize {
    let mut count = 0usize;
    for from in 0..5u8 {
        for to in 0..5u8 {
            if table.rules(from, to).is_some() {
                count = count.saturating_add(1);
            }
        }
    }
    count
}

/// The least tree for these numbers carried in and out has this cost and rank, and so many rules.
pub fn has_entry(table: &BarTable, from: u8, to: u8, best: Best, count: usize) -> bool {
    if from > 4 || to > 4 {
        return false;
    }
    match table.rules(from, to) {
        Some(rules) => rules.len() == count && table.matrix().get(from, to) == Some(best),
        None => false,
    }
}
