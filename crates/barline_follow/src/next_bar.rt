ghost use Rattle.barline_follow.specs.Bars.{pattern_of};
ghost use Rattle.edit_laws.specs.Edits.{is_past};
ghost use Rattle.rhythm_base.specs.Signatures.{IsSignature};
ghost use Rattle.std.specs.List.{list_any};
ghost use Rattle.std.specs.Prelude.{◌≡◌, ◌<◌, ◌^◌, All, Some, nat_le, not, ℕ};

use crate::voice::Voice;
use rhythm_base::{Bar, Grammar, Note, Notes, Performance};

/// The bar that lists get in a round.
#[derive(Clone, Copy)]
pub struct NextBar<'a> {
    pub grammar: &'a Grammar,
    pub performance: &'a Performance,
    /// The chords of each voice.
    pub voices: &'a [Voice],
    /// The number of the bar.
    pub number: usize,
    /// A bar of its signature.
    pub like: Bar,
    /// The grammar has a root symbol for that signature.
    pub is_rooted: bool,
    /// The first tick from which on a list is closed.
    pub closing: u64,
}

/// A bar of the signature that the bar of that number has.
pub fn bar_like(performance: &Performance, number: usize) -> Bar
    ensures like { pattern_of performance.now number ≡ Some result }
    ensures signature { IsSignature result.num result.den }
{
    let bars = performance.bars();
    bars[number.min(bars.len() - 1)]
}

/// The first tick from which on no note of a block begins, and none ends later.
fn closing_within(notes: &[Note]) -> u64
    requires { All (λ n. n.onset < 2 ^ 63) notes.now }
    ensures { (end : ℕ) → not (list_any (is_past end) notes.now) ≡ nat_le result end }
{
    let mut tick = 0;
    'notes: for note in notes {
        tick = tick.max(note.onset + 1).max(note.end);
    }
    tick
}

/// The first tick from which on no note begins, and no note ends later.
pub fn closing_tick(notes: &Notes) -> u64
    requires { All (λ n. n.onset < 2 ^ 63) notes.now }
    ensures { (end : ℕ) → not (list_any (is_past end) notes.now) ≡ nat_le result end }
{
    let mut tick = 0;
    'blocks: for block in notes.blocks() {
        tick = tick.max(closing_within(block.notes()));
    }
    tick
}
