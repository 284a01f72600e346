ghost use Rattle.bar_view.specs.Points.{IsPoint};
ghost use Rattle.bar_view.specs.Views.{IsUnquiet, IsViewOf, IsViewTo};
ghost use Rattle.bar_view.specs.Units.{IsEndOfEarlier};
ghost use Rattle.rhythm_base.specs.BarInput.{BarInput, IsBarInput};
ghost use Rattle.rhythm_base.specs.Grammar.{Grammar};
ghost use Rattle.rhythm_base.specs.declared.inner.Inner.{Inner};
ghost use Rattle.row_laws.specs.Grounds.{IsReady, ground_of};
ghost use Rattle.row_laws.specs.Leaves.{HasLeaf, IsCrowded};
ghost use Rattle.row_laws.specs.QuietTrees.{IsQuiet};
ghost use Rattle.std.specs.Prelude.{
  ◌≡◌,
  ◌+◌,
  ◌*◌,
  ◌<◌,
  ◌≤◌,
  ◌^◌,
  ℕ,
  IfOk,
  MatchOption,
  OnOk,
  length,
  slice_index_or,
};

use crate::displaced::displaced;
use crate::leaf::Leaf;
use crate::point::Point;
use crate::units::Units;
use rhythm_base::{BarInput, Grammar, Inner};
use row_laws::Quiet;
use std::alloc::{AllocError, Global};

/// The chords of a bar as its leaves ask of them.
#[derive(Drop)]
pub struct View {
    /// By the unit.
    units: Units,
    /// By the chord: the least double middle of a leaf that it is attached to where it lies in it.
    halves: Vec<u16>,
    /// By the chord, after the one before the bar: the greatest double middle of a leaf in which it sounds.
    sounding: Vec<u16>,
}

impl View {
    /// A view of nothing.
    pub fn new(alloc: Global) -> View {
        View {
            units: Units::new(alloc),
            halves: Vec::new(alloc),
            sounding: Vec::new(alloc),
        }
    }

    /// Becomes the view of a bar.
    pub fn set(&mut self, grammar: &Grammar, input: &BarInput) -> Result<(), AllocError>
        requires ready { IsReady grammar.now input.now }
        ensures { OnOk result (IsViewOf input.now self.new) }
    {
        let mut end = self.start(input)?;
        let mut count = 0u32;
        'chords: for chord in input.onsets() {
            end = self.add(input, *chord, count, end)?;
            count += 1;
        }
        self.units.go_on(input, count, end, input.resolution())
    }

    /// Begins a bar, before its first chord. The result is where the last chord before the bar ends.
    fn start(&mut self, input: &BarInput) -> Result<Point, AllocError>
        requires cell { IsBarInput input.now }
        ensures view { OnOk result (IsViewTo input.now 0 self.new) }
        ensures end { IfOk result (λ e. IsPoint input.now.length (input.now.before * input.now.resolution) e) }
    {
        let chords = input.onsets().len();
        let resolution = input.resolution();
        let length = input.length();
        self.units.clear(resolution)?;
        self.halves.clear();
        self.halves.reserve(chords)?;
        self.sounding.clear();
        self.sounding.reserve(chords)?;
        let end = Point::of(length, resolution, input.before());
        self.sounding.push(end.half_before(length))?;
        Ok(end)
    }

    /// Goes on past the next chord, where so many are before it and the one before it ends at a point. The result is where it
    /// ends itself.
    fn add(
        &mut self,
        input: &BarInput,
        chord: Inner,
        count: u32,
        end: Point,
    ) -> Result<Point, AllocError>
        requires cell { IsBarInput input.now }
        requires view { IsViewTo input.now count self.old }
        requires more { count < length input.now.chords }
        requires chord { (d : Inner) → slice_index_or input.now.chords count d ≡ chord }
        requires end { IsEndOfEarlier input.now count end }
        ensures view { OnOk result (IsViewTo input.now (count + 1) self.new) }
        ensures end { IfOk result (λ e. IsPoint input.now.length (chord.end * input.now.resolution) e) }
    {
        let resolution = input.resolution();
        let length = input.length();
        let onset = Point::of(length, resolution, chord.onset);
        self.units.go_on(input, count, end, onset.unit)?;
        self.halves.push(onset.half_after(length))?;
        let over = Point::of(length, resolution, chord.end);
        self.sounding.push(over.half_before(length))?;
        Ok(over)
    }

    /// How the `width` units from `place` on sound, where they are quiet.
    #[inline(always)]
    pub fn quiet(&self, input: &BarInput, place: u16, width: u16) -> Option<Quiet>
        requires view { IsViewOf input.now self.now }
        requires within { place + width ≤ input.now.resolution }
        ensures { (g : Grammar) → g.resolution ≡ input.now.resolution → MatchOption result (IsUnquiet (ground_of g input.now) place width)
            (λ q. IsQuiet q (ground_of g input.now) place width) }
    {
        let stretch = self.units.quiet[usize::from(place)];
        if place < stretch.until && width <= stretch.until - place {
            Some(stretch.quiet)
        } else {
            None
        }
    }

    /// The leaf over the interval of `width` units from `place` on, none where more than four chords are attached to it or to the next.
    #[inline(always)]
    pub fn leaf(&self, grammar: &Grammar, input: &BarInput, place: u16, width: u16) -> Option<Leaf>
        requires ready { IsReady grammar.now input.now }
        requires view { IsViewOf input.now self.now }
        requires wide { 1 ≤ width }
        requires within { place + width ≤ input.now.resolution }
        ensures { MatchOption result (IsCrowded input.now place width)
            (λ l. HasLeaf grammar.now input.now place width l.own l.next l.sounds l.charges × (l.charges < 2 ^ 60)) }
    {
        let first = self.units.below[usize::from(place)] as usize;
        let after = self.units.below[usize::from(place + width)] as usize;
        if 8 < after - first {
            return None;
        }
        let middle = 2 * place + width;
        let right = self.right(first, after, middle);
        if 4 < right - first || 4 < after - right {
            return None;
        }
        let chords = input.onsets();
        let late = displaced(input, &chords[first..right], place);
        let early = displaced(input, &chords[right..after], place + width);
        Some(Leaf {
            charges: u64::from(grammar.late) * late + u64::from(grammar.early) * early,
            own: (right - first) as u8,
            next: (after - right) as u8,
            sounds: middle <= self.sounding[right],
        })
    }

    /// The first of these chords, or the one after them, that goes to the next leaf where a leaf with this double middle has them.
    #[inline(always)]
    fn right(&self, first: usize, after: usize, middle: u16) -> usize
        requires order { first ≤ after }
        requires within { after ≤ length self.now.halves.items }
        ensures low { first ≤ result }
        ensures high { result ≤ after }
        ensures own { (i : ℕ) → first ≤ i → i < result → slice_index_or self.now.halves.items i 0 ≤ middle }
        ensures next { result < after → middle < slice_index_or self.now.halves.items result 0 }
    {
        let mut right = first;
        'walk: while right < after && self.halves[right] <= middle {
            right += 1;
        }
        right
    }
}
