ghost use Rattle.bar_cut.specs.Cuts.{IsBarWithChords, bar_input, pinned};
ghost use Rattle.rhythm_base.specs.Readable.{IsInRange};
ghost use Rattle.std.specs.Prelude.{◌≡◌, ◌↔◌, IfOk, IsTrue};

use crate::inner::{cut_end, inner_of, same_inner};
use rhythm_base::{Bar, BarInput, Chord, Grammar, Shape, copied_pin};
use std::alloc::{AllocError, Global};
use std::marker::Model;

/// A bar of a voice where it is cut: the input of its cell, with the chords and the pin still where they stand.
#[derive(Drop)]
pub struct Section<'a> {
    symbol: u8,
    resolution: u16,
    num: u8,
    den: u8,
    start: u64,
    length: u64,
    own: &'a [Chord],
    before: u64,
    pin: Option<&'a Shape>,
}

impl<'a> Model for Section<'a> {
    ghost use Rattle.bar_cut.specs.Cuts.{moved_all};
    ghost use Rattle.rhythm_base.specs.BarInput.{BarInput, IsBarInput};
    ghost use Rattle.rhythm_base.specs.BarInputCode.{bar_input_code};
    ghost use Rattle.std.specs.Prelude.{option_map};

    ghost Value = { BarInput };

    ghost coded = { bar_input_code };

    ghost view = { λ s. record {
      symbol = s.symbol;
      resolution = s.resolution;
      num = s.num;
      den = s.den;
      length = s.length;
      chords = moved_all s.start s.length s.own.now;
      before = s.before;
      pin = option_map (λ p. p.now) s.pin;
    } };

    ghost invariant = { λ s. IsBarInput record {
      symbol = s.symbol;
      resolution = s.resolution;
      num = s.num;
      den = s.den;
      length = s.length;
      chords = moved_all s.start s.length s.own.now;
      before = s.before;
      pin = option_map (λ p. p.now) s.pin;
    } };
}

/// The pins are equal.
fn same_pin(pin: Option<&Shape>, other: Option<&Shape>) -> bool
    ensures { IsTrue result ↔ (pinned pin.entry ≡ pinned other.entry) }
{
    match (pin, other) {
        (None, None) => true,
        (Some(shape), Some(another)) => shape.same(another),
        _ => false,
    }
}

impl<'a> Section<'a> {
    /// The section of a bar that runs to `end`, with its own chords, and the end of the chord before them.
    pub(crate) fn of(
        grammar: &Grammar,
        symbol: u8,
        bar: Bar,
        end: u64,
        own: &'a [Chord],
        before: u64,
        pin: Option<&'a Shape>,
    ) -> Section<'a>
        requires grammar { IsInRange grammar.now }
        requires bar { IsBarWithChords bar end own.now }
        ensures { result ≡ bar_input grammar.now symbol bar end own.entry.now before (pinned pin.entry) }
    {
        let length = end - bar.start;
        Section {
            symbol,
            resolution: grammar.resolution,
            num: bar.num,
            den: bar.den,
            start: bar.start,
            length,
            own,
            before: cut_end(bar.start, length, before),
            pin,
        }
    }

    /// The section is that of this input.
    pub fn has_input(&self, input: &BarInput) -> bool
        ensures { IsTrue result ↔ (input.now ≡ self.now) }
    {
        input.start() == self.symbol
            && input.resolution() == self.resolution
            && input.num() == self.num
            && input.den() == self.den
            && input.length() == self.length
            && input.before() == self.before
            && same_inner(self.start, self.length, self.own, input.onsets())
            && same_pin(input.pin(), self.pin)
    }

    /// The input of the cell, which holds its chords and its pin.
    pub fn input(&self, alloc: Global) -> Result<BarInput, AllocError>
        ensures { IfOk result (λ k. k ≡ self.now) }
    {
        let inner = inner_of(alloc, self.own, self.start, self.length)?;
        let shape = copied_pin(alloc, self.pin)?;
        Ok(BarInput::make(
            self.symbol,
            self.resolution,
            self.num,
            self.den,
            self.length,
            inner,
            self.before,
            shape,
        ))
    }
}
