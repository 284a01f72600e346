ghost use Rattle.std.specs.Prelude.{◌≡◌, IfOk, option_map};
ghost use Rattle.rhythm_base.specs.BarInput.{BarInput, IsBarInput};

use crate::inner::Inner;
use crate::shape::Shape;
use std::alloc::{AllocError, Global};
use std::marker::Model;

/// All that the least tree of one bar of one voice depends on, besides the rules. It holds no pitch.
#[derive(Drop)]
pub struct BarInput {
    start: u8,
    resolution: u16,
    num: u8,
    den: u8,
    length: u64,
    onsets: Vec<Inner>,
    before: u64,
    pin: Option<Shape>,
}

impl Model for BarInput {
    ghost use Rattle.rhythm_base.specs.BarInputCode.{bar_input_code};
    ghost use Rattle.rhythm_base.specs.BarInput.{BarInput, IsBarInput};

    ghost Value = { BarInput };

    ghost coded = { bar_input_code };

    ghost view = { λ b. record {
      symbol = b.start;
      resolution = b.resolution;
      num = b.num;
      den = b.den;
      length = b.length;
      chords = b.onsets.items;
      before = b.before;
      pin = b.pin;
    } };

    ghost invariant = { λ b. IsBarInput record {
      symbol = b.start;
      resolution = b.resolution;
      num = b.num;
      den = b.den;
      length = b.length;
      chords = b.onsets.items;
      before = b.before;
      pin = b.pin;
    } };
}

impl BarInput {
    /// The input of these parts: the root symbol, the units of a bar, the signature, the bar's length in ticks, its
    /// chords, the end of the chord before them in ticks from the bar's start, and the pin.
    pub fn make(
        start: u8,
        resolution: u16,
        num: u8,
        den: u8,
        length: u64,
        onsets: Vec<Inner>,
        before: u64,
        pin: Option<Shape>,
    ) -> BarInput
        requires { IsBarInput record {
          symbol = start;
          resolution = resolution;
          num = num;
          den = den;
          length = length;
          chords = onsets.items;
          before = before;
          pin = pin;
        } }
        ensures { result ≡ record {
          symbol = start;
          resolution = resolution;
          num = num;
          den = den;
          length = length;
          chords = onsets.items;
          before = before;
          pin = pin;
        } }
    {
        BarInput {
            start,
            resolution,
            num,
            den,
            length,
            onsets,
            before,
            pin,
        }
    }

    /// The root symbol of the bar's tree.
    pub fn start(&self) -> u8
        ensures value { result ≡ self.now.symbol }
        ensures formed { IsBarInput self.now }
    {
        self.start
    }

    /// The units of the bar.
    pub fn resolution(&self) -> u16
        ensures { result ≡ self.now.resolution }
    {
        self.resolution
    }

    /// The beats of the signature.
    pub fn num(&self) -> u8
        ensures { result ≡ self.now.num }
    {
        self.num
    }

    /// The value of a beat, as the part of a whole note.
    pub fn den(&self) -> u8
        ensures { result ≡ self.now.den }
    {
        self.den
    }

    /// The length of the bar in ticks.
    pub fn length(&self) -> u64
        ensures { result ≡ self.now.length }
    {
        self.length
    }

    /// The chords that begin in the bar, in order.
    pub fn onsets(&self) -> &[Inner]
        ensures { result.now ≡ self.now.chords }
    {
        self.onsets.as_slice()
    }

    /// The end of the last chord that begins before the bar, in ticks from the bar's start and within the bar.
    pub fn before(&self) -> u64
        ensures { result ≡ self.now.before }
    {
        self.before
    }

    /// The shape that the bar's tree must have, where there is one.
    pub fn pin(&self) -> Option<&Shape>
        ensures { option_map (λ s. s.now) result ≡ self.now.pin }
    {
        self.pin.as_ref()
    }

    /// An equal input.
    pub fn copy(&self, alloc: Global) -> Result<BarInput, AllocError>
        ensures { IfOk result (λ b. b ≡ self.now) }
    {
        let onsets = self.onsets.as_slice().to_vec(alloc)?;
        let pin = copied_pin(alloc, self.pin())?;
        Ok(BarInput {
            onsets,
            pin,
            ..*self
        })
    }
}

/// An equal pin, where there is one.
pub fn copied_pin(alloc: Global, pin: Option<&Shape>) -> Result<Option<Shape>, AllocError>
    ensures { IfOk result (λ o. o ≡ option_map (λ s. s.now) pin.entry) }
{
    match pin {
        None => Ok(None),
        Some(shape) => Ok(Some(shape.copy(alloc)?)),
    }
}
