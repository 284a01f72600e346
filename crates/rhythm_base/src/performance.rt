ghost use Rattle.rhythm_base.specs.Performance.{IsWellFormed, Performance};
ghost use Rattle.std.specs.Arc.{arc_slice_items};
ghost use Rattle.std.specs.Prelude.{◌≡◌, IfOk};

use crate::event::{KeyMark, Tempo};
use crate::note::Bar;
use crate::notes::Notes;
use crate::pin::Pin;
use std::alloc::AllocError;
use std::marker::Model;
use std::sync::ArcSlice;

/// A performance: what a MIDI file says, as far as a score takes it, and what edits made of it. It is always well formed.
#[derive(Drop)]
pub struct Performance {
    division: u16,
    tempos: ArcSlice<Tempo>,
    key_marks: ArcSlice<KeyMark>,
    bars: ArcSlice<Bar>,
    last: u64,
    channels: ArcSlice<u8>,
    notes: Notes,
    pins: ArcSlice<Pin>,
}

impl Model for Performance {
    ghost use Rattle.rhythm_base.specs.PerformanceCode.{performance_code};
    ghost use Rattle.rhythm_base.specs.Performance.{IsWellFormed, Performance};
    ghost use Rattle.std.specs.Arc.{arc_slice_items};

    ghost Value = { Performance };

    ghost coded = { performance_code };

    ghost view = { λ p. record {
      division = p.division;
      tempos = arc_slice_items p.tempos;
      key_marks = arc_slice_items p.key_marks;
      bars = arc_slice_items p.bars;
      last = p.last;
      channels = arc_slice_items p.channels;
      notes = p.notes;
      pins = arc_slice_items p.pins;
    } };

    ghost invariant = { λ p. IsWellFormed record {
      division = p.division;
      tempos = arc_slice_items p.tempos;
      key_marks = arc_slice_items p.key_marks;
      bars = arc_slice_items p.bars;
      last = p.last;
      channels = arc_slice_items p.channels;
      notes = p.notes;
      pins = arc_slice_items p.pins;
    } };
}

impl Performance {
    /// The performance of these parts.
    pub fn make(
        division: u16,
        tempos: Vec<Tempo>,
        key_marks: Vec<KeyMark>,
        bars: Vec<Bar>,
        last: u64,
        channels: Vec<u8>,
        notes: Notes,
        pins: Vec<Pin>,
    ) -> Result<Performance, AllocError>
        requires { IsWellFormed record {
          division = division;
          tempos = tempos.items;
          key_marks = key_marks.items;
          bars = bars.items;
          last = last;
          channels = channels.items;
          notes = notes;
          pins = pins.items;
        } }
        ensures { IfOk result (λ p. p ≡ record {
          division = division;
          tempos = tempos.items;
          key_marks = key_marks.items;
          bars = bars.items;
          last = last;
          channels = channels.items;
          notes = notes;
          pins = pins.items;
        }) }
    {
        let tempos = ArcSlice::from_vec(tempos)?;
        let key_marks = ArcSlice::from_vec(key_marks)?;
        let bars = ArcSlice::from_vec(bars)?;
        let channels = ArcSlice::from_vec(channels)?;
        let pins = ArcSlice::from_vec(pins)?;
        Ok(Performance {
            division,
            tempos,
            key_marks,
            bars,
            last,
            channels,
            notes,
            pins,
        })
    }

    /// The performance with other bars, another last barline, other notes and other pins. The rest is shared.
    pub fn with_parts(
        &self,
        bars: ArcSlice<Bar>,
        last: u64,
        notes: Notes,
        pins: ArcSlice<Pin>,
    ) -> Result<Performance, AllocError>
        requires { IsWellFormed record self.now {
          bars = arc_slice_items bars;
          last = last;
          notes = notes;
          pins = arc_slice_items pins;
        } }
        ensures { IfOk result (λ p. p ≡ record self.now {
          bars = arc_slice_items bars;
          last = last;
          notes = notes;
          pins = arc_slice_items pins;
        }) }
    {
        let tempos = self.tempos.clone()?;
        let key_marks = self.key_marks.clone()?;
        let channels = self.channels.clone()?;
        Ok(Performance {
            division: self.division,
            tempos,
            key_marks,
            bars,
            last,
            channels,
            notes,
            pins,
        })
    }

    /// Ticks of a quarter note, 1 to 32,767.
    pub fn division(&self) -> u16
        ensures value { result ≡ self.now.division }
        ensures formed { IsWellFormed self.now }
    {
        self.division
    }

    /// The changes of tempo, by tick.
    pub fn tempos(&self) -> &[Tempo]
        ensures { result.now ≡ self.now.tempos }
    {
        self.tempos.as_slice()
    }

    /// The changes of tempo, shared.
    pub fn shared_tempos(&self) -> Result<ArcSlice<Tempo>, AllocError>
        ensures { IfOk result (λ tempos. arc_slice_items tempos ≡ self.now.tempos) }
    {
        self.tempos.clone()
    }

    /// The changes of key, by tick.
    pub fn key_marks(&self) -> &[KeyMark]
        ensures { result.now ≡ self.now.key_marks }
    {
        self.key_marks.as_slice()
    }

    /// The changes of key, shared.
    pub fn shared_key_marks(&self) -> Result<ArcSlice<KeyMark>, AllocError>
        ensures { IfOk result (λ key_marks. arc_slice_items key_marks ≡ self.now.key_marks) }
    {
        self.key_marks.clone()
    }

    /// The bars, 1 to 4,096, side by side from tick 0.
    pub fn bars(&self) -> &[Bar]
        ensures value { result.now ≡ self.now.bars }
        ensures formed { IsWellFormed self.now }
    {
        self.bars.as_slice()
    }

    /// The bars, shared.
    pub fn shared_bars(&self) -> Result<ArcSlice<Bar>, AllocError>
        ensures { IfOk result (λ bars. arc_slice_items bars ≡ self.now.bars) }
    {
        self.bars.clone()
    }

    /// The tick of the last barline, at most 2,000,000,000.
    pub fn last(&self) -> u64
        ensures { result ≡ self.now.last }
    {
        self.last
    }

    /// The voices, rising.
    pub fn channels(&self) -> &[u8]
        ensures { result.now ≡ self.now.channels }
    {
        self.channels.as_slice()
    }

    /// The notes, by channel, onset and key.
    pub fn notes(&self) -> &Notes
        ensures value { result.now ≡ self.now.notes }
        ensures formed { IsWellFormed self.now }
    {
        &self.notes
    }

    /// The pins, by channel and bar, at most one a cell.
    pub fn pins(&self) -> &[Pin]
        ensures { result.now ≡ self.now.pins }
    {
        self.pins.as_slice()
    }

    /// The pins, shared.
    pub fn shared_pins(&self) -> Result<ArcSlice<Pin>, AllocError>
        ensures { IfOk result (λ pins. arc_slice_items pins ≡ self.now.pins) }
    {
        self.pins.clone()
    }
}
