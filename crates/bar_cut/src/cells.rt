ghost use Rattle.bar_cut.specs.Cuts.{AreBarsAndChords, NamesFirstWithoutStart, inputs};
ghost use Rattle.bar_cut.specs.declared.fault.CutFault.TheVariants.{Memory};
ghost use Rattle.rhythm_base.specs.Readable.{IsInRange};
ghost use Rattle.rhythm_base.specs.Voices.{HasStarts};
ghost use Rattle.std.specs.Prelude.{◌≡◌, ◌<◌, Err, IfOk, Some, length, slice_get};

use crate::fault::CutFault;
use crate::inner::{count_before, last_end};
use crate::lookup::{barline_after, pin_of, root_of};
use crate::section::Section;
use crate::starts::check_starts;
use rhythm_base::{Bar, BarInput, Chord, Grammar, Pin};
use std::alloc::{AllocError, Global};

/// The sections of a voice, bar after bar. The bars are side by side from tick 0 to the last barline, at `last`;
/// the chords are those of the voice `channel`, whose pins alone are looked at.
pub fn sections<'a>(
    alloc: Global,
    voice: &'a [Chord],
    bars: &[Bar],
    last: u64,
    grammar: &Grammar,
    pins: &'a [Pin],
    channel: u8,
) -> Result<Vec<Section<'a>>, CutFault>
    requires voice { AreBarsAndChords bars.now last voice.now }
    requires grammar { IsInRange grammar.now }
    ensures inputs { IfOk result (λ v. v.items ≡ inputs grammar.now pins.entry.now channel last bars.now voice.entry.now) }
    ensures starts { IfOk result (λ _. HasStarts grammar.now bars.now) }
    ensures no_start { NamesFirstWithoutStart grammar.now bars.now result }
    ensures memory { result ≡ Err Memory → HasStarts grammar.now bars.now }
{
    check_starts(grammar, bars)?;
    let mut sections = Vec::with_capacity(alloc, bars.len())?;
    let mut later = voice;
    let mut before = 0;
    'bars: for number in 0..bars.len() {
        let bar = bars[number];
        let end = barline_after(bars, last, number);
        let symbol = root_of(grammar, bar.num, bar.den).unwrap();
        let (own, rest) = later.split_at(count_before(later, end));
        let pin = pin_of(pins, channel, number);
        sections.push(Section::of(grammar, symbol, bar, end, own, before, pin))?;
        before = last_end(own, before);
        later = rest;
    }
    Ok(sections)
}

/// The section of one bar of a voice, by its number: that which `sections` gives for the bar. Each bar has a root symbol. The
/// chords are looked through from the first, so give few: those of the bar, and the chord before them.
pub fn section_of<'a>(
    voice: &'a [Chord],
    bars: &[Bar],
    last: u64,
    grammar: &Grammar,
    pins: &'a [Pin],
    channel: u8,
    number: usize,
) -> Section<'a>
    requires voice { AreBarsAndChords bars.now last voice.now }
    requires grammar { IsInRange grammar.now }
    requires starts { HasStarts grammar.now bars.now }
    requires number { number < length bars.now }
    ensures { slice_get (inputs grammar.now pins.entry.now channel last bars.now voice.entry.now) number ≡ Some result }
{
    let bar = bars[number];
    let end = barline_after(bars, last, number);
    let symbol = root_of(grammar, bar.num, bar.den).unwrap();
    let (earlier, later) = voice.split_at(count_before(voice, bar.start));
    let (own, _rest) = later.split_at(count_before(later, end));
    let before = last_end(earlier, 0);
    let pin = pin_of(pins, channel, number);
    Section::of(grammar, symbol, bar, end, own, before, pin)
}

/// The input of each section.
fn inputs_of(alloc: Global, sections: &[Section]) -> Result<Vec<BarInput>, AllocError>
    ensures { IfOk result (λ v. v.items ≡ sections.now) }
{
    let mut inputs = Vec::with_capacity(alloc, sections.len())?;
    'sections: for section in sections {
        inputs.push(section.input(alloc)?)?;
    }
    Ok(inputs)
}

/// The input of each cell of a voice, bar after bar. The bars are side by side from tick 0 to the last barline, at `last`;
/// the chords are those of the voice `channel`, whose pins alone are looked at.
pub fn cut(
    alloc: Global,
    voice: &[Chord],
    bars: &[Bar],
    last: u64,
    grammar: &Grammar,
    pins: &[Pin],
    channel: u8,
) -> Result<Vec<BarInput>, CutFault>
    requires voice { AreBarsAndChords bars.now last voice.now }
    requires grammar { IsInRange grammar.now }
    ensures inputs { IfOk result (λ v. v.items ≡ inputs grammar.now pins.now channel last bars.now voice.now) }
    ensures starts { IfOk result (λ _. HasStarts grammar.now bars.now) }
    ensures no_start { NamesFirstWithoutStart grammar.now bars.now result }
    ensures memory { result ≡ Err Memory → HasStarts grammar.now bars.now }
{
    let sections = sections(alloc, voice, bars, last, grammar, pins, channel)?;
    Ok(inputs_of(alloc, sections.as_slice())?)
}
