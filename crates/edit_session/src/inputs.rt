ghost use Rattle.edit_session.specs.Inputs.{AreInputsOf, AreInputsOfVoice};
ghost use Rattle.edit_session.specs.Opening.{IsInputFault};
ghost use Rattle.bar_cut.specs.Cuts.{IsFirstWithoutStart};
ghost use Rattle.rhythm_base.specs.Performance.{IsWellFormed};
ghost use Rattle.rhythm_base.specs.Readable.{IsReadable};
ghost use Rattle.rhythm_base.specs.Voices.{AreChordsOf, HasStarts};
ghost use Rattle.std.specs.Prelude.{◌≡◌, Err, IfErr, IfOk, ℕ};

use crate::open_fault::OpenFault;
use bar_cut::{CutFault, check_starts, cut};
use rhythm_base::{BarInput, Chord, Grammar, Performance};
use std::alloc::{AllocError, Global};
use tempo_map::TempoMap;
use voices::{chords_of, notes_of_voice};

/// The tempos and keys of the performance.
pub fn tempo_map_of<'a>(
    alloc: Global,
    performance: &'a Performance,
) -> Result<TempoMap<'a>, AllocError>
    requires { IsWellFormed performance.now }
    ensures { let p = performance.entry.now in IfOk result (λ m. m ≡ record { tempos = p.tempos; key_marks = p.key_marks }) }
{
    TempoMap::new(alloc, performance.tempos(), performance.key_marks())
}

/// The chords of the voice of a channel.
pub fn voice_chords(
    alloc: Global,
    grammar: &Grammar,
    performance: &Performance,
    tempo_map: &TempoMap,
    channel: u8,
) -> Result<Vec<Chord>, AllocError>
    requires { tempo_map.now.tempos ≡ performance.now.tempos }
    ensures { IfOk result (λ v. AreChordsOf grammar.now performance.now channel v.items) }
{
    let notes = notes_of_voice(alloc, performance.notes(), channel)?;
    let division = performance.division();
    chords_of(alloc, notes.as_slice(), tempo_map, division, grammar.window)
}

/// The inputs of the cells of the voice of a channel, bar after bar.
pub fn voice_inputs(
    alloc: Global,
    grammar: &Grammar,
    performance: &Performance,
    tempo_map: &TempoMap,
    channel: u8,
) -> Result<Vec<BarInput>, CutFault>
    requires readable { IsReadable grammar.now }
    requires tempos { tempo_map.now.tempos ≡ performance.now.tempos }
    ensures inputs { IfOk result (λ v. AreInputsOfVoice grammar.now performance.now channel v.items) }
    ensures starts { IfOk result (λ _. HasStarts grammar.now performance.now.bars) }
    ensures no_start { (bar n d : ℕ) → result ≡ Err (CutFault.NoStart bar n d)
        → IsFirstWithoutStart grammar.now performance.now.bars bar n d }
{
    let chords = voice_chords(alloc, grammar, performance, tempo_map, channel)?;
    cut(
        alloc,
        chords.as_slice(),
        performance.bars(),
        performance.last(),
        grammar,
        performance.pins(),
        channel,
    )
}

/// The inputs of all cells, voice after voice and bar after bar.
pub fn cell_inputs(
    alloc: Global,
    grammar: &Grammar,
    performance: &Performance,
) -> Result<Vec<BarInput>, OpenFault>
    requires readable { IsReadable grammar.now }
    requires formed { IsWellFormed performance.now }
    ensures inputs { IfOk result (λ v. AreInputsOf grammar.now performance.now performance.now.channels v.items) }
    ensures starts { IfOk result (λ _. HasStarts grammar.now performance.now.bars) }
    ensures fault { IfErr result (IsInputFault grammar.now performance.now) }
{
    check_starts(grammar, performance.bars())?;
    let tempo_map = tempo_map_of(alloc, performance)?;
    let mut inputs = Vec::new(alloc);
    'voices: for channel in performance.channels() {
        let mut own = voice_inputs(alloc, grammar, performance, &tempo_map, *channel)?;
        inputs.append(&mut own)?;
    }
    Ok(inputs)
}
