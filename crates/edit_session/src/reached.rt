ghost use Rattle.bar_cut.specs.Cuts.{AreBarsAndChords};
ghost use Rattle.edit_laws.specs.Edits.{performance_after};
ghost use Rattle.edit_session.specs.ChangedVoices.{LeavesOthers, changed_channel};
ghost use Rattle.rhythm_base.specs.EditRanges.{IsEditInRange};
ghost use Rattle.edit_session.specs.Kept.{AreTablesOfVoice};
ghost use Rattle.edit_session.specs.OtherCells.{AreOthersInSpan, AreOthersOfVoice};
ghost use Rattle.edit_session.specs.ReachedCells.{AreReachedInputs, HasOtherInput};
ghost use Rattle.edit_session.specs.Spans.{IsKnown};
ghost use Rattle.rhythm_base.specs.BarInput.{BarInput};
ghost use Rattle.rhythm_base.specs.Lists.{Each};
ghost use Rattle.rhythm_base.specs.Performance.{IsWellFormed};
ghost use Rattle.rhythm_base.specs.Readable.{IsReadable};
ghost use Rattle.rhythm_base.specs.Voices.{HasStarts};
ghost use Rattle.std.specs.Prelude.{◌≡◌, ◌↔◌, ◌≤◌, IfOk, IsTrue, List, Some, length, slice_get};

use crate::changed_voice::{changed_channel, may_change};
use crate::inputs::tempo_map_of;
use crate::known::{Known, known_of};
use crate::span::{Span, span_of};
use crate::voice_tables::VoiceTables;
use bar_cut::{Section, section_of};
use least_cost::BarTable;
use rhythm_base::{BarInput, Chord, Edit, Grammar, Performance};
use std::alloc::{AllocError, Global};
use tempo_map::TempoMap;
use voices::{VoiceNotes, chords_of};

/// The voice and the bar of a cell.
#[derive(Clone, Copy, Debug, PartialEq, Eq)]
pub struct CellPlace {
    pub channel: u8,
    pub bar: u32,
}

/// Cells and the input of each.
#[derive(Drop)]
pub struct ReachedCells {
    pub cells: Vec<CellPlace>,
    pub inputs: Vec<BarInput>,
}

/// There is no table for the bar of the section, or it has another input.
fn has_other_input(tables: &[BarTable], section: &Section, bar: usize) -> bool
    ensures { (inputs : List BarInput) → slice_get inputs bar ≡ Some section.now → (IsTrue result ↔ HasOtherInput tables.now inputs bar) }
{
    match tables.get(bar) {
        None => true,
        Some(table) => !section.has_input(table.input()),
    }
}

/// The cells of a voice in the bars of a span of which the input is another one than that of their table, and these inputs, by chords
/// that the inputs of these bars depend on.
fn other_inputs_within(
    alloc: Global,
    grammar: &Grammar,
    performance: &Performance,
    channel: u8,
    chords: &[Chord],
    tables: &[BarTable],
    span: Span,
) -> Result<ReachedCells, AllocError>
    requires readable { IsReadable grammar.now }
    requires formed { IsWellFormed performance.now }
    requires starts { HasStarts grammar.now performance.now.bars }
    requires chords { AreBarsAndChords performance.now.bars performance.now.last chords.now }
    requires end { span.bar_end ≤ length performance.now.bars }
    ensures { IfOk result (λ r. AreOthersInSpan grammar.now performance.now channel chords.now tables.now
        span r.cells.items r.inputs.items) }
{
    let bars = performance.bars();
    let last = performance.last();
    let pins = performance.pins();
    let mut cells = Vec::new(alloc);
    let mut others = Vec::new(alloc);
    'bars: for number in span.first_bar..span.bar_end {
        let section = section_of(chords, bars, last, grammar, pins, channel, number);
        if has_other_input(tables, &section, number) {
            others.push(section.input(alloc)?)?;
            cells.push(CellPlace {
                channel,
                bar: number as u32,
            })?;
        }
    }
    Ok(ReachedCells {
        cells,
        inputs: others,
    })
}

/// The cells of the voice of a channel of which the input is another one than that of their table, and these inputs. Only the bars
/// that the edit may reach are looked at, and only the chords that these depend on are gathered.
fn voice_reached(
    alloc: Global,
    grammar: &Grammar,
    known: Known<'_>,
    after: &Performance,
    tempo_map: &TempoMap,
    channel: u8,
    tables: &[BarTable],
) -> Result<ReachedCells, AllocError>
    requires readable { IsReadable grammar.now }
    requires formed { IsWellFormed known.before.now }
    requires formed_after { IsWellFormed after.now }
    requires tempos { tempo_map.now.tempos ≡ after.now.tempos }
    requires starts { HasStarts grammar.now after.now.bars }
    requires known { IsKnown known.before.now after.now known.low known.high known.first_bar known.bar_end }
    requires tables { AreTablesOfVoice grammar.now known.before.now channel tables.now }
    ensures { IfOk result (λ r. AreOthersOfVoice grammar.now after.now channel tables.now
        r.cells.items r.inputs.items) }
{
    let earlier = VoiceNotes::of(known.before.notes(), channel);
    let notes = VoiceNotes::of(after.notes(), channel);
    let division = after.division();
    let window = grammar.window;
    let span = span_of(&earlier, &notes, after, known, tempo_map, window);
    let own = notes.part(alloc, span.first_note, span.note_end)?;
    let chords = chords_of(alloc, own.as_slice(), tempo_map, division, window)?;
    let chords = chords.as_slice();
    let reached = other_inputs_within(alloc, grammar, after, channel, chords, tables, span)?;
    Ok(reached)
}

/// The cells that an edit of the performance reaches, and their inputs. Chords and inputs are worked out of no voice but the
/// one that may be changed, or of all.
pub fn reached_cells(
    alloc: Global,
    grammar: &Grammar,
    before: &Performance,
    after: &Performance,
    edit: &Edit,
    voices: &[VoiceTables],
) -> Result<ReachedCells, AllocError>
    requires readable { IsReadable grammar.now }
    requires formed { IsWellFormed before.now }
    requires formed_after { IsWellFormed after.now }
    requires channels { after.now.channels ≡ before.now.channels }
    requires starts { HasStarts grammar.now after.now.bars }
    requires tempos { after.now.tempos ≡ before.now.tempos }
    requires division { after.now.division ≡ before.now.division }
    requires range { IsEditInRange edit.now }
    requires after { after.now ≡ performance_after before.now edit.now }
    requires others { LeavesOthers (changed_channel edit.now) before.now after.now }
    requires tables { Each (λ channel voice. AreTablesOfVoice grammar.now before.now channel voice.tables) before.now.channels voices.now }
    ensures { IfOk result (λ r. AreReachedInputs grammar.now before.now after.now r.cells.items r.inputs.items) }
{
    let tempo_map = tempo_map_of(alloc, after)?;
    let known = known_of(before, after, edit);
    let changed = changed_channel(edit);
    let channels = before.channels();
    let mut cells = Vec::new(alloc);
    let mut inputs = Vec::new(alloc);
    'voices: for number in 0..voices.len() {
        let channel = channels[number];
        if may_change(changed, channel) {
            let tables = voices[number].tables();
            let mut own = voice_reached(alloc, grammar, known, after, &tempo_map, channel, tables)?;
            cells.append(&mut own.cells)?;
            inputs.append(&mut own.inputs)?;
        }
    }
    Ok(ReachedCells { cells, inputs })
}
