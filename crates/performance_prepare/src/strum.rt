ghost use Rattle.note_list.specs.Pairing.{IsPlayed};
ghost use Rattle.performance_load.specs.Taking.{IsTakeFormed};
ghost use Rattle.performance_prepare.specs.Strum as strums;
ghost use Rattle.performance_prepare.specs.Strum.{strummed_notes};
ghost use Rattle.rhythm_base.specs.Lists.{least_of};
ghost use Rattle.rhythm_base.specs.declared.limits.TheConstants.{LATEST_EVENT};
ghost use Rattle.std.specs.Prelude.{◌≡◌, ◌++◌, All, IfOk, OnOk, map};
ghost use Rattle.std.specs.List.{reduce};
ghost use Rattle.std.specs.Prelude.{min};

use crate::drums::DRUMS;
use crate::elapsed::{milliseconds, time_between};
use crate::split::in_order;
use performance_load::Take;
use rhythm_base::Note;
use std::alloc::{AllocError, Global};
use tempo_map::TempoMap;

/// For how many milliseconds more the notes of a strum sound where another begins.
const RINGS: u8 = 40;

/// A note has this key.
pub fn strikes(notes: &[Note], key: u8) -> bool
    ensures { result ≡ strums.strikes notes.now key }
{
    notes.iter().any(|note| note.key == key)
}

/// The least end, where there is a note.
fn some_end(notes: &[Note]) -> Option<u64>
    ensures { result ≡ reduce min (map (λ n. n.end) notes.now) }
{
    notes.iter().map(|note| note.end).min()
}

/// The least end, 0 without notes.
fn first_end(notes: &[Note]) -> u64
    ensures { result ≡ least_of (map (λ n. n.end) notes.now) }
{
    match some_end(notes) {
        Some(end) => end,
        None => 0,
    }
}

/// The note begins soon after the last of the run, and all of the run sound on.
fn rolls_on(
    map: &TempoMap,
    division: u16,
    within: u8,
    run: &[Note],
    last: &Note,
    note: &Note,
) -> bool
    requires run { All (IsPlayed LATEST_EVENT) run.now }
    requires last { IsPlayed LATEST_EVENT last.now }
    requires note { IsPlayed LATEST_EVENT note.now }
    ensures { result ≡ strums.rolls_on map.now.tempos division within run.now last.now note.now }
{
    time_between(map, last.onset, note.onset) <= milliseconds(division, within)
        && milliseconds(division, RINGS) < time_between(map, note.onset, first_end(run))
}

/// The note goes on with the strum before it.
fn joins(map: &TempoMap, division: u16, within: u8, run: &[Note], last: &Note, note: &Note) -> bool
    requires run { All (IsPlayed LATEST_EVENT) run.now }
    requires last { IsPlayed LATEST_EVENT last.now }
    requires note { IsPlayed LATEST_EVENT note.now }
    ensures { result ≡ strums.joins map.now.tempos division within run.now last.now note.now }
{
    note.channel == last.channel
        && note.channel != DRUMS
        && !strikes(run, note.key)
        && (note.onset == last.onset || rolls_on(map, division, within, run, last, note))
}

/// Midway between the first onset of a strum and its last, rounded down.
fn midway(strum: &[Note]) -> u64
    requires { All (IsPlayed LATEST_EVENT) strum.now }
    ensures { result ≡ strums.midway strum.now }
{
    if strum.is_empty() {
        return 0;
    }
    (strum[0].onset + strum[strum.len() - 1].onset) / 2
}

/// Appends the notes of a strum, which begin together.
fn push_together(placed: &mut Vec<Note>, strum: &[Note]) -> Result<(), AllocError>
    requires { All (IsPlayed LATEST_EVENT) strum.now }
    ensures { OnOk result (placed.new.items ≡ placed.old.items ++ strums.together strum.now) }
{
    let onset = midway(strum);
    for note in strum {
        placed.push(Note { onset, ..*note })?;
    }
    Ok(())
}

/// The notes, those of each strum at its onset.
fn strummed_notes(
    alloc: Global,
    map: &TempoMap,
    division: u16,
    within: u8,
    notes: &[Note],
) -> Result<Vec<Note>, AllocError>
    requires { All (IsPlayed LATEST_EVENT) notes.now }
    ensures { IfOk result (λ v. v.items ≡ strummed_notes map.now.tempos division within notes.now) }
{
    let mut placed = Vec::with_capacity(alloc, notes.len())?;
    let mut start = 0;
    'notes: for index in 1..notes.len() {
        let strum = &notes[start..index];
        let last = &notes[index - 1];
        let note = &notes[index];
        if !joins(map, division, within, strum, last, note) {
            push_together(&mut placed, strum)?;
            start = index;
        }
    }
    push_together(&mut placed, &notes[start..])?;
    Ok(placed)
}

/// The take whose strums, of so many milliseconds at most from note to note, begin together.
pub fn with_strum(alloc: Global, within: u8, take: Take) -> Result<Take, AllocError>
    requires { IsTakeFormed take }
    ensures { IfOk result (λ t. t ≡ strums.with_strum within take) }
{
    let map = TempoMap::new(alloc, &take.tempos, &take.key_marks)?;
    let placed = strummed_notes(alloc, &map, take.division, within, &take.notes)?;
    drop(map);
    let notes = in_order(placed)?;
    Ok(Take { notes, ..take })
}
