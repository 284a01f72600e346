ghost use Rattle.note_list.specs.Pairing.{IsPlayed};
ghost use Rattle.performance_load.specs.Taking.{IsTakeFormed};
ghost use Rattle.performance_prepare.specs.Groups.{groups};
ghost use Rattle.performance_prepare.specs.Hands as hands;
ghost use Rattle.note_list.specs.Kept.{same_place};
ghost use Rattle.performance_prepare.specs.Outcome.{Answers};
ghost use Rattle.performance_prepare.specs.Split.{in_order};
ghost use Rattle.rhythm_base.specs.declared.limits.TheConstants.{LATEST_EVENT, MOST_NOTES};
ghost use Rattle.std.specs.List.{IsDistinct};
ghost use Rattle.std.specs.Prelude.{◌≡◌, ◌≤◌, ◌++◌, All, IfOk, OnOk, length};

use crate::groups::{costs, group_end, keys_of};
use crate::middle::middle;
use crate::prepare_fault::PrepareFault;
use crate::split::{free_channels, in_order, voice_channels};
use hand_borders::least_borders;
use performance_load::Take;
use rhythm_base::Note;
use std::alloc::{AllocError, Global};
use tempo_map::TempoMap;

/// The notes of a channel.
fn notes_of(alloc: Global, channel: u8, notes: &[Note]) -> Result<Vec<Note>, AllocError>
    ensures { IfOk result (λ v. v.items ≡ hands.notes_of channel notes.now) }
{
    notes
        .iter()
        .copied()
        .filter(|note| note.channel == channel)
        .collect(alloc)
}

/// The notes of the other channels.
fn other_notes(alloc: Global, channel: u8, notes: &[Note]) -> Result<Vec<Note>, AllocError>
    ensures { IfOk result (λ v. v.items ≡ hands.other_notes channel notes.now) }
{
    notes
        .iter()
        .copied()
        .filter(|note| note.channel != channel)
        .collect(alloc)
}

/// The border of each group of the notes of a channel.
fn borders_of(
    alloc: Global,
    map: &TempoMap,
    division: u16,
    within: u8,
    notes: &[Note],
) -> Result<Vec<u8>, AllocError>
    requires few { length notes.now ≤ MOST_NOTES }
    requires notes { All (IsPlayed LATEST_EVENT) notes.now }
    ensures { IfOk result (λ v. v.items ≡ hands.borders_of map.now.tempos division within notes.now) }
{
    let keys = keys_of(alloc, notes)?;
    let middle = middle(alloc, &keys)?;
    let rows = costs(alloc, map, division, within, middle, notes)?;
    least_borders(alloc, &rows)
}

/// The notes of a group below its border.
fn count_below(border: u8, group: &[Note]) -> usize
    ensures notes { result ≡ length (hands.notes_below border group.now) }
    ensures few { result ≤ length group.now }
{
    group.iter().filter(|note| note.key < border).count()
}

/// How many notes the left hand has.
fn left_count(map: &TempoMap, division: u16, within: u8, notes: &[Note], borders: &[u8]) -> usize
    requires notes { All (IsPlayed LATEST_EVENT) notes.now }
    ensures { result ≡ hands.left_count map.now.tempos division within notes.now borders.now }
{
    let mut count = 0;
    let mut start = 0;
    'borders: for border in borders {
        if start >= notes.len() {
            return count;
        }
        let end = group_end(map, division, within, notes, start);
        count += count_below(*border, &notes[start..end]);
        start = end;
    }
    count
}

/// The note in the channel of its hand.
fn handed_note(left: u8, border: u8, note: &Note) -> Note
    ensures { result ≡ hands.handed_note left border note.now }
{
    if note.key < border {
        Note {
            channel: left,
            ..*note
        }
    } else {
        *note
    }
}

/// Appends the notes of a group, each in the channel of its hand.
fn push_handed(
    handed: &mut Vec<Note>,
    left: u8,
    border: u8,
    group: &[Note],
) -> Result<(), AllocError>
    ensures { OnOk result (handed.new.items ≡ handed.old.items ++ hands.handed_group left border group.now) }
{
    for note in group {
        handed.push(handed_note(left, border, note))?;
    }
    Ok(())
}

/// Appends the notes of a channel, each in the channel of its hand.
fn push_hands(
    handed: &mut Vec<Note>,
    map: &TempoMap,
    division: u16,
    within: u8,
    notes: &[Note],
    borders: &[u8],
    left: u8,
) -> Result<(), AllocError>
    requires notes { All (IsPlayed LATEST_EVENT) notes.now }
    ensures { OnOk result (handed.new.items
        ≡ handed.old.items ++ hands.handed_notes left (groups map.now.tempos division within notes.now) borders.now) }
{
    let mut start = 0;
    'borders: for border in borders {
        if start < notes.len() {
            let end = group_end(map, division, within, notes, start);
            push_handed(handed, left, *border, &notes[start..end])?;
            start = end;
        }
    }
    Ok(())
}

/// The notes by channel, onset and key. Those of a channel that stand among others are put behind them first, which leaves
/// little to sort.
fn in_order_with(alloc: Global, channel: u8, notes: &[Note]) -> Result<Vec<Note>, AllocError>
    requires { IsDistinct same_place notes.now }
    ensures { IfOk result (λ v. v.items ≡ in_order notes.now) }
{
    let mut placed = other_notes(alloc, channel, notes)?;
    placed.append(&mut notes_of(alloc, channel, notes)?)?;
    in_order(placed)
}

/// The take whose left hand, in a channel, has a channel of its own.
pub fn with_hands(alloc: Global, channel: u8, within: u8, take: Take) -> Result<Take, PrepareFault>
    requires { IsTakeFormed take }
    ensures { Answers (hands.with_hands channel within take) result }
{
    let map = TempoMap::new(alloc, &take.tempos, &take.key_marks)?;
    let own = notes_of(alloc, channel, &take.notes)?;
    let borders = borders_of(alloc, &map, take.division, within, &own)?;
    let count = left_count(&map, take.division, within, &own, &borders);
    if count == 0 || count == own.len() {
        drop(map);
        return Ok(take);
    }
    let free = free_channels(alloc, &take.notes)?;
    if free.is_empty() {
        let voices = voice_channels(alloc, &take.notes)?;
        let count = voices.len() as u64 + 1;
        return Err(PrepareFault::TooManyVoices { count });
    }
    let mut handed = other_notes(alloc, channel, &take.notes)?;
    push_hands(
        &mut handed,
        &map,
        take.division,
        within,
        &own,
        &borders,
        free[0],
    )?;
    drop(map);
    let notes = in_order_with(alloc, free[0], &handed)?;
    Ok(Take { notes, ..take })
}
