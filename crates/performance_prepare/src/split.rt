ghost use Rattle.performance_load.specs.Taking.{IsTakeFormed};
ghost use Rattle.note_list.specs.Kept.{same_place};
ghost use Rattle.performance_prepare.specs.Outcome.{Answers};
ghost use Rattle.performance_prepare.specs.Split as splits;
ghost use Rattle.rhythm_base.specs.Performance.{place_of_note};
ghost use Rattle.std.specs.List.{IsDistinct};
ghost use Rattle.std.specs.Prelude.{◌≡◌, IfOk, map, not};

use crate::drums::DRUMS;
use crate::prepare_fault::PrepareFault;
use performance_load::Take;
use rhythm_base::Note;
use std::alloc::{AllocError, Global};

/// All channels, rising.
const ALL: [u8; 16] = [0, 1, 2, 3, 4, 5, 6, 7, 8, 9, 10, 11, 12, 13, 14, 15];

/// The channels in the order in which they are given away, that of drums last of all.
const SPARE: [u8; 16] = [0, 1, 2, 3, 4, 5, 6, 7, 8, 10, 11, 12, 13, 14, 15, 9];

/// The channel has a note.
fn sounds(notes: &[Note], channel: u8) -> bool
    ensures { result ≡ splits.sounds notes.now channel }
{
    notes.iter().any(|note| note.channel == channel)
}

/// The channel has a note below the key.
fn sounds_below(key: u8, notes: &[Note], channel: u8) -> bool
    ensures { result ≡ splits.has_note (splits.is_low key) notes.now channel }
{
    notes
        .iter()
        .any(|note| note.channel == channel && note.key < key)
}

/// The channel has a note at the key or above it.
fn sounds_above(key: u8, notes: &[Note], channel: u8) -> bool
    ensures { result ≡ splits.has_note (λ n. not (splits.is_low key n)) notes.now channel }
{
    notes
        .iter()
        .any(|note| note.channel == channel && note.key >= key)
}

/// The channel is not that of drums, and has notes on both sides of the key.
fn is_split(key: u8, notes: &[Note], channel: u8) -> bool
    ensures { result ≡ splits.is_split key notes.now channel }
{
    channel != DRUMS && sounds_below(key, notes, channel) && sounds_above(key, notes, channel)
}

/// The channels that are split, rising.
fn split_channels(alloc: Global, key: u8, notes: &[Note]) -> Result<Vec<u8>, AllocError>
    ensures { IfOk result (λ v. v.items ≡ splits.split_channels key notes.now) }
{
    ALL.iter()
        .copied()
        .filter(|channel| is_split(key, notes, *channel))
        .collect(alloc)
}

/// The channels without a note, in the order in which they are given away.
pub fn free_channels(alloc: Global, notes: &[Note]) -> Result<Vec<u8>, AllocError>
    ensures { IfOk result (λ v. v.items ≡ splits.free_channels notes.now) }
{
    SPARE
        .iter()
        .copied()
        .filter(|channel| !sounds(notes, *channel))
        .collect(alloc)
}

/// The channels with a note, rising.
pub fn voice_channels(alloc: Global, notes: &[Note]) -> Result<Vec<u8>, AllocError>
    ensures { IfOk result (λ v. v.items ≡ splits.voice_channels notes.now) }
{
    ALL.iter()
        .copied()
        .filter(|channel| sounds(notes, *channel))
        .collect(alloc)
}

/// The channel of the lower notes of a channel.
fn lower_channel(split: &[u8], free: &[u8], channel: u8) -> u8
    ensures { result ≡ splits.lower_channel split.now free.now channel }
{
    match split {
        [] => channel,
        [one, others @ ..] => match free {
            [] => channel,
            [given, rest @ ..] => {
                if *one == channel {
                    *given
                } else {
                    lower_channel(others, rest, channel)
                }
            }
        },
    }
}

/// A note with its channel.
fn parted_note(key: u8, split: &[u8], free: &[u8], note: &Note) -> Note
    ensures { result ≡ splits.parted_note key split.now free.now note.now }
{
    if note.key < key {
        Note {
            channel: lower_channel(split, free, note.channel),
            ..*note
        }
    } else {
        *note
    }
}

/// The notes with their channels.
fn parted_notes(
    alloc: Global,
    key: u8,
    split: &[u8],
    free: &[u8],
    notes: &[Note],
) -> Result<Vec<Note>, AllocError>
    ensures { IfOk result (λ v. v.items ≡ map (splits.parted_note key split.now free.now) notes.now) }
{
    let mut parted = Vec::with_capacity(alloc, notes.len())?;
    for note in notes {
        parted.push(parted_note(key, split, free, note))?;
    }
    Ok(parted)
}

/// By it notes stand by channel, onset and key.
fn place_of_note(note: &Note) -> [u64; 3]
    ensures { result ≡ place_of_note note.now }
{
    [u64::from(note.channel), note.onset, u64::from(note.key)]
}

/// The notes, by channel, onset and key.
pub fn in_order(mut notes: Vec<Note>) -> Result<Vec<Note>, AllocError>
    requires { IsDistinct same_place notes.items }
    ensures { IfOk result (λ v. v.items ≡ splits.in_order notes.items) }
{
    notes.sort_by_key(
        |note: &Note|
            ensures { result ≡ place_of_note note.now }
        { place_of_note(note) },
    )?;
    Ok(notes)
}

/// The take whose notes below the key have channels of their own, in each channel but that of drums that has notes on both
/// sides of the key.
pub fn with_split(alloc: Global, key: u8, take: Take) -> Result<Take, PrepareFault>
    requires { IsTakeFormed take }
    ensures { Answers (splits.with_split key take) result }
{
    let split = split_channels(alloc, key, &take.notes)?;
    let free = free_channels(alloc, &take.notes)?;
    if split.len() > free.len() {
        let voices = voice_channels(alloc, &take.notes)?;
        let count = voices.len() as u64 + split.len() as u64;
        return Err(PrepareFault::TooManyVoices { count });
    }
    let parted = parted_notes(alloc, key, &split, &free, &take.notes)?;
    let notes = in_order(parted)?;
    Ok(Take { notes, ..take })
}
