ghost use Rattle.edit_laws.specs.Edits as edits;
ghost use Rattle.rhythm_base.specs.EditRanges.{IsEditInRange};
ghost use Rattle.performance_edit.specs.Changed as changed;
ghost use Rattle.rhythm_base.specs.declared.limits.TheConstants.{LATEST_TICK};
ghost use Rattle.rhythm_base.specs.Lists.{AreInOrder, list_with};
ghost use Rattle.rhythm_base.specs.Performance.{place_of_note};
ghost use Rattle.std.specs.Prelude.{◌≡◌, ◌≤◌, ◌<◌, ◌+◌, ◌++◌, All, IfOk, drop, length, min, take};
ghost use Rattle.performance_edit.specs.OnlyPlaces.{IsOnlyPlace, lesser};
ghost use Rattle.std.specs.List.{reduce};

use rhythm_base::{Edit, Note, Notes, Performance};
use std::alloc::{AllocError, Global};

/// The note is that of this channel, key and onset.
pub fn is_note(note: &Note, channel: u8, key: u8, onset: u64) -> bool
    ensures { result ≡ edits.is_note channel key onset note.now }
{
    note.channel == channel && note.key == key && note.onset == onset
}

/// The place of the note of that channel, key and onset.
fn place_of(notes: &Notes, channel: u8, key: u8, onset: u64) -> Option<usize>
    requires { AreInOrder place_of_note notes.now }
    ensures { IsOnlyPlace (edits.is_note channel key onset) notes.now result }
{
    let place = notes.count_before(u16::from(channel), onset, key);
    match notes.get(place) {
        Some(note) if is_note(&note, channel, key, onset) => Some(place),
        _ => None,
    }
}

/// A note has that channel, key and onset.
pub fn has_note(notes: &Notes, channel: u8, key: u8, onset: u64) -> bool
    requires { AreInOrder place_of_note notes.now }
    ensures { result ≡ edits.has_note notes.now channel key onset }
{
    place_of(notes, channel, key, onset).is_some()
}

/// A note besides that of this channel, key and onset has the onset `to`.
pub fn has_other(notes: &Notes, channel: u8, key: u8, onset: u64, to: u64) -> bool
    requires { AreInOrder place_of_note notes.now }
    ensures { result ≡ edits.has_note (edits.without_note channel key onset notes.now) channel key to }
{
    to != onset && has_note(notes, channel, key, to)
}

/// The note of that channel, key and onset.
pub fn note_at(notes: &Notes, channel: u8, key: u8, onset: u64) -> Option<Note>
    requires { AreInOrder place_of_note notes.now }
    ensures { result ≡ edits.note_at notes.now channel key onset }
{
    match place_of(notes, channel, key, onset) {
        None => None,
        Some(place) => notes.get(place),
    }
}

/// The note at another onset, of its old length.
pub fn moved_to(note: &Note, to: u64) -> Note
    requires { changed.CanMoveTo to note.now }
    ensures { result ≡ edits.moved_to to note.now }
{
    Note {
        onset: to,
        end: to + note.end.saturating_sub(note.onset),
        ..*note
    }
}

/// The note would begin at or after the tick, or end after it.
pub fn is_past(note: &Note, tick: u64) -> bool
    ensures { result ≡ edits.is_past tick note.now }
{
    tick <= note.onset || tick < note.end
}

/// The least onset of the notes of a block that would begin at or after the tick, or end after it.
fn least_within(notes: &[Note], tick: u64) -> Option<u64>
    ensures { result ≡ reduce min (edits.onsets_past tick notes.now) }
{
    notes
        .iter()
        .filter(|note| is_past(note, tick))
        .map(|note| note.onset)
        .min()
}

/// The lesser of two numbers, of those that there are.
fn lesser(one: Option<u64>, other: Option<u64>) -> Option<u64>
    ensures { result ≡ lesser one other }
{
    match (one, other) {
        (Some(one), Some(other)) => Some(one.min(other)),
        (Some(one), None) => Some(one),
        (None, other) => other,
    }
}

/// The least onset of the notes that would begin at or after the tick, or end after it.
pub fn least_past(notes: &Notes, tick: u64) -> Option<u64>
    ensures { result ≡ reduce min (edits.onsets_past tick notes.now) }
{
    let mut least = None;
    'blocks: for block in notes.blocks() {
        least = lesser(least, least_within(block.notes(), tick));
    }
    least
}

/// The notes and one more.
fn with_note(alloc: Global, notes: &Notes, note: Note) -> Result<Notes, AllocError>
    requires { AreInOrder place_of_note notes.now }
    ensures { IfOk result (λ n. n ≡ list_with place_of_note note notes.now) }
{
    let place = notes.count_before(u16::from(note.channel), note.onset, note.key);
    notes.with_other(alloc, place, 0, &[note])
}

/// The notes without that of this channel, key and onset.
fn without_note(
    alloc: Global,
    notes: &Notes,
    channel: u8,
    key: u8,
    onset: u64,
) -> Result<Notes, AllocError>
    requires { AreInOrder place_of_note notes.now }
    ensures { IfOk result (λ n. n ≡ edits.without_note channel key onset notes.now) }
{
    match place_of(notes, channel, key, onset) {
        None => notes.shared(),
        Some(place) => notes.with_other(alloc, place, 1, &[]),
    }
}

/// The notes with the note of a place moved. Where no other stands between its old place and its new one, it is written over.
fn with_other_onset(
    alloc: Global,
    notes: &Notes,
    place: usize,
    moved: Note,
) -> Result<Notes, AllocError>
    requires order { AreInOrder place_of_note notes.now }
    requires place { place < length notes.now }
    ensures { IfOk result (λ n. n ≡ list_with place_of_note moved (take place notes.now ++ drop (place + 1) notes.now)) }
{
    let earlier = notes.count_before(u16::from(moved.channel), moved.onset, moved.key);
    if earlier == place || earlier.saturating_sub(1) == place {
        return notes.with_other(alloc, place, 1, &[moved]);
    }
    let others = notes.with_other(alloc, place, 1, &[])?;
    with_note(alloc, &others, moved)
}

/// The notes with another onset of one of them.
fn with_moved(
    alloc: Global,
    notes: &Notes,
    channel: u8,
    key: u8,
    onset: u64,
    to: u64,
) -> Result<Notes, AllocError>
    requires order { AreInOrder place_of_note notes.now }
    requires range { IsEditInRange (Edit.Move channel key onset to) }
    requires ends { All (λ n. n.end ≤ LATEST_TICK) notes.now }
    ensures { IfOk result (λ n. n ≡ changed.with_moved channel key onset to notes.now) }
{
    match place_of(notes, channel, key, onset) {
        None => notes.shared(),
        Some(place) => match notes.get(place) {
            None => notes.shared(),
            Some(note) => with_other_onset(alloc, notes, place, moved_to(&note, to)),
        },
    }
}

/// The notes after an edit.
pub fn notes_after(
    alloc: Global,
    performance: &Performance,
    edit: &Edit,
) -> Result<Notes, AllocError>
    requires { IsEditInRange edit.now }
    ensures { IfOk result (λ n. n ≡ (edits.performance_after performance.now edit.now).notes) }
{
    let notes = performance.notes();
    match edit {
        Edit::Add {
            channel,
            key,
            onset,
            end,
        } => {
            let note = Note {
                channel: *channel,
                key: *key,
                onset: *onset,
                end: *end,
            };
            with_note(alloc, notes, note)
        }
        Edit::Drop {
            channel,
            key,
            onset,
        } => without_note(alloc, notes, *channel, *key, *onset),
        Edit::Move {
            channel,
            key,
            onset,
            to,
        } => with_moved(alloc, notes, *channel, *key, *onset, *to),
        Edit::Barline { .. }
        | Edit::Pin { .. }
        | Edit::Unpin { .. }
        | Edit::AddBar
        | Edit::DropBar => notes.shared(),
    }
}
