ghost use Rattle.std.specs.Prelude.{◌≡◌, ◌<◌, ◌≤◌, ◌↔◌, All, Err, IfErr, IfOk, IsTrue, OnOk, length, map};
ghost use Rattle.std.specs.List.Sorted.{IsNonDecreasing, IsPermutation, IsSortedByKey};
ghost use Rattle.std.specs.Cmp.Lexicographic.{slice_cmp};
ghost use Rattle.std.specs.Ordering.{nat_cmp};
ghost use Rattle.rhythm_base.specs.Performance.{place_of_note};
ghost use Rattle.note_list.specs.Pairing.{IsEventOf, ArePaired, AreSilent, IsNoteFault, IsPlayed, begins};
ghost use Rattle.note_list.specs.declared.fault.NoteFault.TheVariants.{Memory};

use crate::fault::NoteFault;
use crate::kept::kept;
use rhythm_base::{Event, Note, What};
use std::alloc::{AllocError, Global};

/// By it notes stand by channel, onset and key.
fn place_of_note(note: &Note) -> [u64; 3]
    ensures { result ≡ place_of_note note.now }
{
    [u64::from(note.channel), note.onset, u64::from(note.key)]
}

/// A note begins with it.
fn begins(what: What) -> bool
    ensures { result ≡ begins what }
{
    matches!(what, What::On { .. })
}

/// No note begins.
fn are_silent(events: &[Event]) -> bool
    ensures { IsTrue result ↔ AreSilent events.now }
{
    for event in events {
        if begins(event.what) {
            return false;
        }
    }
    true
}

/// Where the notes that begin with the note of that place end, of notes that stand by onset.
fn end_of_chord(notes: &[Note], start: usize) -> usize
    requires { start < length notes.now }
    ensures after { start < result }
    ensures within { result ≤ length notes.now }
{
    let mut end = start + 1;
    'notes: while end < notes.len() && notes[end].onset == notes[start].onset {
        end += 1;
    }
    end
}

/// Puts notes that begin together in their order, of notes that stand by onset.
fn order_chords(alloc: Global, notes: &mut [Note]) -> Result<(), AllocError>
    ensures { IsPermutation notes.old notes.new }
{
    let mut start = 0;
    'chords: while start < notes.len() {
        let end = end_of_chord(notes, start);
        if start + 1 < end {
            notes[start..end].sort_by_key(alloc, |note: &Note| place_of_note(note))?;
        }
        start = end;
    }
    Ok(())
}

/// Puts notes in their order that stand by onset, the last first. Those of a channel are then in order already, so that the last
/// sort finds nothing to move and takes one pass.
fn put_in_order(alloc: Global, notes: &mut Vec<Note>) -> Result<(), AllocError>
    ensures same { OnOk result (IsPermutation notes.old.items notes.new.items) }
    ensures sorted { OnOk result (IsSortedByKey place_of_note (slice_cmp nat_cmp) notes.new.items) }
{
    notes.reverse();
    order_chords(alloc, notes.as_mut_slice())?;
    notes.sort_by_key(|note: &Note| note.channel)?;
    notes.sort_by_key(
        |note: &Note|
            ensures { result ≡ place_of_note note.now }
        { place_of_note(note) },
    )?;
    Ok(())
}

/// The notes of the events, by channel, onset and key. `last` is the last tick of the file, where notes end that nothing
/// else ends.
pub fn pair(alloc: Global, events: &[Event], last: u64) -> Result<Vec<Note>, NoteFault>
    requires order { IsNonDecreasing (map (λ e. e.tick) events.now) }
    requires events { All (IsEventOf last) events.now }
    ensures notes { IfOk result (λ v. ArePaired last events.now v.items) }
    ensures fault { IfErr result (IsNoteFault last events.now) }
    ensures memory { result ≡ Err Memory → AreSilent events.now → ⊥ }
    ensures played { IfOk result (λ v. All (IsPlayed last) v.items) }
{
    if are_silent(events) {
        return Err(NoteFault::NoNotes);
    }
    let mut notes = kept(alloc, events, last)?;
    put_in_order(alloc, &mut notes)?;
    Ok(notes)
}
