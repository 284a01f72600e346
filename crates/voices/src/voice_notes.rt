ghost use Rattle.rhythm_base.specs.Lists.{AreInOrder};
ghost use Rattle.rhythm_base.specs.declared.note.Note.{Note};
ghost use Rattle.rhythm_base.specs.Performance.{place_of_note};
ghost use Rattle.std.specs.List.{AllWithin, between};
ghost use Rattle.std.specs.Prelude.{◌≡◌, ◌==◌, ◌<◌, ◌≤◌, ◌+◌, ◌^◌, IfOk, ℕ, filter, get_or, length, slice_get};
ghost use Rattle.voices.specs.Voice.{AreNotesOfVoice};

use rhythm_base::{Note, Notes};
use std::alloc::{AllocError, Global};
use std::marker::Model;

/// The notes of a voice, where they stand among all notes of a performance.
#[derive(Drop)]
pub struct VoiceNotes<'a> {
    notes: &'a Notes,
    from: usize,
    up_to: usize,
}

impl<'a> Model for VoiceNotes<'a> {
    ghost use Rattle.rhythm_base.specs.NoteBlocks.{notes_code};
    ghost use Rattle.rhythm_base.specs.declared.note.Note.{Note};
    ghost use Rattle.std.specs.List.{between};
    ghost use Rattle.std.specs.Prelude.{◌≤◌, ◌^◌, List, length};

    ghost Value = { List Note };

    ghost coded = { notes_code };

    ghost view = { λ v. between v.from v.up_to v.notes.now };

    ghost invariant = { λ v. (v.from ≤ v.up_to) × (v.up_to ≤ length v.notes.now) × (length v.notes.now ≤ 2 ^ 62) };
}

impl<'a> VoiceNotes<'a> {
    /// The notes of the voice of a channel.
    pub fn of(notes: &'a Notes, channel: u8) -> VoiceNotes<'a>
        requires { AreInOrder place_of_note notes.now }
        ensures { result ≡ filter (λ n. n.channel == channel) notes.entry.now }
    {
        let _few = notes.len();
        let from = notes.count_before(u16::from(channel), 0, 0);
        let up_to = notes.count_before(u16::from(channel) + 1, 0, 0);
        VoiceNotes { notes, from, up_to }
    }

    /// How many there are.
    pub fn len(&self) -> usize
        ensures value { result ≡ length self.now }
        ensures few { result ≤ 2 ^ 62 }
    {
        self.up_to - self.from
    }

    /// The note of that number.
    pub fn get(&self, number: usize) -> Option<Note>
        ensures { result ≡ slice_get self.now number }
    {
        if number < self.len() {
            self.notes.get(self.from + number)
        } else {
            None
        }
    }

    /// The notes from one number up to another.
    pub fn part(&self, alloc: Global, from: usize, up_to: usize) -> Result<Vec<Note>, AllocError>
        requires from { from ≤ up_to }
        requires up_to { up_to ≤ length self.now }
        ensures { IfOk result (λ v. v.items ≡ between from up_to self.now) }
    {
        self.notes.range(alloc, self.from + from, self.from + up_to)
    }

    /// How many of them begin before a tick.
    pub fn count_before(&self, tick: u64) -> usize
        requires { AreNotesOfVoice self.now }
        ensures within { result ≤ length self.now }
        ensures front { AllWithin (λ n. n.onset < tick) self.now 0 result }
        ensures back { AllWithin (λ n. tick ≤ n.onset) self.now result (length self.now) }
    {
        let mut low = 0;
        let mut high = self.len();
        'halves: while low < high {
            let middle = low + (high - low) / 2;
            if self.onset(middle) < tick {
                low = middle + 1;
            } else {
                high = middle;
            }
        }
        low
    }

    /// Where a note begins that is there.
    pub fn onset(&self, number: usize) -> u64
        requires { number < length self.now }
        ensures { (d : Note) → result ≡ (get_or self.now number d).onset }
    {
        match self.get(number) {
            None => 0,
            Some(note) => note.onset,
        }
    }
}

/// The notes of the voice of a channel, copied.
pub fn notes_of_voice(alloc: Global, notes: &Notes, channel: u8) -> Result<Vec<Note>, AllocError>
    requires { AreInOrder place_of_note notes.now }
    ensures { IfOk result (λ v. v.items ≡ filter (λ n. n.channel == channel) notes.now) }
{
    let voice = VoiceNotes::of(notes, channel);
    voice.part(alloc, 0, voice.len())
}
