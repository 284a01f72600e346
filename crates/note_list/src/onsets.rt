ghost use Rattle.note_list.specs.Pairing.{IsPlayable, onset_at};
ghost use Rattle.rhythm_base.specs.declared.event.What.TheVariants.{On};
ghost use Rattle.std.specs.Prelude.{◌≡◌, ◌≢◌, ◌+◌, ◌*◌, ◌↔◌, All, IfOk, IsTrue, None, Some, length, slice_set};

use crate::ends::place_of;
use rhythm_base::Note;
use std::alloc::{AllocError, Global};
use std::marker::Model;

/// For each channel and key the onset of the note that was put there last.
#[derive(Drop)]
pub struct Onsets {
    ticks: Vec<Option<u64>>,
}

impl Model for Onsets {
    ghost use Rattle.std.specs.Prelude.{◌≡◌, ℕ, List, Option, length};

    ghost Value = { List (Option ℕ) };

    ghost view = { λ o. o.ticks.items };

    ghost invariant = { λ o. length o.ticks.items ≡ 2048 };
}

impl Onsets {
    /// No note was put anywhere.
    pub fn new(alloc: Global) -> Result<Onsets, AllocError>
        ensures long { IfOk result (λ o. length o ≡ 2048) }
        ensures none { IfOk result (All (λ t. t ≡ None)) }
    {
        Ok(Onsets {
            ticks: vec![in alloc; None; 2048]?,
        })
    }

    /// Puts a note at its channel and key. It is new where none stands there, or one of another onset.
    pub fn insert(&mut self, note: Note) -> bool
        requires { IsPlayable (On note.channel note.key) }
        ensures new { IsTrue result ↔ (onset_at self.old note ≢ Some note.onset) }
        ensures onsets { self.new ≡ slice_set self.old (128 * note.channel + note.key) (Some note.onset) }
    {
        let place = place_of(note.channel, note.key);
        let before = self.ticks[place];
        self.ticks[place] = Some(note.onset);
        before != Some(note.onset)
    }
}
