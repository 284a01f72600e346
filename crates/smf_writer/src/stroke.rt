ghost use Rattle.smf_writer.specs.Strokes.{stroke_note, stroke_notes};
ghost use Rattle.std.specs.Prelude.{◌≡◌, ◌<◌, IfOk, bit_or};

use rhythm_base::{Keys, Note};
use score_words::RisingKeys;
use std::alloc::{AllocError, Global};

/// What is struck at one tick: keys that are held up to an end, and keys that sound for no time.
#[derive(Clone, Copy)]
pub(crate) struct Stroke {
    pub(crate) onset: u64,
    pub(crate) end: u64,
    pub(crate) held: Keys,
    pub(crate) passing: Keys,
}

impl Stroke {
    /// The keys that are struck.
    fn struck(&self) -> Keys
        ensures { result ≡ bit_or self.now.held self.now.passing }
    {
        self.held.join(self.passing)
    }

    /// The note of a key that is struck.
    fn note(&self, channel: u8, key: u8) -> Note
        requires { key < 128 }
        ensures { result ≡ stroke_note channel self.now key }
    {
        let end = if self.held.has(key) {
            self.end
        } else {
            self.onset
        };
        Note {
            channel,
            key,
            onset: self.onset,
            end,
        }
    }
}

/// The notes of a stroke, by key.
pub(crate) fn notes_of(alloc: Global, channel: u8, stroke: &Stroke) -> Result<Vec<Note>, AllocError>
    ensures { IfOk result (λ notes. notes.items ≡ stroke_notes channel stroke.now) }
{
    let mut notes = Vec::new(alloc);
    let mut left = RisingKeys::of(stroke.struck());
    'keys: while let Some(key) = left.next() {
        notes.push(stroke.note(channel, key))?;
    }
    Ok(notes)
}
