use rhythm_base::{KeyMark, Note, Signature, Tempo};
use std::marker::Model;

/// What was played, before bars are laid: what a MIDI file says of notes, tempos, keys and signatures.
#[derive(Drop)]
pub struct Take {
    /// Ticks of a quarter note, 1 to 32,767.
    pub division: u16,
    /// The notes, by channel, onset and key.
    pub notes: Vec<Note>,
    /// The changes of tempo, by tick.
    pub tempos: Vec<Tempo>,
    /// The changes of key, by tick.
    pub key_marks: Vec<KeyMark>,
    /// The changes of signature, by tick. Some may be out of range.
    pub signatures: Vec<Signature>,
}

impl Model for Take {
    ghost use Rattle.performance_load.specs.Take.{Take, take_code};

    ghost Value = { Take };

    ghost coded = { take_code };

    ghost view = { λ t. record {
      division = t.division;
      notes = t.notes.items;
      tempos = t.tempos.items;
      key_marks = t.key_marks.items;
      signatures = t.signatures.items;
    } };
}
