ghost use Rattle.note_list.specs.Pairing.{NotesAreOne};

/// The events and the last tick of a file decide its notes.
pub fn notes_are_one()
    ensures { NotesAreOne }
{}
