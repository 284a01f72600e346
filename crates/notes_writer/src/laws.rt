ghost use Rattle.notes_writer.specs.Laws.{NotesTextsAreOne, TextsTellPerformances};

/// A performance has one text.
pub fn texts_are_one()
    ensures { NotesTextsAreOne }
{}

/// Performances of one text have the same bars, tempos, keys, notes and last barline; the same voices where each voice has a note,
/// and the same division where the bars are as long as their signatures say, as they are laid at loading. Their pins may differ.
pub fn texts_tell_performances()
    ensures { TextsTellPerformances }
{}
