ghost use Rattle.voices.specs.Breaks.{BreaksAreOne};
ghost use Rattle.voices.specs.Voice.{ChordsRise, NoChordEndsBeforeItBegins};

/// The onsets of the chords of a voice rise strictly.
pub fn chords_rise()
    ensures { ChordsRise }
{}

/// Where no note ends before its onset, no chord does; and the chords end no later than the notes.
pub fn no_chord_ends_before_it_begins()
    ensures { NoChordEndsBeforeItBegins }
{}

/// Up to a place there is one last break at most, and from a place on one next break at most.
pub fn breaks_are_one()
    ensures { BreaksAreOne }
{}
