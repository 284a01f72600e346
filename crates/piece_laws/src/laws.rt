ghost use Rattle.piece_laws.specs.Laws.{PiecesAreLoaded, PiecesAreRead, PiecesAreWellFormed, PiecesHaveTheirBars, PiecesKeepTheirNotes};

/// The reader of MIDI files reads of a piece the events that it was made of.
pub fn pieces_are_read()
    ensures { PiecesAreRead }
{}

/// A piece is loaded, but for want of memory.
pub fn pieces_are_loaded()
    ensures { PiecesAreLoaded }
{}

/// A piece of so many bars has so many bars when it is loaded, of four quarter notes each.
pub fn pieces_have_their_bars()
    ensures { PiecesHaveTheirBars }
{}

/// A piece has the notes that it was made of when it is loaded, at least twice as many as bars.
pub fn pieces_keep_their_notes()
    ensures { PiecesKeepTheirNotes }
{}

/// The performance of a piece is well formed.
pub fn pieces_are_well_formed()
    ensures { PiecesAreWellFormed }
{}
