ghost use Rattle.notation_laws.specs.Laws.{BarsAreHeardInFull, GroupsAreOfTheColumn, NotesCanBeWritten, SpansAreTheEvents, VoicesAreHeard};

/// What is heard of the notes of a voice are the spans of its sounds.
pub fn voices_are_heard()
    ensures { VoicesAreHeard }
{}

/// Each bar of a voice is heard from its barline to the next.
pub fn bars_are_heard_in_full()
    ensures { BarsAreHeardInFull }
{}

/// The groups of a voice are made of the values of its **kern column.
pub fn groups_are_of_the_column()
    ensures { GroupsAreOfTheColumn }
{}

/// Each note of a voice is a value that can be written, under its bracket, and each of its chords has keys.
pub fn notes_can_be_written()
    ensures { NotesCanBeWritten }
{}

/// The spans of the voices of a score are its events.
pub fn spans_are_the_events()
    ensures { SpansAreTheEvents }
{}
