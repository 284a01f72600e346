ghost use Rattle.lily_laws.specs.Laws.{TextsAreReadAsTheirEvents};

/// The LilyPond text of events is read as these events.
pub fn texts_are_read_as_their_events()
    ensures { TextsAreReadAsTheirEvents }
{}
