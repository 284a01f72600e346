ghost use Rattle.xml_laws.specs.Laws.{BarsAreFull, MeasuresAreFull, TextsAreReadBack, TextsSayTheEvents, ValuesSayTheirDurations};

/// The MusicXML text of a score is read as the spans of its voices.
pub fn texts_are_read_back()
    ensures { TextsAreReadBack }
{}

/// The MusicXML text of a score says its events.
pub fn texts_say_the_events()
    ensures { TextsSayTheEvents }
{}

/// The durations of each measure are together as long as its bar.
pub fn bars_are_full()
    ensures { BarsAreFull }
{}

/// Each measure that is read is as long as its signature says.
pub fn measures_are_full()
    ensures { MeasuresAreFull }
{}

/// A note that is read is as long as its type, its dots and its ratio say.
pub fn values_say_their_durations()
    ensures { ValuesSayTheirDurations }
{}
