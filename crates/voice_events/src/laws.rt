ghost use Rattle.voice_events.specs.Laws.{
  PartsAreCounted,
  ScoreEventsAreOne,
  ScoreEventsAreVoiceEvents,
  ScoreEventsExist,
  SignaturesDecideEvents,
};

/// A number of whole notes in lowest terms is counted in parts in one way.
pub fn parts_are_counted()
    ensures { PartsAreCounted }
{}

/// The events of a score are its spans over any bars of its signatures, wherever these start.
pub fn signatures_decide_events()
    ensures { SignaturesDecideEvents }
{}

/// A score has at most one list of events.
pub fn score_events_are_one()
    ensures { ScoreEventsAreOne }
{}

/// Each score has a list of events.
pub fn score_events_exist()
    ensures { ScoreEventsExist }
{}

/// The events of a score that can be written follow one another in each voice.
pub fn score_events_are_voice_events()
    ensures { ScoreEventsAreVoiceEvents }
{}
