ghost use Rattle.kern_laws.specs.Laws.{
  EventsAreOne,
  EventsExist,
  GridsAreLeast,
  OnlyPitchesAreRead,
  OnlyValueTextsAreRead,
  PitchesReadBack,
  ScoresAreInRange,
  ScoresReadBack,
  TextsReadBack,
  ValuesReadBack,
};

/// A score that is read of a text is in its ranges.
pub fn scores_are_in_range()
    ensures { ScoresAreInRange }
{}

/// The grid of lines is the least common multiple of the parts in which their values count.
pub fn grids_are_least()
    ensures { GridsAreLeast }
{}

/// A score that was read has at most one list of events.
pub fn events_are_one()
    ensures { EventsAreOne }
{}

/// Each score that was read has a list of events.
pub fn events_exist()
    ensures { EventsExist }
{}

/// The pitch that is written of a key, with flats or with sharps, is read as this key.
pub fn pitches_read_back()
    ensures { PitchesReadBack }
{}

/// A text is read as a key only where it is a pitch that is written of this key.
pub fn only_pitches_are_read()
    ensures { OnlyPitchesAreRead }
{}

/// The text that is written of a value is read as this value.
pub fn values_read_back()
    ensures { ValuesReadBack }
{}

/// A text is read as a value only where it is the text that is written of this value.
pub fn only_value_texts_are_read()
    ensures { OnlyValueTextsAreRead }
{}

/// The text of every score that can be written has no line with a fault, and its events are the spans of the score's sounds.
pub fn scores_read_back()
    ensures { ScoresReadBack }
{}

/// The score of a performance and a grammar reads back to the spans of the least derivation of each voice.
pub fn texts_read_back()
    ensures { TextsReadBack }
{}
