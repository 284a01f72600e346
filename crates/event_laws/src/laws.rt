ghost use Rattle.event_laws.specs.Laws.{ScoreTextsHaveTheirEvents, TextsHaveTheirEvents, TextsHaveVoiceEvents};

/// The events that are read of the text of a score are those of the score itself.
pub fn score_texts_have_their_events()
    ensures { ScoreTextsHaveTheirEvents }
{}

/// The events that are read of the text of a performance's score are those of the score itself.
pub fn texts_have_their_events()
    ensures { TextsHaveTheirEvents }
{}

/// There are some events of each such text, they follow one another in each voice, and a writer can take them.
pub fn texts_have_voice_events()
    ensures { TextsHaveVoiceEvents }
{}
