ghost use Rattle.kern_writer.specs.Laws.{PerformanceTextsAreOne, TextsAreOne, TextsExist};

/// A score has at most one text, and where that is longer than the longest at most one record is the first to end past it.
pub fn texts_are_one()
    ensures { TextsAreOne }
{}

/// What is written of a performance by a readable grammar is one: its text, or the first record to end past the longest.
pub fn performance_texts_are_one()
    ensures { PerformanceTextsAreOne }
{}

/// Each score has a text, and where that is longer than the longest one record is the first to end past it.
pub fn texts_exist()
    ensures { TextsExist }
{}
