ghost use Rattle.outcome_laws.specs.Laws.{AnsweringsExist, DrillingsExist, FittingsExist, FollowingsExist, LearningsExist, ListingsExist, LoadingsExist, NotingsExist, PlayingsExist, PlayingsWithoutOptions, RunsHaveOutcomes, ScriptFilesAreEdits, WritingsExist};

/// A MIDI file that was read loads to a performance, or has a fault.
pub fn loadings_exist()
    ensures { LoadingsExist }
{}

/// By options in range it is played, or has a fault.
pub fn playings_exist()
    ensures { PlayingsExist }
{}

/// Without options a file is played as it is loaded.
pub fn playings_without_options()
    ensures { PlayingsWithoutOptions }
{}

/// A well-formed performance is written in each form by a readable grammar, or there is a stop.
pub fn writings_exist()
    ensures { WritingsExist }
{}

/// A session that answers a script is opened on such a performance, or there is a stop.
pub fn answerings_exist()
    ensures { AnsweringsExist }
{}

/// A well-formed performance has the text of its bars, tempos, keys and notes.
pub fn notings_exist()
    ensures { NotingsExist }
{}

/// A score that was read of a **kern text has the text of its events.
pub fn listings_exist()
    ensures { ListingsExist }
{}

/// Of the candidates for a barline of such a performance one is fitted, or there is a stop.
pub fn fittings_exist()
    ensures { FittingsExist }
{}

/// The piece of a number is made, and its drill comes to a summary or to a stop.
pub fn drillings_exist()
    ensures { DrillingsExist }
{}

/// Barlines that follow the player are found on such a performance, with the script that leads to them, or there is a stop.
pub fn followings_exist()
    ensures { FollowingsExist }
{}

/// Weights are learned from the files, whatever their bytes, by a readable grammar, or there is a stop.
pub fn learnings_exist()
    ensures { LearningsExist }
{}

/// The edits of a script file are those of an edit script whose lines are all answered `ok`.
pub fn script_files_are_edits()
    ensures { ScriptFilesAreEdits }
{}

/// Every command line has an outcome, whatever its words and whatever the bytes of its files.
pub fn runs_have_outcomes()
    ensures { RunsHaveOutcomes }
{}
