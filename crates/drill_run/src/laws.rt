ghost use Rattle.drill_run.specs.Laws.{DrillsAreOne, DrillsKeepBars};

/// A number, a grammar and a performance have one drill, and one summary of it.
pub fn drills_are_one()
    ensures { DrillsAreOne }
{}

/// The edits of a drill change no voice, no number of bars and no last barline.
pub fn drills_keep_bars()
    ensures { DrillsKeepBars }
{}
