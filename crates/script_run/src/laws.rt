ghost use Rattle.script_run.specs.Laws.{DesksHaveOneAnswer, LinesHaveOneAnswer, ScriptsHaveOneOutput};

/// By a readable grammar a line of an edit script has one answer, but for want of memory, and a script one run.
pub fn lines_have_one_answer()
    ensures { LinesHaveOneAnswer }
{}

/// By a readable grammar a line has one answer on a desk whose performances are well formed, but for want of memory.
pub fn desks_have_one_answer()
    ensures { DesksHaveOneAnswer }
{}

/// But for want of memory, the bytes of a script decide how its answering ends, what out takes and the desk at its end,
/// where no read and no write fails; and where one does, out took a beginning of that.
pub fn scripts_have_one_output()
    ensures { ScriptsHaveOneOutput }
{}
