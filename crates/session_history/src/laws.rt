ghost use Rattle.session_history.specs.Laws.{
  ChangesAreOne,
  ChangesKeepHistories,
  RedoTakesAnUndoBack,
  StudioLinesSayOneCommand,
  TheLastStepIsKept,
  UndoTakesAnEditBack,
};

/// By a readable grammar there is one history after an edit to a performance, an undo or a redo.
pub fn changes_are_one()
    ensures { ChangesAreOne }
{}

/// Edits, undo and redo leave a history whose performances are well formed and whose past is one of steps to the present.
pub fn changes_keep_histories()
    ensures { ChangesKeepHistories }
{}

/// An undo after an edit brings back the performance before the edit, and the past, but for first steps that the edit cut off.
pub fn undo_takes_an_edit_back()
    ensures { UndoTakesAnEditBack }
{}

/// A redo after an undo brings back the whole history.
pub fn redo_takes_an_undo_back()
    ensures { RedoTakesAnUndoBack }
{}

/// The last edit of a performance within the limit of cells can be taken back.
pub fn the_last_step_is_kept()
    ensures { TheLastStepIsKept }
{}

/// A line of a studio says one command at most.
pub fn studio_lines_say_one_command()
    ensures { StudioLinesSayOneCommand }
{}
