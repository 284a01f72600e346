ghost use Rattle.answer_laws.specs.Laws.{
  AlternativesExist,
  DesksBeginOpen,
  DesksHaveAnswers,
  FollowingsAreDone,
  LinesHaveAnswers,
  OpeningsExist,
  OutcomesExist,
  OutputsExist,
  ReachedCellsExist,
  ScoresExist,
  ScriptsHaveEnds,
};

/// The cells that a change of a performance reaches are some list.
pub fn reached_cells_exist()
    ensures { ReachedCellsExist }
{}

/// Where each voice of a well-formed performance has a derivation there is a score, and its text or the first record past the
/// longest.
pub fn scores_exist()
    ensures { ScoresExist }
{}

/// A bar of a voice has as many best trees as are asked for, or all of its trees.
pub fn alternatives_exist()
    ensures { AlternativesExist }
{}

/// A session can be opened on a well-formed performance, or there is a fault that is no want of memory.
pub fn openings_exist()
    ensures { OpeningsExist }
{}

/// An edit of a performance that can be edited has an outcome, and leaves one that can be edited.
pub fn outcomes_exist()
    ensures { OutcomesExist }
{}

/// A line, whatever its bytes, has an answer of a performance that can be edited which is no want of memory, and leaves one that
/// can be edited.
pub fn lines_have_answers()
    ensures { LinesHaveAnswers }
{}

/// A desk is open where nothing was edited yet of a performance on which a session can be opened.
pub fn desks_begin_open()
    ensures { DesksBeginOpen }
{}

/// A line has such an answer on an open desk, an editor or a studio, and leaves an open one.
pub fn desks_have_answers()
    ensures { DesksHaveAnswers }
{}

/// On an open desk the lines of a script have replies and an end, without want of memory.
pub fn scripts_have_ends()
    ensures { ScriptsHaveEnds }
{}

/// On an open desk a script has an end that its bytes decide, and what out takes up to there, without want of memory.
pub fn outputs_exist()
    ensures { OutputsExist }
{}

/// Each line of the script that follows the player is accepted in turn, by the performance that the script is of.
pub fn followings_are_done()
    ensures { FollowingsAreDone }
{}
