ghost use Rattle.rhythm_base.specs.Grammar.{Grammar};
ghost use Rattle.script_laws.specs.Laws.{LinesSayOneCommand};
ghost use Rattle.script_laws.specs.OneAnswers.{AnswersOfEditsAreOne};
ghost use Rattle.std.specs.Prelude.{◌≤◌};

/// A line of an edit script says one command at most.
pub fn lines_say_one_command()
    ensures { LinesSayOneCommand }
{}

/// By a grammar of a unit or more a well-formed performance has one dead voice and bar at most, and no derivation of that voice; and
/// one cost. A change of it reaches one list of cells, and a bar has one list of alternatives.
pub fn answers_of_edits_are_one()
    ensures { (g : Grammar) → 1 ≤ g.resolution → AnswersOfEditsAreOne g }
{}
