ghost use Rattle.rhythm_app.specs.Laws.{FittedScoresAreOne, OutcomesAreOne};

/// Words and files come to one text, or to one stop.
pub fn outcomes_are_one()
    ensures { OutcomesAreOne }
{}

/// There is one score with the barline at the fitted tick, and it is that of the same edit in a script.
pub fn fitted_scores_are_one()
    ensures { FittedScoresAreOne }
{}
