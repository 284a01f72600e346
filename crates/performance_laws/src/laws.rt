ghost use Rattle.performance_laws.specs.Laws.{
  AnswersAreOne,
  PerformancesAreVoices,
  VoicesHaveOneAnswer,
};

/// The merged events and the bars at loading, and the chords of a voice, are one each.
pub fn answers_are_one()
    ensures { AnswersAreOne }
{}

/// A voice of a well-formed performance is one that the other laws are about.
pub fn performances_are_voices()
    ensures { PerformancesAreVoices }
{}

/// The least derivations and the costs of voices, the cost of a performance and its dead voice are one each.
pub fn voices_have_one_answer()
    ensures { VoicesHaveOneAnswer }
{}
