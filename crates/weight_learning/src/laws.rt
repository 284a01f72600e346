ghost use Rattle.weight_learning.specs.Laws.{LearnedWeightsAreFew, LoneRulesWeighNothing, MoreUsedIsNoHeavier, OnlyWeightsAreLearned, StepsAreGreatest, ThresholdsAreLeast, UnusedSymbolsKeepTheirWeights, WeightsDecideNoDerivation};

/// The logarithm of a number, in 64ths of a bit, is the greatest k with 2 ^ k <= n ^ 64.
pub fn steps_are_greatest()
    ensures { StepsAreGreatest }
{}

/// Each number of the table of thresholds is the least t with t ^ 64 >= 2 ^ (64 * 31 + j).
pub fn thresholds_are_least()
    ensures { ThresholdsAreLeast }
{}

/// A grammar with learned weights is the same but for its weights, and can be read where it could before.
pub fn only_weights_are_learned()
    ensures { OnlyWeightsAreLearned }
{}

/// The weights of a symbol of which a rule is used are at most 400,000.
pub fn learned_weights_are_few()
    ensures { LearnedWeightsAreFew }
{}

/// Of two rules of a symbol the one that is used no less and was no heavier is no heavier afterwards.
pub fn more_used_is_no_heavier()
    ensures { MoreUsedIsNoHeavier }
{}

/// A rule that is used and alone in its symbol weighs nothing.
pub fn lone_rules_weigh_nothing()
    ensures { LoneRulesWeighNothing }
{}

/// A symbol of which no rule is used keeps its weights.
pub fn unused_symbols_keep_their_weights()
    ensures { UnusedSymbolsKeepTheirWeights }
{}

/// Grammars that are the same but for their weights have the same derivations, and can be opened on the same performances.
pub fn weights_decide_no_derivation()
    ensures { WeightsDecideNoDerivation }
{}
