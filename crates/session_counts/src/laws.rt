ghost use Rattle.session_counts.specs.Laws.{RuleListsAreOne};

/// A performance and a grammar have one list of the rule lists of its least derivations.
pub fn rule_lists_are_one()
    ensures { RuleListsAreOne }
{}
