ghost use Rattle.rule_counts.specs.Laws.{CountsAddUp, CountsAreOfAnyOrder, RuleCountsAreOne, RuleListsHaveRulesOfTheGrammar};

/// The counts of lists, raised by those of one more list, are the counts of all of them.
pub fn counts_add_up()
    ensures { CountsAddUp }
{}

/// Lists in another order have the same counts.
pub fn counts_are_of_any_order()
    ensures { CountsAreOfAnyOrder }
{}

/// The lists decide their counts; counts and a list decide what they are raised to.
pub fn rule_counts_are_one()
    ensures { RuleCountsAreOne }
{}

/// The rule list of a tree names rules of the grammar alone, so it can be counted.
pub fn rule_lists_have_rules_of_the_grammar()
    ensures { RuleListsHaveRulesOfTheGrammar }
{}
