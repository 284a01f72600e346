ghost use Rattle.bar_alternatives.specs.Laws.{
  BestTreesAreAlternatives,
  BestTreesAreOne,
  TotalsAreLeast,
};

/// The total of a tree between the least costs of the cells round its bar is the least cost of a derivation of the voice that
/// has the tree there, the pin of that bar lifted and the others kept.
pub fn totals_are_least()
    ensures { TotalsAreLeast }
{}

/// Between the least costs of the cells round a bar, as a chain of the voice's tables tells them, the best trees of the bar are
/// its alternatives.
pub fn best_trees_are_alternatives()
    ensures { BestTreesAreAlternatives }
{}

/// The best trees of a bar between given costs are one list.
pub fn best_trees_are_one()
    ensures { BestTreesAreOne }
{}
