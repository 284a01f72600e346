ghost use Rattle.tree_laws.specs.Laws.{
  BarsAreLocal,
  CountsAreOne,
  DeadBarsAreByCounts,
  EqualCutsAreAsBefore,
  LeastForestsAreOfTheLeast,
  ListsAreNoPrefixes,
  OneBarIsAVoice,
  OneWeightIsAsBefore,
  OnsetsAreAttached,
  QuietIntervalsAreAlike,
  ShapesAreOne,
  TablesAreCheap,
  TreesHaveOneAnswer,
  TreesHaveShapes,
};

/// A derivation of a voice fits exactly where each bar fits with the counts at its barlines, and costs the sum of the bars.
/// So an edit touches only the bars whose inputs it changes.
pub fn bars_are_local()
    ensures { BarsAreLocal }
{}

/// Every onset of a voice lies in exactly one leaf, and attachment keeps the order of onsets.
pub fn onsets_are_attached()
    ensures { OnsetsAreAttached }
{}

/// A tree fits a cell with at most one pair of counts.
pub fn counts_are_one()
    ensures { CountsAreOne }
{}

/// Rule lists parse in one way, so that none is the beginning of another: the list alone decides the tree.
pub fn lists_are_no_prefixes()
    ensures { ListsAreNoPrefixes }
{}

/// The dead bar is found by counts alone.
pub fn dead_bars_are_by_counts()
    ensures { DeadBarsAreByCounts }
{}

/// A grammar of one onset weight means what it meant before grammars could have two.
pub fn one_weight_is_as_before()
    ensures { OneWeightIsAsBefore }
{}

/// A grammar of version 1 has the trees that it had before cuts could be unequal.
pub fn equal_cuts_are_as_before()
    ensures { EqualCutsAreAsBefore }
{}

/// The least trees side by side are made of the least trees, and ranks stand for rule lists.
pub fn least_forests_are_of_the_least()
    ensures { LeastForestsAreOfTheLeast }
{}

/// Where no chord begins, an interval of a bar is answered by its width alone, and by whether it sounds or is silent.
pub fn quiet_intervals_are_alike()
    ensures { QuietIntervalsAreAlike }
{}

/// A tree that fits its bar alone is a derivation of the voice of that one bar.
pub fn one_bar_is_a_voice()
    ensures { OneBarIsAVoice }
{}

/// The parts of a tree have one shape, and a pin of that shape alone is met by them.
pub fn shapes_are_one()
    ensures { ShapesAreOne }
{}

/// A tree of a readable grammar over its whole bar has a shape that an edit script can say: so each printed alternative can
/// be pinned.
pub fn trees_have_shapes()
    ensures { TreesHaveShapes }
{}

/// The costs in the table of a cell are small enough to be added up over a chain of bars.
pub fn tables_are_cheap()
    ensures { TablesAreCheap }
{}

/// The least derivation of a voice, the table of a cell and the alternatives of a bar are one each.
pub fn trees_have_one_answer()
    ensures { TreesHaveOneAnswer }
{}
