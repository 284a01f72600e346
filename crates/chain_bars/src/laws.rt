ghost use Rattle.chain_bars.specs.Laws.{
  DeadCellsAreDeadBars,
  KeysAreLeast,
  NoPathIsNoDerivation,
  PathsAreDerivations,
  PathsGiveDerivations,
};

/// The least path over the tables of a voice, with each bar's least tree, is the least derivation of the voice.
pub fn paths_are_derivations()
    ensures { PathsAreDerivations }
{}

/// Where there is a path, the voice has a least derivation, of the cost of the least path.
pub fn paths_give_derivations()
    ensures { PathsGiveDerivations }
{}

/// There is no path exactly where no derivation fits.
pub fn no_path_is_no_derivation()
    ensures { NoPathIsNoDerivation }
{}

/// The first cell over which no counts lead is the first bar at which the voice has no derivation.
pub fn dead_cells_are_dead_bars()
    ensures { DeadCellsAreDeadBars }
{}

/// The keys that a chain's clauses speak of are the least of all paths.
pub fn keys_are_least()
    ensures { KeysAreLeast }
{}
