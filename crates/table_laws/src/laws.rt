ghost use Rattle.table_laws.specs.Laws.{
  ChordsExist,
  CostsAreOne,
  DeadBarsExist,
  DerivationsExist,
  TablesExist,
  VoicesAreReady,
  VoicesHaveAnswers,
};

/// Each cell of a grammar from a file has a table.
pub fn tables_exist()
    ensures { TablesExist }
{}

/// The costs that are asked for of a cell are one.
pub fn costs_are_one()
    ensures { CostsAreOne }
{}

/// A voice has a least derivation, or no derivation of it fits.
pub fn derivations_exist()
    ensures { DerivationsExist }
{}

/// A voice of which no derivation fits has a dead bar.
pub fn dead_bars_exist()
    ensures { DeadBarsExist }
{}

/// The notes of a voice have chords.
pub fn chords_exist()
    ensures { ChordsExist }
{}

/// A voice of a well-formed performance is one that the laws of tables and derivations are about.
pub fn voices_are_ready()
    ensures { VoicesAreReady }
{}

/// Each voice of a performance has a least derivation or none, and the performance has a cost or a dead voice.
pub fn voices_have_answers()
    ensures { VoicesHaveAnswers }
{}
