ghost use Rattle.barline_follow.specs.Laws.{
  BarlinesAreOne,
  AnswersGain,
  BestsAreOne,
  EditsLeadToOne,
  FewAreReached,
  FoundAreOne,
  FrontsAreOne,
  HeadCostsAreOne,
  MostBuiltAreOne,
  OffersAreFew,
  OffersAreOne,
  ScriptsAreInRange,
  ScriptsSetBarlines,
};

/// A bar has one list of offers.
pub fn offers_are_one()
    ensures { OffersAreOne }
{}

/// A bar has at most 14 offers, and the first one 25.
pub fn offers_are_few()
    ensures { OffersAreFew }
{}

/// Those that go on have one next front.
pub fn fronts_are_one()
    ensures { FrontsAreOne }
{}

/// Barlines have one head cost.
pub fn head_costs_are_one()
    ensures { HeadCostsAreOne }
{}

/// A list comes to one thing: it is lost, or goes on, or is whole at one cost.
pub fn found_are_one()
    ensures { FoundAreOne }
{}

/// A performance has one best list, or none.
pub fn bests_are_one()
    ensures { BestsAreOne }
{}

/// A performance has one answer.
pub fn answers_are_one()
    ensures { BarlinesAreOne }
{}

/// An answer on a performance without pins is nothing, or gains three tenths, prices and all.
pub fn answers_gain()
    ensures { AnswersGain }
{}

/// Edits that are accepted in turn lead to one performance.
pub fn edits_lead_to_one()
    ensures { EditsLeadToOne }
{}

/// The lines of a script are in range, where its barlines are.
pub fn scripts_are_in_range()
    ensures { ScriptsAreInRange }
{}

/// An accepted script sets the barlines that it leads to, and changes nothing else.
pub fn scripts_set_barlines()
    ensures { ScriptsSetBarlines }
{}

/// Edits reach one number of cells in turn, and one number of tables is the most that are built.
pub fn most_built_are_one()
    ensures { MostBuiltAreOne }
{}

/// Edits of bars reach in turn at most two cells of each voice for each of them.
pub fn few_are_reached()
    ensures { FewAreReached }
{}
