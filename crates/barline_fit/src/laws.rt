ghost use Rattle.barline_fit.specs.Laws.{
  CandidatesAreSteps,
  FittedBarlineIsMade,
  FittedTicksAreOne,
  ReachedSumsAreOne,
};

/// A tick is a candidate exactly where whole steps lead to it, and it is not too late.
pub fn candidates_are_steps()
    ensures { CandidatesAreSteps }
{}

/// Of the same ticks one is fitted, at one cost, or there is one fault, and not both, but for want of memory.
pub fn fitted_ticks_are_one()
    ensures { FittedTicksAreOne }
{}

/// The ticks that are tried reach one number of cells.
pub fn reached_sums_are_one()
    ensures { ReachedSumsAreOne }
{}

/// The edit that sets the barline to the fitted tick is made, and costs what was told.
pub fn a_fitted_barline_is_made()
    ensures { FittedBarlineIsMade }
{}
