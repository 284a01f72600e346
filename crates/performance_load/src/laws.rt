ghost use Rattle.performance_load.specs.Loading.{LoadedPerformancesAreWellFormed, LoadingsAreOne};
ghost use Rattle.performance_load.specs.Laws.{
  LoadingsAreOfTakes,
  TakesAreFormed,
  TakesAreLoadedAsOne,
  TakesAreOne,
};

/// A file decides its performance, or why it has none.
pub fn loadings_are_one()
    ensures { LoadingsAreOne }
{}

/// The performance of a file is well formed. The ranges that the file is to be in are those that `read_smf` ensures of each file
/// that it reads.
pub fn loaded_performances_are_well_formed()
    ensures { LoadedPerformancesAreWellFormed }
{}

/// A file decides its take, or why it has none.
pub fn takes_are_one()
    ensures { TakesAreOne }
{}

/// The take of a file is well formed.
pub fn takes_are_formed()
    ensures { TakesAreFormed }
{}

/// A take decides its performance, or why it has none; and the performance of a well-formed take is well formed.
pub fn takes_are_loaded_as_one()
    ensures { TakesAreLoadedAsOne }
{}

/// The performance of a file is that of its take.
pub fn loadings_are_of_takes()
    ensures { LoadingsAreOfTakes }
{}
