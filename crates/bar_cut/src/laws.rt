ghost use Rattle.bar_cut.specs.Cuts.{PerformancesCanBeCut};

/// Every voice of a well-formed performance can be cut.
pub fn performances_can_be_cut()
    ensures { PerformancesCanBeCut }
{}
