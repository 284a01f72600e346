ghost use Rattle.hand_borders.specs.Laws.{LeastBordersAreLeast, LeastBordersAreOne};

/// The borders that are found are of least cost, and of those that cost as much the first.
pub fn least_borders_are_least()
    ensures { LeastBordersAreLeast }
{}

/// No other borders are.
pub fn least_borders_are_one()
    ensures { LeastBordersAreOne }
{}
