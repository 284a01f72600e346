ghost use Rattle.edit_laws.specs.Laws.{EditsKeepPerformances, ReachedCellsAreOne};

/// An edit that is not refused leaves a well-formed performance with the same voices, within the limits and with a root
/// symbol for each bar, where it was so before.
pub fn edits_keep_performances()
    ensures { EditsKeepPerformances }
{}

/// The cells that a change of a performance reaches are one list.
pub fn reached_cells_are_one()
    ensures { ReachedCellsAreOne }
{}
