ghost use Rattle.edit_session.specs.Laws.{OpeningsAreOne};

/// A performance can be opened or has one fault, and not both, but for want of memory.
pub fn openings_are_one()
    ensures { OpeningsAreOne }
{}
