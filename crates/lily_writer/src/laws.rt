ghost use Rattle.lily_writer.specs.Laws.{PagesAreOne};

/// The events of a score have one LilyPond text.
pub fn pages_are_one()
    ensures { PagesAreOne }
{}
