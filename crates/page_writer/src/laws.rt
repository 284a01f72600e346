ghost use Rattle.page_writer.specs.Laws.{PagesAreOne, PagesExist};

/// A score that can be written has at most one page.
pub fn pages_are_one()
    ensures { PagesAreOne }
{}

/// It has one.
pub fn pages_exist()
    ensures { PagesExist }
{}
