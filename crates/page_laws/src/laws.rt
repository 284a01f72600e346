ghost use Rattle.page_laws.specs.Laws.{BarsAreFull, PagesAreReadBack, PagesSayTheEvents};

/// The page of a score is read as the spans of its voices.
pub fn pages_are_read_back()
    ensures { PagesAreReadBack }
{}

/// The page of a score says its events.
pub fn pages_say_the_events()
    ensures { PagesSayTheEvents }
{}

/// Each bar that is read is as long as its signature says.
pub fn bars_are_full()
    ensures { BarsAreFull }
{}
