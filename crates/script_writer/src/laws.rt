ghost use Rattle.script_writer.specs.Laws.{EditsAreReadBack, TextsAreOfOneList};

/// The lines of the text of edits in the ranges of a script say these edits, one each and in their order.
pub fn edits_are_read_back()
    ensures { EditsAreReadBack }
{}

/// So a text is that of one list of such edits.
pub fn texts_are_of_one_list()
    ensures { TextsAreOfOneList }
{}
