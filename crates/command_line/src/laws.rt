ghost use Rattle.command_line.specs.Laws.{NumbersAreAsInScripts, OptionsAreInRange, PlainWordsAreTaken};

/// Plain words are never refused by `clap`: the word after the option says the number of workers, and the other words
/// are the command's.
pub fn plain_words_are_taken()
    ensures { PlainWordsAreTaken }
{}

/// The numbers of a command line are written as those of an edit script: one to ten digits, with leading zeros or without.
pub fn numbers_are_as_in_scripts()
    ensures { NumbersAreAsInScripts }
{}

/// What the options tell of a take is in range.
pub fn options_are_in_range()
    ensures { OptionsAreInRange }
{}
