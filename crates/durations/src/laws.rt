ghost use Rattle.durations.specs.Laws.{BarsCountInTheGrid, DotsSumToTheLeaves, ValuesAreOne, ValuesCountInTheGrid, ValuesExist, ValuesSumToTheLength, WrittenAreOne, WrittenCountInTheGrid, WrittenExist, WrittenFillTheBar};

/// The values of a length sum to it.
pub fn values_sum_to_the_length()
    ensures { ValuesSumToTheLength }
{}

/// A length has at most one list of values.
pub fn values_are_one()
    ensures { ValuesAreOne }
{}

/// Each length has a list of values.
pub fn values_exist()
    ensures { ValuesExist }
{}

/// A value with dots is as long as the leaves that are joined in it.
pub fn dots_sum_to_the_leaves()
    ensures { DotsSumToTheLeaves }
{}

/// The leaves of a bar have at most one list of written values.
pub fn written_are_one()
    ensures { WrittenAreOne }
{}

/// The leaves of each bar have a list of written values.
pub fn written_exist()
    ensures { WrittenExist }
{}

/// The written values of a bar fill it, and none goes over the barline.
pub fn written_fill_the_bar()
    ensures { WrittenFillTheBar }
{}

/// What counts in the parts of a bar counts in 64 parts of a whole note for each unit of the resolution.
pub fn bars_count_in_the_grid()
    ensures { BarsCountInTheGrid }
{}

/// Every value of a length counts in 64 parts of a whole note for each unit of the resolution.
pub fn values_count_in_the_grid()
    ensures { ValuesCountInTheGrid }
{}

/// Every written value of a bar does.
pub fn written_count_in_the_grid()
    ensures { WrittenCountInTheGrid }
{}
