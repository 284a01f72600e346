ghost use Rattle.voice_values.specs.Laws.{BarValuesAreOne, BarValuesExist};

/// The sounds of a bar have values.
pub fn bar_values_exist()
    ensures { BarValuesExist }
{}

/// The sounds of a bar have one list of values.
pub fn bar_values_are_one()
    ensures { BarValuesAreOne }
{}
