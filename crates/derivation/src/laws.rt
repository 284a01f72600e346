ghost use Rattle.derivation.specs.Laws.{
  ChordsHaveKeys,
  DerivationsAreWellSounded,
  PinsDoNotSound,
  ScoresAreOne,
  SpansAreOne,
  SpansExist,
  WellSoundedFillTheScore,
};

/// The sounds of a derivation that fits fill their bars, and each has the keys that its kind asks for; a tie goes on
/// from the sound right before it.
pub fn derivations_are_well_sounded()
    ensures { DerivationsAreWellSounded }
{}

/// Every chord of a voice of a well-formed performance has some keys of 0 to 127.
pub fn chords_have_keys()
    ensures { ChordsHaveKeys }
{}

/// What fits and what sounds in a voice is the same without its pins.
pub fn pins_do_not_sound()
    ensures { PinsDoNotSound }
{}

/// The sounds of a voice have at most one list of spans.
pub fn spans_are_one()
    ensures { SpansAreOne }
{}

/// The sounds of each voice have a list of spans.
pub fn spans_exist()
    ensures { SpansExist }
{}

/// Well-sounded sounds are together as long as all bars.
pub fn well_sounded_fill_the_score()
    ensures { WellSoundedFillTheScore }
{}

/// A performance and a grammar have one score, and it can be written.
pub fn scores_are_one()
    ensures { ScoresAreOne }
{}
