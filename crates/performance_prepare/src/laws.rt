ghost use Rattle.performance_prepare.specs.Laws.{
  DrumsAreOut,
  NoOptionsChangeNothing,
  PreparedPerformancesAreOne,
  PreparedPerformancesAreWellFormed,
  SplitsKeepNotes,
  TemposKeepPlaces,
  TemposKeepTime,
  UpbeatsKeepDistances,
};
ghost use Rattle.performance_prepare.specs.HandLaws.{HandsAreLeast, HandsKeepNotes, HandsLeaveOneKey, HandsLieApart};
ghost use Rattle.performance_prepare.specs.StrumLaws.{
  StrumsChangeNothingAgain,
  StrumsHaveNoKeyTwice,
  StrumsKeepNotes,
  StrumsStayBetween,
};

/// Without options the performance of a file is as ever.
pub fn no_options_change_nothing()
    ensures { NoOptionsChangeNothing }
{}

/// Options and a file decide the performance.
pub fn prepared_performances_are_one()
    ensures { PreparedPerformancesAreOne }
{}

/// The performance of a file by options is well formed.
pub fn prepared_performances_are_well_formed()
    ensures { PreparedPerformancesAreWellFormed }
{}

/// No note of the channel of drums is left, and all others are.
pub fn drums_are_out()
    ensures { DrumsAreOut }
{}

/// But for their channels, the notes of a split are the same; those of a channel that is not split stay in it.
pub fn splits_keep_notes()
    ensures { SplitsKeepNotes }
{}

/// An upbeat moves all notes by the same, so that all lengths and the times between onsets stay.
pub fn upbeats_keep_distances()
    ensures { UpbeatsKeepDistances }
{}

/// A tempo makes ticks finer, and each note stays in its place among them.
pub fn tempos_keep_places()
    ensures { TemposKeepPlaces }
{}

/// In its tempo in proportion a tick lasts as long as before, but for half a microsecond a quarter.
pub fn tempos_keep_time()
    ensures { TemposKeepTime }
{}

/// Strums change no channel, key or end, and no order of onsets in a channel; no note gets as short as nothing, and none is lost.
pub fn strums_keep_notes()
    ensures { StrumsKeepNotes }
{}

/// A strum begins between its first onset and its last.
pub fn strums_stay_between()
    ensures { StrumsStayBetween }
{}

/// In the take of a file no strum would have a key twice without the test of it.
pub fn strums_have_no_key_twice()
    ensures { StrumsHaveNoKeyTwice }
{}

/// In the take of a file a second strum by the same milliseconds changes nothing.
pub fn strums_change_nothing_again()
    ensures { StrumsChangeNothingAgain }
{}

/// But for their channels, the notes of two hands are the same; those of other channels stay, and one channel at most is new.
pub fn hands_keep_notes()
    ensures { HandsKeepNotes }
{}

/// No list of borders costs less than that of the hands, and none that costs as much comes before it.
pub fn hands_are_least()
    ensures { HandsAreLeast }
{}

/// In a group each note of the left hand lies below each of the right.
pub fn hands_lie_apart()
    ensures { HandsLieApart }
{}

/// A channel whose notes have one key stays as it is.
pub fn hands_leave_one_key()
    ensures { HandsLeaveOneKey }
{}
