use rhythm_base::What;

/// What an event says to a reader of notes and time.
#[derive(Clone, Copy, Debug, PartialEq, Eq)]
pub(crate) enum Meaning {
    /// An event that stands in the list of the track.
    Event(What),
    /// An event that only counts for the time.
    Skipped,
    /// The end of the track.
    EndOfTrack,
}
