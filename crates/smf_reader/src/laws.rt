ghost use Rattle.std.specs.Prelude.{All, ℕ, List, ◌<◌};
ghost use Rattle.smf_reader.specs.Played.{Smf};
ghost use Rattle.smf_reader.specs.Ranges.{IsPlayedFile};
ghost use Rattle.smf_reader.specs.Outcomes.{HasOneOutcome, IsReadToItsEnd, IsReadToItsLastTrack, SaysFile};

/// Each file says one thing or has one standing fault, and never both.
pub fn files_have_one_outcome()
    ensures { (bytes : List ℕ) → HasOneOutcome bytes }
{}

/// A track is read by its parts alone up to its end: the bound on the number of its events cuts none off.
pub fn tracks_are_read_to_their_ends()
    ensures { (bytes : List ℕ) → IsReadToItsEnd bytes }
{}

/// A file is read by its chunks alone up to the last of its tracks: the bound on the number of its chunks cuts none off.
pub fn files_are_read_to_their_last_tracks()
    ensures { (bytes : List ℕ) → IsReadToItsLastTrack bytes }
{}

/// What a file says is in the ranges of what files can say: its division, and the ticks, channels, keys, tempos and key
/// signatures of its tracks.
pub fn readings_are_in_range()
    ensures { (bytes : List ℕ) → All (λ b. b < 256) bytes → (played : Smf) → SaysFile bytes played → IsPlayedFile played }
{}
