use crate::keys::Keys;

/// The notes of a voice that begin together. In a voice the onsets of chords rise strictly.
#[derive(Clone, Copy, Debug, PartialEq, Eq)]
pub struct Chord {
    /// The tick at which its first note begins.
    pub onset: u64,
    /// The tick at which its last note ends.
    pub end: u64,
    /// The keys of its notes.
    pub keys: Keys,
}
