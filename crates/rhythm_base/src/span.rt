use crate::graces::Graces;
use crate::keys::Keys;

/// A number of whole notes, in lowest terms.
#[derive(Clone, Copy, Debug, PartialEq, Eq)]
pub struct Frac {
    pub num: u64,
    pub den: u64,
}

/// A sounding span of a score: a chord from its beginning to its notated end, over all its ties. Rests are the gaps.
#[derive(Drop)]
pub struct Span {
    /// Whole notes from the beginning of the score.
    pub start: Frac,
    /// Whole notes.
    pub len: Frac,
    /// The keys of the chord.
    pub keys: Keys,
    /// The grace chords before it.
    pub graces: Graces,
    /// Whether the chord is marked short.
    pub short: bool,
}
