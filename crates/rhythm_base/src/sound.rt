use crate::graces::Graces;
use crate::keys::Keys;

/// How a leaf of a derivation sounds.
#[derive(Clone, Copy, Debug, PartialEq, Eq)]
pub enum SoundKind {
    /// A chord begins, after its grace chords where it has some.
    Begin,
    /// A chord begins and is marked short.
    Short,
    /// The chord before goes on.
    Tie,
    /// Silence.
    Rest,
}

/// A leaf of a derivation with what sounds in it.
#[derive(Drop)]
pub struct Sound {
    /// The bar, numbered from 0.
    pub bar: u32,
    /// The unit of the bar at which the leaf begins.
    pub place: u16,
    /// Its width in units.
    pub width: u16,
    pub kind: SoundKind,
    /// The keys of the chord that begins or goes on; none of a rest.
    pub keys: Keys,
    /// The grace chords before the chord that begins.
    pub graces: Graces,
}
