ghost use Rattle.std.specs.Prelude.{◌≡◌, ℕ, length};
ghost use Rattle.rhythm_base.specs.Bodies.{children, ending_of};
ghost use Rattle.rhythm_base.specs.Bodies as bodies;

use crate::kids::Kids;
use crate::portions::Portions;
use crate::sound::SoundKind;

/// What a rule makes of an interval: it cuts it into parts, or ends it as a leaf.
#[derive(Drop)]
pub enum Body {
    /// Equal parts, 2 to 16.
    Split(Kids),
    /// Unequal parts, 2 to 16, in a grammar of version 2.
    Parts(Portions),
    /// A chord begins and sounds past the middle of the leaf.
    Note,
    /// A chord begins and ends before the middle of the leaf.
    Short,
    /// The chord before goes on.
    Tie,
    /// Silence.
    Rest,
    /// A chord begins, with so many grace chords before it: 1 to 3.
    Grace(u8),
}

/// How a rule ends an interval: what a leaf is.
#[derive(Clone, Copy, Debug, PartialEq, Eq)]
pub enum Ending {
    /// A chord begins and sounds past the middle of the leaf.
    Note,
    /// A chord begins and ends before the middle of the leaf.
    Short,
    /// The chord before goes on.
    Tie,
    /// Silence.
    Rest,
    /// A chord begins, with so many grace chords before it: 1 to 3.
    Grace(u8),
}

impl Ending {
    /// How a leaf sounds that ends so: with grace chords it is a beginning too.
    pub fn sound_kind(self) -> SoundKind
        ensures { result ≡ bodies.sound_kind self }
    {
        match self {
            Ending::Note | Ending::Grace(_) => SoundKind::Begin,
            Ending::Short => SoundKind::Short,
            Ending::Tie => SoundKind::Tie,
            Ending::Rest => SoundKind::Rest,
        }
    }
}

impl Body {
    /// How the body ends its interval, none where it cuts it.
    pub fn ending(&self) -> Option<Ending>
        ensures { result ≡ ending_of self.now }
    {
        match self {
            Body::Split(_) | Body::Parts(_) => None,
            Body::Note => Some(Ending::Note),
            Body::Short => Some(Ending::Short),
            Body::Tie => Some(Ending::Tie),
            Body::Rest => Some(Ending::Rest),
            Body::Grace(graces) => Some(Ending::Grace(*graces)),
        }
    }

    /// How many parts the body cuts its interval into, whatever the width: none where it ends it.
    pub fn part_count(&self) -> usize
        ensures { (w : ℕ) → result ≡ length (children self.now w) }
    {
        match self {
            Body::Split(symbols) => symbols.as_slice().len(),
            Body::Parts(portions) => portions.as_slice().len(),
            Body::Note | Body::Short | Body::Tie | Body::Rest | Body::Grace(_) => 0,
        }
    }
}

/// A rule of a grammar. Rules are numbered from 0 in the order of the file.
#[derive(Drop)]
pub struct Rule {
    /// The symbol that the rule belongs to: the number of a name.
    pub lhs: u8,
    /// What the rule adds to the cost of a derivation, 0 to 1,000,000.
    pub weight: u32,
    /// What the rule makes of the interval.
    pub body: Body,
}
