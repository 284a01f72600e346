use crate::way::Way;
use rhythm_base::Carry;

/// One way over the first parts of a cut, up to a part, from which it is followed or parts into several.
#[derive(Clone, Copy)]
pub struct Fork {
    /// The way up to the part before, and the number of chords carried out of it.
    pub way: Way,
    pub count: Carry,
    /// The part that comes next, among the plan's, and the unit at which it begins.
    pub part: u32,
    pub at: u16,
}

/// A part of a cut, among the plan's, and the unit at which it begins.
#[derive(Clone, Copy)]
pub struct PartAt {
    pub part: u32,
    pub at: u16,
}
