/// The leaf over an interval.
#[derive(Clone, Copy)]
pub struct Leaf {
    /// What the onsets that lie in it cost.
    pub charges: u64,
    /// How many chords of the bar are attached to it, 0 to 4.
    pub own: u8,
    /// How many lie in it and are attached to the next leaf, 0 to 4.
    pub next: u8,
    /// The latest chord sounds in it.
    pub sounds: bool,
}
