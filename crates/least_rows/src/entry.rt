/// The least tree of a row for one number of chords carried out. The entries of a row stand in the order of their rule lists.
#[derive(Clone, Copy)]
pub struct Entry {
    pub cost: u64,
    /// The number of chords carried out, 0 to 4.
    pub to: u8,
    /// The rule on top.
    pub rule: u16,
    /// That rule as one of the plan's cuts; none where it ends a leaf.
    pub cut: Option<u32>,
    /// The numbers of chords carried into the parts of the cut, as digits to the base 8.
    pub way: u64,
}
