/// The least way through a bar, or through bars side by side, for one number of chords carried in and one carried out.
#[derive(Clone, Copy, Debug, PartialEq, Eq)]
pub struct Best {
    /// What it costs, below 2 to the power 62.
    pub cost: u64,
    /// The number of entries of the same row, those with the same number carried in, that have a lower rule list.
    pub rank: u8,
}
