/// The least tree over a quiet interval for one number of chords carried in. None are carried out.
#[derive(Clone, Copy)]
pub struct QuietTree {
    pub cost: u64,
    /// The rule on top.
    pub rule: u16,
    /// That rule as one of the plan's cuts; none where it ends a leaf.
    pub cut: Option<u32>,
}
