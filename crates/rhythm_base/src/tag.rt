/// Marks what a counter of steps counts. It has no calls.
pub trait Tag: Copy + Send + Sync {}
