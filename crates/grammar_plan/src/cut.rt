/// A rule that cuts, for one width.
#[derive(Clone, Copy)]
pub struct Cut {
    pub rule: u16,
    pub weight: u32,
    /// Its parts among the plan's: from the first on, and before the end.
    pub first: u32,
    pub end: u32,
}
