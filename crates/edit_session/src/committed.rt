use crate::prepared::Prepared;

/// What an edit that was made has cost: how many cells it reached, each of which was built, and the least cost afterwards, summed
/// over all voices.
#[derive(Clone, Copy, Debug, PartialEq, Eq)]
pub struct Applied {
    pub built: u64,
    pub cost: u64,
}

/// A change that was made, and the way back.
#[derive(Drop)]
pub struct Committed {
    pub applied: Applied,
    pub back: Prepared,
}

/// No derivation fits this voice, the first such one; and its dead bar.
#[derive(Clone, Copy, Debug, PartialEq, Eq)]
pub struct Dead {
    pub channel: u8,
    pub bar: u32,
}
