use rhythm_base::Carry;

/// A cut of a seat from the unit `place` on, as the rule on top.
#[derive(Clone, Copy)]
pub struct Top {
    pub seat: u32,
    pub place: u16,
    /// The number of chords carried in.
    pub from: Carry,
    /// The cut among the plan's.
    pub number: u32,
}
