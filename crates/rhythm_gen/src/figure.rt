/// What a beat plays.
#[derive(Clone, Copy, Debug, PartialEq, Eq)]
pub(crate) enum Figure {
    /// Nothing.
    Rest,
    /// One note of 400 ticks.
    One,
    /// Two notes of 180 ticks, 240 ticks apart.
    Two,
}
