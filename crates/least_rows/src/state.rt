use bar_view::Leaf;

/// Where the entries of a row stand.
#[derive(Clone, Copy)]
pub struct RowSpan {
    pub first: u32,
    /// How many there are, 0 to 5.
    pub count: u8,
}

/// What is known of a seat from a unit on.
#[derive(Clone, Copy)]
pub struct State {
    pub seat: u32,
    pub place: u16,
    /// The leaf over the interval, none where more than four chords are attached to it or to the next.
    pub leaf: Option<Leaf>,
    /// By the number of chords carried in: the row, where it was found.
    pub rows: [Option<RowSpan>; 5],
}
