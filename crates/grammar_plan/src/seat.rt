/// A width and a symbol that occur together below a root.
#[derive(Clone, Copy)]
pub struct Seat {
    /// In units.
    pub width: u16,
    /// The number of a name.
    pub symbol: u8,
    /// The rules that cut it among the plan's cuts, by rising rule: from the first on, and before the end.
    pub first: u32,
    pub end: u32,
    /// Where its intervals begin in a table of the intervals of all seats.
    pub base: u32,
    /// What a place is multiplied with, and then divided by 65,536, for its number among those of the seat in that table.
    pub inverse: u32,
}
