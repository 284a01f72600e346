/// For each number of chords that leave the last bar, 0 to 4, the least cost of trees of the bars up to there; none where no trees fit.
#[derive(Clone, Copy, Debug, PartialEq, Eq)]
pub struct Heads {
    pub costs: [Option<u64>; 5],
}
