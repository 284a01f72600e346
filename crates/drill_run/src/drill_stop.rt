/// Why a drill has no summary.
#[derive(Clone, Copy, Debug, PartialEq, Eq)]
pub enum DrillStop {
    /// The score after the last edit would be longer than the longest: `line` is the number, from 1, of the first record that ends
    /// past that.
    ScoreTooLong { line: u32 },
    /// There was not enough memory.
    Memory,
}
