/// A chord as the leaves of a voice ask of it: its onset and its end, in ticks. In a voice they count from the beginning; in the input of
/// a cell from the bar's start, and the end is cut to the bar.
#[derive(Clone, Copy, Debug, PartialEq, Eq)]
pub struct Inner {
    pub onset: u64,
    pub end: u64,
}
