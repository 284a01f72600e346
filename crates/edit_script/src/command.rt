use rhythm_base::Edit;

/// What a line of an edit script asks for.
#[derive(Drop)]
pub enum Command {
    /// A change of the performance.
    Change(Edit),
    /// The score of the performance as it is.
    Score,
    /// The best trees of one bar of a voice, at most `count` of them, 1 to 16.
    Alternatives { channel: u8, bar: u32, count: u32 },
    /// The end of the script.
    Quit,
}
