pub use sample_grammars::{USUAL, WHOLE};

/// A bar of four quarters.
pub const QUARTERS: &[u8] = b"\
    rhythm 1\n\
    resolution 4\n\
    window 30000\n\
    onset 1\n\
    start 4/4 B\n\
    B 0 split H H\n\
    H 0 split Q Q\n\
    Q 0 note\n\
";

/// The same with rests in place of notes.
pub const QUARTERS_OF_RESTS: &[u8] = b"\
    rhythm 1\n\
    resolution 4\n\
    window 30000\n\
    onset 1\n\
    start 4/4 B\n\
    B 0 split H H\n\
    H 0 split Q Q\n\
    Q 0 rest\n\
";
