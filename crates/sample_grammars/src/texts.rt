/// A bar down to eighths, with ties, rests, short notes and one grace chord.
pub const USUAL: &[u8] = b"\
    rhythm 1\n\
    resolution 8\n\
    window 30000\n\
    onset 1\n\
    start 4/4 B\n\
    B 10 note\n\
    B 10 tie\n\
    B 5 rest\n\
    B 20 split H H\n\
    H 10 note\n\
    H 10 tie\n\
    H 10 rest\n\
    H 20 split Q Q\n\
    Q 10 note\n\
    Q 15 short\n\
    Q 10 tie\n\
    Q 10 rest\n\
    Q 40 split E E\n\
    E 10 note\n\
    E 20 short\n\
    E 10 tie\n\
    E 10 rest\n\
    E 60 grace 1\n\
";

/// A bar of two halves.
pub const HALVES: &[u8] = b"\
    rhythm 1\n\
    resolution 2\n\
    window 0\n\
    onset 1\n\
    start 4/4 B\n\
    B 0 split H H\n\
    H 0 note\n\
    H 0 rest\n\
    H 0 tie\n\
    H 0 short\n\
";

/// A bar is one leaf.
pub const WHOLE: &[u8] = b"\
    rhythm 1\n\
    resolution 1\n\
    window 0\n\
    onset 1\n\
    start 4/4 B\n\
    B 0 note\n\
    B 0 rest\n\
    B 0 tie\n\
    B 0 short\n\
";
