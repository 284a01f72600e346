/// Four quarter notes from C to F, with 480 ticks to a quarter note.
pub const FOUR_QUARTERS: &[u8] = b"\
    MThd\0\0\0\x06\0\0\0\x01\x01\xe0\
    MTrk\0\0\0(\0\x90<@\x83`\x80<\0\0\x90>@\x83`\x80>\0\0\x90@@\x83`\x80@\0\0\x90A@\
    \x83`\x80A\0\0\xff/\0\
";

/// A whole note, with 480 ticks to a quarter note.
pub const WHOLE_NOTE: &[u8] = b"\
    MThd\0\0\0\x06\0\0\0\x01\x01\xe0\
    MTrk\0\0\0\x0d\0\x90<@\x8f\0\x80<\0\0\xff/\0\
";

/// Two notes: the second begins 20 ticks before the barline between them, with 480 ticks to a quarter note.
pub const EARLY_NOTE: &[u8] = b"\
    MThd\0\0\0\x06\0\0\0\x01\x01\xe0\
    MTrk\0\0\0\x16\0\x90<@\x8el\x80<\0\0\x90>@\x8f\x14\x80>\0\0\xff/\0\
";

/// A note of sixteen bars, with a tick to a quarter note.
pub const SIXTEEN_BARS: &[u8] = b"\
    MThd\0\0\0\x06\0\0\0\x01\0\x01\
    MTrk\0\0\0\x0c\0\x90<@@\x80<\0\0\xff/\0\
";

/// A note of 128 bars, with a tick to a quarter note.
pub const MANY_BARS: &[u8] = b"\
    MThd\0\0\0\x06\0\0\0\x01\0\x01\
    MTrk\0\0\0\x0d\0\x90<@\x84\0\x80<\0\0\xff/\0\
";

/// Eight voices, each of a note that begins a tick after that of the voice before it, and ends after two bars, with 480 ticks
/// to a quarter note.
pub const EIGHT_VOICES: &[u8] = b"\
    MThd\0\0\0\x06\0\0\0\x01\x01\xe0\
    MTrk\0\0\0E\
    \0\x90<@\x01\x91<@\x01\x92<@\x01\x93<@\x01\x94<@\x01\x95<@\x01\x96<@\x01\x97<@\
    \x9dy\x80<\0\0\x81<\0\0\x82<\0\0\x83<\0\0\x84<\0\0\x85<\0\0\x86<\0\0\x87<\0\
    \0\xff/\0\
";

/// A note of as many bars as there may be, with a tick to a quarter note.
pub const MOST_BARS: &[u8] = b"\
    MThd\0\0\0\x06\0\0\0\x01\0\x01\
    MTrk\0\0\0\x0e\0\x90<@\x81\x80\0\x80<\0\0\xff/\0\
";

/// The same with a tick more.
pub const TOO_MANY_BARS: &[u8] = b"\
    MThd\0\0\0\x06\0\0\0\x01\0\x01\
    MTrk\0\0\0\x0e\0\x90<@\x81\x80\x01\x80<\0\0\xff/\0\
";

/// Two voices in a key of two flats, with two tempos; in the first, running status goes on over a lyric, and notes end
/// by onsets of velocity 0. A program change is skipped.
pub const TWO_VOICES: &[u8] = b"\
    MThd\0\0\0\x06\0\x01\0\x03\x01\xe0\
    MTrk\0\0\0)\0\xff\x03\x04Demo\0\xffX\x04\x04\x02\x18\x08\0\xffY\x02\xfe\0\0\xffQ\
    \x03\x09'\xc0\x8f\0\xffQ\x03\x07\xa1 \0\xff/\0\
    MTrk\0\0\0&\x05\x90FP\x07JP\0\xff\x05\x02la\x83JF\0\0J\0\x0fHP\x8b\x07H\0\x0aFP\
    \x8ebF\0\0\xff/\0\
    MTrk\0\0\0\x10\0\xc1\0\0\x91.@\x9e\0\x81.@\0\xff/\0\
";

/// No bytes.
pub const NO_BYTES: &[u8] = b"";

/// The score of the two voices.
pub const TWO_VOICES_SCORE: &[u8] = b"\
    **kern\t**kern\n\
    *k[b-e-]\t*k[b-e-]\n\
    *M4/4\t*M4/4\n\
    *MM100\t*MM100\n\
    =1\t=1\n\
    4b- 4dd\t[1BB-\n\
    [4cc\t.\n\
    2cc]\t.\n\
    *MM120\t*MM120\n\
    =2\t=2\n\
    1b-\t1BB-]\n\
    ==\t==\n\
    *-\t*-\n\
";
