/// The latest tick of a barline, and so of any note's onset or end.
pub const LATEST_TICK: u64 = 2_000_000_000;

/// The latest tick of an event of a MIDI file.
pub const LATEST_EVENT: u64 = 1_000_000_000;

/// The most ticks of a quarter note.
pub const MOST_DIVISION: u16 = 32_767;

/// The slowest tempo, in microseconds of a quarter note.
pub const SLOWEST_TEMPO: u32 = 16_777_215;

/// The most notes of a performance.
pub const MOST_NOTES: u32 = 65_536;

/// The most bars of a performance.
pub const MOST_BARS: u32 = 4_096;

/// The most cells of a performance: bars times voices.
pub const MOST_CELLS: u32 = 16_384;

/// The most units of a bar.
pub const MOST_UNITS: u16 = 960;

/// The most units of a bar in a grammar of version 2, whose cuts may be unequal.
pub const MOST_UNEQUAL_UNITS: u16 = 96;

/// The most names of symbols of a grammar.
pub const MOST_NAMES: usize = 64;

/// The most rules of a grammar.
pub const MOST_RULES: usize = 512;

/// The most parts of a cut.
pub const MOST_PARTS: usize = 16;

/// The most chords that are carried over a border.
pub const MOST_CARRIED: u8 = 4;

/// The most levels below the first level of a shape: 96 levels in all.
pub const MOST_LEVELS_BELOW: usize = 95;

/// The greatest window, in microseconds, within which notes are one chord.
pub const WIDEST_WINDOW: u32 = 1_000_000;

/// The greatest weight of a rule.
pub const HEAVIEST_RULE: u32 = 1_000_000;

/// The greatest weight of an onset's displacement.
pub const HEAVIEST_ONSET: u32 = 1_000;

/// The greatest displacement of an onset, in 960ths of a quarter note: a bar of 64 whole notes.
pub const FARTHEST_ONSET: u64 = 245_760;

/// The greatest sum of the displacements of as many chords as can be carried over a border.
pub const FARTHEST_CHORDS: u64 = 983_040;

/// More than the least tree of a cell can cost, so that the sums over a voice's bars do not overflow.
pub const DEAREST_CELL: u64 = 500_000_000_000;

/// The most voices of a performance: there is one for each channel at most.
pub const MOST_VOICES: usize = 16;

/// The most workers that build cells side by side.
pub const MOST_WORKERS: u32 = 16;

/// The most bytes of a MIDI file.
pub const LONGEST_MIDI: u64 = 16_777_216;

/// The most bytes of a grammar file.
pub const LONGEST_GRAMMAR: u64 = 1_048_576;

/// The most bytes of a **kern text, written or read.
pub const LONGEST_SCORE: u64 = 67_108_864;

/// The most bytes of an edit script.
pub const LONGEST_SCRIPT: u64 = 16_777_216;

/// The most bytes of a line of an edit script, without its newline.
pub const LONGEST_SCRIPT_LINE: u64 = 4_096;
