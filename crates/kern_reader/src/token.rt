use durations::Value;
use rhythm_base::Keys;
use text_words::TimeSignature;

/// What stands after the pitch of a note and says how a tie goes on.
#[derive(Clone, Copy)]
pub(crate) enum TieMark {
    /// Nothing.
    Absent,
    /// An underscore: the tie goes on, and further.
    GoesOn,
    /// A closing bracket: the tie ends.
    Ends,
}

/// How a note that has a value is written.
#[derive(Clone, Copy)]
pub(crate) struct Writing {
    pub(crate) value: Value,
    /// An opening bracket stands before the value.
    pub(crate) opens: bool,
    pub(crate) tie: TieMark,
    /// An apostrophe stands at the end.
    pub(crate) short: bool,
}

/// How the notes of a chord are written.
#[derive(Clone, Copy)]
pub(crate) enum Style {
    /// As grace notes.
    Grace,
    /// With a value and marks.
    Valued(Writing),
}

/// One note of a chord.
#[derive(Clone, Copy)]
pub(crate) struct Note {
    pub(crate) style: Style,
    /// 0 to 127.
    pub(crate) key: u8,
}

/// What stands in a spine: a barline, or the token of a data line.
#[derive(Clone, Copy)]
pub(crate) enum Token {
    /// The barline before a bar of this signature.
    Bar(TimeSignature),
    /// A dot: the spine has nothing here.
    Null,
    Rest(Value),
    /// A chord of grace notes.
    Grace(Keys),
    /// A chord that has a value.
    Chord(Writing, Keys),
}
