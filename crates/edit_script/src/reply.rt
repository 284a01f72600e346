use rhythm_base::EditFault;

/// Why a line was refused.
#[derive(Clone, Copy, Debug, PartialEq, Eq)]
pub enum Refusal {
    /// The edit that the line says.
    Edit(EditFault),
    /// The line says no command.
    Line,
    /// The score would be longer than its limit. `line` is the number, from 1, of its line that passes it.
    ScoreTooLong { line: u32 },
}

/// One of the best trees of a bar of a voice.
#[derive(Debug, Drop)]
pub struct Alt {
    /// The cost of the voice with this tree in the bar.
    pub total: u64,
    /// The text of the tree's shape.
    pub shape: String,
    /// The numbers of its rules, a parent before its children.
    pub rules: Vec<u16>,
}

/// What a line of an edit script is answered.
#[derive(Debug, Drop)]
pub enum Reply {
    /// The edit was made: how many cells it reached, and the cost of the performance after it.
    Done { built: u64, cost: u64 },
    /// Nothing was changed.
    Refused(Refusal),
    /// The score.
    Text(Vec<u8>),
    /// The best trees of the bar, the best first.
    List(Vec<Alt>),
    /// The script ends.
    Bye,
}
