use edit_script::Command;

/// What a line of a studio asks for.
#[derive(Drop)]
pub enum StudioCommand {
    /// What a line of an edit script asks for too.
    Plain(Command),
    /// Takes the last edit back.
    Undo,
    /// Makes the next edit again that was taken back.
    Redo,
}
