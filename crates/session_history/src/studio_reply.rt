use edit_script::Reply;

/// What a line of a studio is answered.
#[derive(Debug, Drop)]
pub enum StudioReply {
    /// What a line of an edit script may be answered too.
    Plain(Reply),
    /// There is no step that way.
    NoStep,
}
