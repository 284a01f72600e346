use rhythm_base::Span;

/// A sounding span of a spine.
#[derive(Drop)]
pub struct KernEvent {
    /// The spine, from 1.
    pub spine: u8,
    pub span: Span,
}
