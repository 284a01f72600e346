/// How an interval sounds in which no chord begins.
#[derive(Clone, Copy, Debug, PartialEq, Eq)]
pub enum Quiet {
    /// The chord before it sounds throughout.
    Sounding,
    /// Nothing sounds in it.
    Silent,
}
