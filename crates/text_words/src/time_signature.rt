/// A time signature.
#[derive(Clone, Copy)]
pub struct TimeSignature {
    /// 1 to 64.
    pub num: u8,
    /// A power of two up to 64.
    pub den: u8,
}
