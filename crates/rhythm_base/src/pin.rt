use crate::shape::Shape;

/// The shape that the tree of one bar of one voice must have.
#[derive(Drop)]
pub struct Pin {
    /// The voice, 0 to 15.
    pub channel: u8,
    /// The bar, numbered from 0.
    pub bar: u32,
    pub shape: Shape,
}
