/// The rule that ends a leaf: the first of those with the least weight.
#[derive(Clone, Copy)]
pub struct LeafRule {
    pub rule: u16,
    pub weight: u32,
}
