use crate::written_lists::WrittenLists;
use rhythm_base::Best;

/// The costs of the least trees of a bar and the places of their rule lists in their rows.
#[derive(Clone, Copy)]
pub struct BarBests {
    /// By the number of chords carried in, and then by the number carried out.
    pub rows: [[Option<Best>; 5]; 5],
}

impl BarBests {
    /// No trees.
    pub fn none() -> BarBests {
        BarBests {
            rows: [[None; 5]; 5],
        }
    }
}

/// The least trees of a bar.
#[derive(Drop)]
pub struct BarTrees {
    pub bests: BarBests,
    /// Their rule lists; that of a tree that is not there is empty.
    pub lists: WrittenLists,
}
