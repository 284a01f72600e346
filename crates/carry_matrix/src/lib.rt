//! Five by five ranked matrices: for each number of chords carried into bars side by side, and each number carried out, the
//! least cost, with the place of its rule list among those of its row. Their product joins bars: it takes the count in the
//! middle with the least sum, and at equal sums the lower rank on the left, so no rule list is ever compared. Each product
//! is one step of a counter that only this crate raises.
#![tactic(auto)]

mod choice;
mod laws;
mod matrix;
mod products;
mod row;
mod steps;

pub use laws::{identity_is_neutral, products_associate};
pub use matrix::CarryMatrix;
pub use products::{between, middle, product};
pub use rhythm_base::Best;
pub use steps::Steps;
