//! Cubes of sets of differences, weights of differences, and the order of sets.
#![tactic(auto)]

mod cube;
mod laws;
mod order;
mod weights;

pub use cube::Cube;
pub use laws::{law_cubes, law_order};
pub use order::is_before;
pub use weights::{MOST_WEIGHT, Weights};
