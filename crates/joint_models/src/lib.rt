//! Two models in the numbers of their joint vocabulary, or the first place where they disagree.
#![tactic(auto)]

mod agreeing;
mod group;
mod joining;
mod listed;
mod lists;
mod models;
mod numbers;
mod renaming;
mod spelling;
mod stop;
mod words;

pub use joining::{JointModels, join_models};
pub use stop::{PairFault, PairStop};
