//! The differences of two models, and the user's model after some of them are told.
#![tactic(auto)]

mod actions;
mod blending;
mod difference;
mod facts;
mod form;
mod gathered;
mod gathering;
mod pair;
mod rows;
mod schema_parts;
mod spots;
mod told;
mod worths;

pub use actions::knows;
pub use difference::Difference;
pub use facts::{FactKind, facts_in};
pub use joint_models::{PairFault, PairStop};
pub use pair::{DiffStop, Pair};
pub use schema_parts::{ActionPart, SchemaPart, atoms_in};
pub use spots::{ActionKind, Spot, place_at};
pub use worths::Worths;
