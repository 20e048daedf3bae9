//! Bound proofs, which show by listed states that no valid list of a task costs less than a bound,
//! and their checker.
#![tactic(auto)]

mod charging;
mod checking;
mod cutting;
mod expanding;
mod laws;
mod looking;
mod proof;
mod pruning;
mod scratch;

pub use checking::check_bound;
pub use laws::law_bound_proofs;
pub use proof::{BoundFault, BoundProof, BoundRule, BoundState, How};
pub use scratch::Scratch;
