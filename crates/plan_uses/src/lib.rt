//! Which differences of two models belong to the actions that a plan uses.
#![tactic(auto)]

mod laws;
mod using;

pub use laws::law_used_numbers;
pub use using::plan_uses;
