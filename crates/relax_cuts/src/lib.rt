//! Cuts of a state of a task, which bound from below the cost of every list of actions from the
//! state to the goal.
#![tactic(auto)]

mod adding;
mod blocked;
mod choosing;
mod closing;
mod cutting;
mod lacking;
mod leaving;
mod values;
mod zoning;

pub use cutting::cuts_for;
