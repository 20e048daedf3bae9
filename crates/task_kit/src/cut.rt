//! Cuts of a state.

use mre_base::List;

/// A cut of a state of a task with `n` atoms: a weight, and a set that every list from the state to
/// the goal has to leave. The set has all numbers below `n` but the listed ones.
#[derive(Debug, Drop)]
pub struct Cut {
    pub weight: u64,
    pub lacks: List<u32>,
}

/// The cuts of one state.
pub type Cuts = List<Cut>;
