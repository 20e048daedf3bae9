//! Ground actions, and plans.

use mre_base::List;

/// An action schema with an object for each of its parameters.
#[derive(Debug, Drop)]
pub struct GroundAction {
    pub schema: u32,
    pub objects: List<u32>,
}

/// A list of ground actions, in the order in which they are taken.
#[derive(Debug, Drop)]
pub struct Plan {
    pub steps: List<GroundAction>,
}
