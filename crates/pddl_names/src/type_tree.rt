//! The types with their parents, as trees.

use crate::firsts::TypedList;
use crate::forests::Node;

/// The types with their parents, by number. A parent that isn't listed itself also has a number, and
/// so has `object`.
pub struct TypeTree {
    pub names: TypedList,
    /// The number of the parent of each.
    pub ups: Vec<u32>,
    /// What is known of each in the forest of parents.
    pub nodes: Vec<Node>,
}

impl Drop for TypeTree {
    fn drop(self) {
        let TypeTree {
            names: _,
            ups: _,
            nodes: _,
        } = self;
    }
}
