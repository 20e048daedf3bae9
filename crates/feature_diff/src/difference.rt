//! A difference of two models.

use model_kit::{CostExpr, GroundAtom, SchemaAtom};
use mre_base::List;

/// A place at which two models differ, in the numbers of their joint vocabulary: a feature that
/// exactly one of them has, or a cost or a value that isn't the same in both.
#[derive(Debug, Drop)]
pub enum Difference {
    /// An initial fact.
    Init {
        atom: GroundAtom,
        planner_has: bool,
    },
    /// A goal fact.
    Goal {
        atom: GroundAtom,
        planner_has: bool,
    },
    /// That an action is known at all.
    Knows {
        action: u32,
        planner_has: bool,
    },
    /// A precondition of an action.
    Pre {
        action: u32,
        atom: SchemaAtom,
        planner_has: bool,
    },
    /// An atom that an action makes true.
    Add {
        action: u32,
        atom: SchemaAtom,
        planner_has: bool,
    },
    /// An atom that an action makes false.
    Del {
        action: u32,
        atom: SchemaAtom,
        planner_has: bool,
    },
    /// What an action costs in the planner's model and in the user's.
    Cost {
        action: u32,
        planner: CostExpr,
        user: CostExpr,
    },
    /// The value of a function at objects in the planner's model and in the user's, which may be
    /// absent.
    Value {
        function: u32,
        objects: List<u32>,
        planner: Option<u32>,
        user: Option<u32>,
    },
}
