//! Models as plain data: facts, goals, schemas, values and unknown actions.

ghost use Rattle.std.specs.Prelude.{IsTrue};
ghost use Rattle.model_kit.specs.Features.{is_model};

use crate::{GroundAtom, SchemaAtom, Term, Vocabulary};
use mre_base::{Copied, List, NoMemory};
use std::alloc::Global;

/// What an action schema costs.
#[derive(Debug, Drop)]
pub enum CostExpr {
    Number(u32),
    /// The value of a function at the objects of the terms.
    Call { function: u32, args: List<Term> },
}

impl Copied for CostExpr {
    fn copied(&self, alloc: Global) -> Result<CostExpr, NoMemory> {
        match self {
            CostExpr::Number(number) => Ok(CostExpr::Number(*number)),
            CostExpr::Call { function, args } => Ok(CostExpr::Call {
                function: *function,
                args: args.copied(alloc)?,
            }),
        }
    }
}

/// An action schema: its preconditions, the atoms that it adds and deletes, and its cost.
#[derive(Debug)]
pub struct Schema {
    pub pre: List<SchemaAtom>,
    pub add: List<SchemaAtom>,
    pub del: List<SchemaAtom>,
    pub cost: CostExpr,
}

impl Drop for Schema {
    fn drop(self) {
        let Schema {
            pre: _,
            add: _,
            del: _,
            cost: _,
        } = self;
    }
}

/// A planning model (STRIPS with types and action costs), by the numbers of its words.
#[derive(Debug)]
pub struct Model {
    pub words: Vocabulary,
    /// The atoms that are true at the start.
    pub init: List<GroundAtom>,
    pub goal: List<GroundAtom>,
    /// One schema for each action of the words, in their order.
    pub schemas: List<Schema>,
    /// Each function value: the function, its objects and the number.
    pub values: List<(u32, List<u32>, u32)>,
    /// The schemas that the model doesn't know.
    pub unknown: List<u32>,
    pub ghost sound: { IsTrue (is_model words init goal schemas values unknown) },
}

impl Drop for Model {
    fn drop(self) {
        let Model {
            words: _,
            init: _,
            goal: _,
            schemas: _,
            values: _,
            unknown: _,
        } = self;
    }
}
