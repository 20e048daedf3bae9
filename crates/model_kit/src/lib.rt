//! Planning models as plain data, what plans and explanations mean over them, and the judging of a
//! plan.
#![tactic(auto)]

mod action;
mod atom;
mod checking;
mod entries;
mod fitting;
mod judging;
mod laws;
mod model;
mod printing;
mod state;
mod values;
mod vocabulary;

pub use action::{GroundAction, Plan};
pub use atom::{GroundAtom, SchemaAtom, Term};
pub use checking::are_same_terms;
pub use fitting::{is_ground_action, is_object_of};
pub use judging::{NamedJudgement, judge_names};
pub use laws::{law_mce, law_mme, law_order};
pub use model::{CostExpr, Model, Schema};
pub use printing::{print_action, print_atom, print_cost, print_schema_atom, print_value};
pub use state::{arguments, instance_of};
pub use values::{FunctionTerm, value_at, value_table};
pub use vocabulary::{Signature, Vocabulary};
