//! From the bytes of a PDDL text to its words and lists, and from the bytes of a plan to its lines.
#![tactic(auto)]

mod bytes;
mod fault;
mod grove;
mod laws;
mod place;
mod plan;
mod printing;
mod reading;
mod tree;

pub use fault::{ReadStop, TextFault, TextRule};
pub use laws::{law_forests, law_plans, law_tokens};
pub use place::Place;
pub use plan::{PlanLine, read_plan_lines};
pub use reading::read_forest;
pub use tree::{Forest, Tree};
