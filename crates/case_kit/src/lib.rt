//! Case tables: the tasks of all sets of differences in one table, and for a cube of sets the two
//! tasks that bound the tasks of its members.
#![tactic(auto)]

mod action;
mod cases;
mod costs;
mod laws;
mod pricing;
mod table;
mod taking;
mod way;

pub use action::CaseAction;
pub use cases::{Case, When};
pub use costs::{CaseCost, CaseValue};
pub use laws::{law_child, law_lists, law_members, law_relaxed, law_sums};
pub use table::CaseTable;
pub use way::Way;
