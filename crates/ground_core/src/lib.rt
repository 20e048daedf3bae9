//! Grounding: the table of two models over their reachable atoms and actions, numbered in the order
//! of their printed forms.
#![tactic(auto)]

mod grounding;
mod laws;
mod names;
mod ordering;
mod stop;
mod table;

pub use grounding::{MOST_ACTIONS, MOST_ATOMS, ground};
pub use laws::{law_cheapest, law_explanations, law_full, law_grounding, law_listed, law_plans};
pub use names::NameTable;
pub use stop::GroundStop;
pub use table::Ground;
