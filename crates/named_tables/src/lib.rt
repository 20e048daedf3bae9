//! Two models and one table on numbers: the reachable atoms and actions, when a table is theirs,
//! and that lists of numbers run in it as lists of ground actions run in the models.
#![tactic(auto)]

mod laws;

pub use laws::{law_example, law_priced, law_reachable, law_runs};
