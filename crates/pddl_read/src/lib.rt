//! The readers of PDDL: a domain, a problem of a domain, and a plan over a vocabulary, each from
//! its bytes.
#![tactic(auto)]

mod laws;
mod reading;

pub use laws::{law_domains, law_problems};
pub use pddl_models::{Body, Domain};
pub use pddl_names::read_plan;
pub use reading::{read_domain, read_problem};
