//! What a search for a cheaper list writes into the log of nodes, how it may stop, and when its
//! answers are lean by the log.
#![tactic(auto)]

mod laws;
mod logging;
mod stop;

pub use laws::{law_closures, law_due, law_lean, law_searches};
pub use logging::{log_node, probe_of, state_of};
pub use stop::SearchStop;
