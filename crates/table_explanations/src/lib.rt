//! Explanations over a case table: the sets of differences after which a plan is cheapest, those
//! that keep it cheapest whatever is told further, and the first of each.
#![tactic(auto)]

mod laws;

pub use laws::law_once;
