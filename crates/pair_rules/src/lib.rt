//! The rules of two models, from which reachability is computed.
#![tactic(auto)]

mod fitting;
mod parts;
mod ruling;

pub use ruling::rules_of;
