//! The case table of two models over lists of reachable atoms and actions.
#![tactic(auto)]

mod features;
mod numbers;
mod pricing;
mod schemas;
mod tabling;

pub use tabling::table_of;
