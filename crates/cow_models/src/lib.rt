//! Relaxed tasks of cubes that share their ground actions, row by row.
#![tactic(auto)]

mod atoms;
mod making;
mod model;
mod row;
mod rows;

pub use model::CaseModel;
