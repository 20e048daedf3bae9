//! The plain program: the definitions computed on small inputs. Every set of differences is tried,
//! and each is judged by a plain search on the task of its own.
#![tactic(auto)]

mod answer;
mod keeping;
mod ordering;
mod trying;

pub use answer::{FirstComplete, Foil, cheaper_list, first_complete};
