//! The printed forms of differences and explanations.
#![tactic(auto)]

mod laws;
mod lines;
mod sentences;

pub use laws::law_text;
pub use lines::{list_of, text_of};
