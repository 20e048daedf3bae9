//! The words of a command: what they ask for, and the names of the files that it is asked about.
#![tactic(auto)]

mod laws;
mod reading;
mod request;

pub use laws::law_requested;
pub use reading::{WordsStop, read_words};
pub use request::Request;
