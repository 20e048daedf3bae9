//! The answer to a request about the contents of its files, or why there isn't one.
#![tactic(auto)]

mod answering;
mod choosing;
mod counting;
mod explaining;
mod grounding;
mod judging;
mod laws;
mod listing;
mod question;
mod stop;
mod telling;
mod texts;

pub use answering::{Made, answer_texts};
pub use laws::{law_each_ends, law_ends};
pub use stop::{AnswerStop, PlanFault};
