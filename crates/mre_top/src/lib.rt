//! The top call: everything that the program does, from its words to its status.
#![tactic(auto)]

mod ending;
mod reading;
mod refusal;
mod reporting;
mod top;
mod writing;

pub use ending::{Ending, NoWords, end_process, words_of};
pub use mre_words::{Request, WordsStop, read_words};
pub use plan_uses::plan_uses;
pub use refusal::Refusal;
pub use request_answers::{AnswerStop, PlanFault};
pub use top::{Answer, Outcome, explain_top};
