//! Domains, models and plans as lines that people and tests read, a line for each entry.
#![tactic(auto)]

mod forms;
mod models;

pub use models::{domain_text, model_text, plan_text};
