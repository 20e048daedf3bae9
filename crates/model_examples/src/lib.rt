//! The definitions of `model_kit` on small models. Calling one of these functions does nothing:
//! what it ensures is a fact.
#![tactic(auto)]

mod differences;
mod explanations;
mod joint;
mod judgements;
mod plans;
mod texts;
mod vocabularies;

pub use differences::{
    lists_of_differences, numbers_of_differences, order_of_sets, told_differences, weights,
};
pub use explanations::{
    facts_together, goal_and_values, one_belief, three_differences, unknown_action,
};
pub use joint::joint_numbers;
pub use judgements::judgements_of_plans;
pub use plans::{cheapest_plans, costs, steps, valid_plans};
pub use texts::{explanations_printed, printed_forms, sentences};
pub use vocabularies::{arguments, model_lists, names, vocabulary_lists};
