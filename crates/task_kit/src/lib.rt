//! Tasks on numbers: their steps, the judging of lists of actions, cuts and bounds, and a plain
//! search below a cost.
#![tactic(auto)]

mod action;
mod atoms;
mod cut;
mod judging;
mod laws;
mod price;
mod queue;
mod reached;
mod searching;
mod task;
mod view;

pub use action::TaskAction;
pub use cut::{Cut, Cuts};
pub use judging::{Judgement, judge};
pub use laws::{law_bounds, law_cuts};
pub use price::price_of;
pub use searching::cheapest_below;
pub use task::Task;
pub use view::TaskView;
