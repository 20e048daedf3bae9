//! Laws of explanations: when there are an MCE and an MME, and how the two compare.

ghost use Rattle.model_kit.specs.Laws.{LawOf, MCELaw, MMELaw, OrderLaw};

use crate::{Model, Plan};
use mre_base::List;

/// Where the plan is cheapest in the planner's model there is an MCE, and never two.
pub fn law_mce(planner: &Model, user: &Model, plan: &Plan, weights: &List<u32>)
    ensures { LawOf MCELaw planner.now user.now plan.now.steps weights.now }
{}

/// There is an MME exactly where the plan is cheapest in the planner's model, and never two.
pub fn law_mme(planner: &Model, user: &Model, plan: &Plan, weights: &List<u32>)
    ensures { LawOf MMELaw planner.now user.now plan.now.steps weights.now }
{}

/// Where there is an MME there is an MCE, and the MME is never before it and has no smaller weight.
pub fn law_order(planner: &Model, user: &Model, plan: &Plan, weights: &List<u32>)
    ensures { LawOf OrderLaw planner.now user.now plan.now.steps weights.now }
{}
