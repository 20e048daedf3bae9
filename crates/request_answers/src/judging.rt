//! Whether a question's plan is valid in the planner's model.

ghost use Rattle.std.specs.Prelude.{◌≡◌, ◌≤◌, length, All, IfOk, IfErr, OnOk};
ghost use Rattle.model_kit.specs.Vocabulary.{IsGroundAction};
ghost use Rattle.model_kit.specs.Places.{meaning};
ghost use Rattle.model_kit.specs.Runs.{IsValid, cost as cost_in};
ghost use Rattle.request_answers.specs.Steps.{IsOfPlan};

use crate::{AnswerStop, PlanFault};
use model_kit::{Model, NamedJudgement, Plan, judge_names, print_atom};
use std::alloc::Global;

/// What the plan costs in the model, if it is valid there.
pub fn judge(alloc: Global, model: &Model, plan: &Plan) -> Result<u64, AnswerStop>
    requires fits { All (IsGroundAction model.now.words) plan.now.steps }
    requires short { length plan.now.steps ≤ 10000 }
    ensures valid { OnOk result (IsValid (meaning model.now) plan.now.steps) }
    ensures cost { IfOk result (λ cost. cost ≡ cost_in (meaning model.now) plan.now.steps) }
    ensures err { IfErr result (IsOfPlan model.now.words (meaning model.now) plan.now.steps) }
{
    match judge_names(alloc, model, plan)? {
        NamedJudgement::Valid { cost } => Ok(cost),
        NamedJudgement::Fails { step, atom } => {
            let atom = print_atom(alloc, &model.words, &atom)?;
            Err(AnswerStop::NotValid(PlanFault::StepNeeds { step, atom }))
        }
        NamedJudgement::NoCost { step } => Err(AnswerStop::NotValid(PlanFault::StepHasNoCost {
            step,
        })),
        NamedJudgement::GoalMissing { atom } => {
            let atom = print_atom(alloc, &model.words, &atom)?;
            Err(AnswerStop::NotValid(PlanFault::EndsWithout { atom }))
        }
    }
}
