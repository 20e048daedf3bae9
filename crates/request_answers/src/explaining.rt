//! The explanation of a question's plan.

ghost use Rattle.std.specs.Prelude.{◌≡◌, ◌≤◌, ◌<◌, length, All, IfOk, IfErr, OnOk, codes};
ghost use Rattle.std.specs.List.{concat};
ghost use Rattle.cube_kit.specs.Cubes.{all_to};
ghost use Rattle.model_kit.specs.Vocabulary.{IsGroundAction};
ghost use Rattle.model_kit.specs.Places.{meaning};
ghost use Rattle.model_kit.specs.Runs.{IsCheapest};
ghost use Rattle.model_kit.specs.Explanations.{IsMCE};
ghost use Rattle.model_kit.specs.Sentences.{explanation as explanation_of};
ghost use Rattle.feature_diff.specs.Differing.{AreDifferencesOf};
ghost use Rattle.ground_core.specs.Grounds.{IsGroundOf, IsFull};
ghost use Rattle.ground_core.specs.Names.{AreNamed};
ghost use Rattle.table_explanations.specs.Explanations.{IsComplete, even};
ghost use Rattle.request_answers.specs.Counts.{AreWithinLimits};
ghost use Rattle.request_answers.specs.Lines.{IsLine};
ghost use Rattle.request_answers.specs.Steps.{IsOfExplaining, IsOfSearch};
ghost use Rattle.request_answers.specs.Tasks.{even_task};

use crate::grounding::{ground_pair, refuse_cheaper};
use crate::judging::judge;
use crate::question::Question;
use crate::{AnswerStop, Made};
use explain_text::text_of;
use feature_diff::Difference;
use ground_core::Ground;
use mre_base::{Kind, List, NoMemory};
use plain_program::first_complete;
use std::alloc::Global;

/// The largest number of differences of which every set is tried.
const MOST_TRIED: usize = 16;

/// The MCE of a question with these differences, and its lines; or what is past the limits of a
/// table, the plan's fault in the planner's model, a cheapest plan where the plan isn't one, or that
/// there are too many differences to try every set.
pub fn explain(
    alloc: Global,
    question: &Question,
    differences: &List<Difference>,
) -> Result<Made, AnswerStop>
    requires limits { AreWithinLimits question.now.pair.planner question.now.pair.user
        question.now.plan.steps differences.now }
    requires fits { All (IsGroundAction question.now.pair.planner.words) question.now.plan.steps }
    ensures within { OnOk result
        (¬ IsFull question.now.pair.planner question.now.pair.user differences.now) }
    ensures few { OnOk result (length differences.now ≤ 16) }
    ensures cheapest { OnOk result (IsCheapest question.now.pair.planner.words
        (meaning question.now.pair.planner)
        question.now.plan.steps) }
    ensures mce { IfOk result (λ made. IsMCE
        (even_task question.now.pair.planner question.now.pair.user
        differences.now question.now.plan.steps) made.told) }
    ensures lines { IfOk result (λ made. concat made.lines ≡ explanation_of (codes "mce")
        (even_task question.now.pair.planner question.now.pair.user
        differences.now question.now.plan.steps) made.told) }
    ensures whole { IfOk result (λ made. All IsLine made.lines) }
    ensures err { IfErr result (IsOfExplaining question.now.pair.planner question.now.pair.user
        question.now.plan.steps differences.now) }
{
    let ground = ground_pair(alloc, &question.pair, differences)?;
    search(alloc, question, differences, &ground)
}

// The same, in the table of the question's models.
fn search(
    alloc: Global,
    question: &Question,
    differences: &List<Difference>,
    ground: &Ground,
) -> Result<Made, AnswerStop>
    requires limits { AreWithinLimits question.now.pair.planner question.now.pair.user
        question.now.plan.steps differences.now }
    requires fits { All (IsGroundAction question.now.pair.planner.words) question.now.plan.steps }
    requires ground { IsGroundOf question.now.pair.planner question.now.pair.user differences.now
        ground.now }
    ensures few { OnOk result (length differences.now ≤ 16) }
    ensures cheapest { OnOk result (IsCheapest question.now.pair.planner.words
        (meaning question.now.pair.planner)
        question.now.plan.steps) }
    ensures mce { IfOk result (λ made. IsMCE
        (even_task question.now.pair.planner question.now.pair.user
        differences.now question.now.plan.steps) made.told) }
    ensures lines { IfOk result (λ made. concat made.lines ≡ explanation_of (codes "mce")
        (even_task question.now.pair.planner question.now.pair.user
        differences.now question.now.plan.steps) made.told) }
    ensures whole { IfOk result (λ made. All IsLine made.lines) }
    ensures err { IfErr result (IsOfSearch question.now.pair.planner question.now.plan.steps
        (length differences.now)) }
{
    let cost = judge(alloc, question.pair.planner(), &question.plan)?;
    let words = question.pair.words();
    let plan = ground.names.number_plan(alloc, words, &question.plan)?;
    refuse_cheaper(alloc, ground, &plan, cost)?;
    if differences.len() > MOST_TRIED {
        return Err(AnswerStop::Unbuilt);
    }
    Ok(first(alloc, question, differences, ground, &plan)?)
}

// The first complete set of the differences, and the lines of its explanation.
fn first(
    alloc: Global,
    question: &Question,
    differences: &List<Difference>,
    ground: &Ground,
    plan: &List<u32>,
) -> Result<Made, NoMemory>
    requires all { AreDifferencesOf question.now.pair.planner question.now.pair.user
        differences.now }
    requires ground { IsGroundOf question.now.pair.planner question.now.pair.user differences.now
        ground.now }
    requires fits { All (IsGroundAction question.now.pair.planner.words) question.now.plan.steps }
    requires named { AreNamed question.now.pair.planner.words ground.now.names.actions.items
        plan.now question.now.plan.steps }
    requires few { ground.now.table.d ≤ 16 }
    requires listed { All (λ action. action < length ground.now.table.actions) plan.now }
    requires short { length plan.now ≤ 10000 }
    requires cheapest { IsComplete (even ground.now.table plan.now) (all_to ground.now.table.d) }
    ensures mce { IfOk result (λ made. IsMCE
        (even_task question.now.pair.planner question.now.pair.user
        differences.now question.now.plan.steps) made.told) }
    ensures lines { IfOk result (λ made. concat made.lines ≡ explanation_of (codes "mce")
        (even_task question.now.pair.planner question.now.pair.user
        differences.now question.now.plan.steps) made.told) }
    ensures whole { IfOk result (λ made. All IsLine made.lines) }
{
    let first = first_complete(alloc, &ground.table, plan)?;
    let lines = text_of(
        alloc,
        differences,
        question.pair.words(),
        Kind::Mce,
        &first.told,
        first.cost,
    )?;
    Ok(Made {
        told: first.told,
        lines,
    })
}
