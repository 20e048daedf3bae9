//! A question's models in a table on numbers, and its plan in that table.

ghost use Rattle.std.specs.Prelude.{◌≡◌, ◌≤◌, ◌<◌, length, All, IfOk, IfErr, OnOk};
ghost use Rattle.cube_kit.specs.Cubes.{all_to};
ghost use Rattle.task_kit.specs.Tasks.{IsValid, cost_of};
ghost use Rattle.case_kit.specs.Members.{member};
ghost use Rattle.feature_diff.specs.Differing.{AreDifferencesOf};
ghost use Rattle.ground_core.specs.Grounds.{IsGroundOf, IsFull};
ghost use Rattle.table_explanations.specs.Explanations.{IsCheapest};
ghost use Rattle.request_answers.specs.Steps.{IsOfGround, IsOfList};
ghost use Rattle.request_answers.specs.Tables.{forms_of};

use crate::AnswerStop;
use feature_diff::{Difference, Pair};
use ground_core::{Ground, NameTable, ground};
use mre_base::{List, NoMemory, Text};
use plain_program::cheaper_list;
use std::alloc::Global;

/// The pair in a table, if no more is reachable than a table may list.
pub fn ground_pair(
    alloc: Global,
    pair: &Pair,
    differences: &List<Difference>,
) -> Result<Ground, AnswerStop>
    requires all { AreDifferencesOf pair.now.planner pair.now.user differences.now }
    requires few { length differences.now ≤ 256 }
    ensures ok { IfOk result (IsGroundOf pair.now.planner pair.now.user differences.now) }
    ensures within { OnOk result (¬ IsFull pair.now.planner pair.now.user differences.now) }
    ensures err { IfErr result (IsOfGround pair.now.planner pair.now.user differences.now) }
{
    Ok(ground(alloc, pair, differences)?)
}

/// Passes if a plan that is valid after all differences, at this cost, is cheapest there.
pub fn refuse_cheaper(
    alloc: Global,
    ground: &Ground,
    plan: &List<u32>,
    cost: u64,
) -> Result<(), AnswerStop>
    requires named { length ground.now.names.actions.items ≡ length ground.now.table.actions }
    requires listed { All (λ action. action < length ground.now.table.actions) plan.now }
    requires short { length plan.now ≤ 10000 }
    requires valid { IsValid (member ground.now.table (all_to ground.now.table.d)) plan.now }
    requires cost { cost
        ≡ cost_of (member ground.now.table (all_to ground.now.table.d)) plan.now }
    ensures ok { OnOk result
        (IsCheapest (member ground.now.table (all_to ground.now.table.d)) plan.now) }
    ensures err { IfErr result (IsOfList ground.now cost) }
{
    match cheaper_list(alloc, &ground.table, plan)? {
        None => Ok(()),
        Some(foil) => {
            let steps = print_list(alloc, &ground.names, &foil.list)?;
            let other = foil.cost;
            Err(AnswerStop::NotCheapest { cost, other, steps })
        }
    }
}

// The printed form of each ground action of a list.
fn print_list(alloc: Global, names: &NameTable, list: &List<u32>) -> Result<List<Text>, NoMemory>
    requires listed { All (λ action. action < length names.now.actions.items) list.now }
    ensures ok { IfOk result (λ texts. texts ≡ forms_of names.now.actions.items list.now) }
{
    let mut texts = List::empty(alloc);
    for place in 0..list.len() {
        texts.push(names.action(*list.item(place)).copy(alloc)?)?;
    }
    Ok(texts)
}
