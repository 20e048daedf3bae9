//! The answers of the plain program: a cheaper list, and the first complete set.

ghost use Rattle.std.specs.Prelude.{◌≤◌, ◌<◌, length, All, IfOk, IfSome, IfNone};
ghost use Rattle.cube_kit.specs.Cubes.{all_to};
ghost use Rattle.task_kit.specs.Tasks.{IsValid};
ghost use Rattle.case_kit.specs.Members.{member};
ghost use Rattle.table_explanations.specs.Explanations.{IsCheapest, IsComplete, even};
ghost use Rattle.plain_program.specs.Answers.{IsCheaper, IsFirstComplete};

use crate::keeping::keep_first;
use crate::ordering::sets_in_order;
use crate::trying::{cost_after, member_of, sum_of};
use case_kit::CaseTable;
use cube_kit::Cube;
use mre_base::{List, NoMemory, Places};
use std::alloc::Global;
use task_kit::cheapest_below;

/// A cheapest valid list of ground actions, cheaper than a plan, with its cost.
#[derive(Debug, Drop)]
pub struct Foil {
    pub list: List<u32>,
    pub cost: u64,
}

/// A set of differences after which a plan is cheapest in the user's model, and what the plan costs
/// there.
#[derive(Debug, Drop)]
pub struct FirstComplete {
    pub told: Places,
    pub cost: u64,
}

/// A cheapest valid list after all differences are told, if it costs less than a plan that is valid
/// there; `None` if the plan is cheapest there. With all differences told the table's task is that
/// of the planner's model.
pub fn cheaper_list(
    alloc: Global,
    table: &CaseTable,
    plan: &List<u32>,
) -> Result<Option<Foil>, NoMemory>
    requires listed { All (λ action. action < length table.now.actions) plan.now }
    requires short { length plan.now ≤ 10000 }
    requires valid { IsValid (member table.now (all_to table.now.d)) plan.now }
    ensures cheapest { IfOk result (λ foil. IfNone foil
        (IsCheapest (member table.now (all_to table.now.d)) plan.now)) }
    ensures cheaper { IfOk result (λ foil. IfSome foil
        (IsCheaper (member table.now (all_to table.now.d)) plan.now)) }
{
    let all = Cube::root(table.d).undecided;
    let task = member_of(alloc, table, &all)?;
    let Some(list) = cheapest_below(alloc, &task, sum_of(&task, plan))? else {
        return Ok(None);
    };
    let cost = sum_of(&task, &list);
    Ok(Some(Foil { list, cost }))
}

/// The first complete set of at most 16 differences, each of weight 1: every set is tried. There is
/// one, since the plan is cheapest after all differences are told.
pub fn first_complete(
    alloc: Global,
    table: &CaseTable,
    plan: &List<u32>,
) -> Result<FirstComplete, NoMemory>
    requires few { table.now.d ≤ 16 }
    requires listed { All (λ action. action < length table.now.actions) plan.now }
    requires short { length plan.now ≤ 10000 }
    requires cheapest { IsComplete (even table.now plan.now) (all_to table.now.d) }
    ensures ok { IfOk result (IsFirstComplete (even table.now plan.now)) }
{
    let sets = sets_in_order(alloc, table.d)?;
    let all = Cube::root(table.d).undecided;
    let cost = cost_after(alloc, table, &all, plan)?;
    let mut best = FirstComplete { told: all, cost };
    for place in 0..sets.len() {
        best = keep_first(alloc, table, sets.item(place), best, plan)?;
    }
    Ok(best)
}
