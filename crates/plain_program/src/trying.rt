//! The cost of a plan after a set of differences, if the plan is cheapest there.

ghost use Rattle.std.specs.Prelude.{◌≡◌, ◌≤◌, ◌^◌, ◌<◌, length, All, IfOk, IfSome, IfNone};
ghost use Rattle.cube_kit.specs.Cubes.{IsWithin};
ghost use Rattle.task_kit.specs.Tasks.{IsValid, cost_of};
ghost use Rattle.case_kit.specs.Evaluated.{meant};
ghost use Rattle.case_kit.specs.Members.{member};
ghost use Rattle.table_explanations.specs.Explanations.{IsCheapest};

use case_kit::CaseTable;
use cube_kit::Cube;
use mre_base::{List, NoMemory, Places};
use std::alloc::Global;
use task_kit::{Judgement, Task, TaskView, cheapest_below, judge};

// The task after these differences: the permissive task of the cube of this one set.
pub(crate) fn member_of(alloc: Global, table: &CaseTable, told: &Places) -> Result<Task, NoMemory>
    requires within { IsWithin table.now.d told.now }
    ensures ok { IfOk result (λ task. meant task ≡ member table.now told.now) }
{
    table.permissive(alloc, &Cube::single(told, table.d))
}

// The sum of the costs of a list's actions.
pub(crate) fn sum_of<T: TaskView>(task: &T, list: &List<u32>) -> u64
    requires listed { All (λ action. action < length (T.seen task.now).actions) list.now }
    requires low { cost_of (T.seen task.now) list.now < 2 ^ 64 }
    ensures { result ≡ cost_of (T.seen task.now) list.now }
{
    let mut sum = 0;
    for place in 0..list.len() {
        sum += u64::from(task.cost(*list.item(place)).unwrap_or(0));
    }
    sum
}

// What a plan costs after these differences.
pub(crate) fn cost_after(
    alloc: Global,
    table: &CaseTable,
    told: &Places,
    plan: &List<u32>,
) -> Result<u64, NoMemory>
    requires within { IsWithin table.now.d told.now }
    requires listed { All (λ action. action < length table.now.actions) plan.now }
    requires short { length plan.now ≤ 10000 }
    ensures ok { IfOk result (λ cost. cost ≡ cost_of (member table.now told.now) plan.now) }
{
    let task = member_of(alloc, table, told)?;
    Ok(sum_of(&task, plan))
}

// What a list of actions costs, if it is valid.
fn cost_where_valid<T: TaskView>(
    alloc: Global,
    task: &T,
    list: &List<u32>,
) -> Result<Option<u64>, NoMemory>
    requires listed { All (λ action. action < length (T.seen task.now).actions) list.now }
    requires short { length list.now ≤ 10000 }
    ensures valid { IfOk result (λ found. IfSome found (λ price.
        IsValid (T.seen task.now) list.now × (price ≡ cost_of (T.seen task.now) list.now)
        × (price < 2 ^ 46))) }
    ensures invalid { IfOk result (λ found. IfNone found (¬ IsValid (T.seen task.now) list.now)) }
{
    let mut one = task.start().copy(alloc)?;
    let mut two = task.start().copy(alloc)?;
    match judge(task, list.as_slice(), &mut one, &mut two) {
        Judgement::Valid { cost } => Ok(Some(cost)),
        _ => Ok(None),
    }
}

// What a list of actions costs, if it is cheapest.
fn cost_where_cheapest<T: TaskView>(
    alloc: Global,
    task: &T,
    list: &List<u32>,
) -> Result<Option<u64>, NoMemory>
    requires listed { All (λ action. action < length (T.seen task.now).actions) list.now }
    requires short { length list.now ≤ 10000 }
    ensures cheapest { IfOk result (λ found. IfSome found (λ price.
        IsCheapest (T.seen task.now) list.now × (price ≡ cost_of (T.seen task.now) list.now))) }
    ensures other { IfOk result (λ found. IfNone found
        (¬ IsCheapest (T.seen task.now) list.now)) }
{
    let Some(cost) = cost_where_valid(alloc, task, list)? else {
        return Ok(None);
    };
    match cheapest_below(alloc, task, cost)? {
        None => Ok(Some(cost)),
        Some(_) => Ok(None),
    }
}

// What a plan costs after these differences, if it is cheapest there.
pub(crate) fn cost_if_complete(
    alloc: Global,
    table: &CaseTable,
    told: &Places,
    plan: &List<u32>,
) -> Result<Option<u64>, NoMemory>
    requires within { IsWithin table.now.d told.now }
    requires listed { All (λ action. action < length table.now.actions) plan.now }
    requires short { length plan.now ≤ 10000 }
    ensures complete { IfOk result (λ found. IfSome found (λ price.
        IsCheapest (member table.now told.now) plan.now
        × (price ≡ cost_of (member table.now told.now) plan.now))) }
    ensures other { IfOk result (λ found. IfNone found
        (¬ IsCheapest (member table.now told.now) plan.now)) }
{
    let task = member_of(alloc, table, told)?;
    cost_where_cheapest(alloc, &task, plan)
}
