//! The best complete set so far.

ghost use Rattle.std.specs.Prelude.{◌≤◌, ◌<◌, length, All, IfOk};
ghost use Rattle.cube_kit.specs.Cubes.{IsWithin};
ghost use Rattle.table_explanations.specs.Explanations.{even};
ghost use Rattle.plain_program.specs.Kept.{Keeps};

use crate::FirstComplete;
use crate::trying::cost_if_complete;
use case_kit::CaseTable;
use cube_kit::{Weights, is_before};
use mre_base::{List, NoMemory, Places};
use std::alloc::Global;

// The best set so far, or another set if that is complete and comes before it.
pub(crate) fn keep_first(
    alloc: Global,
    table: &CaseTable,
    told: &Places,
    best: FirstComplete,
    plan: &List<u32>,
) -> Result<FirstComplete, NoMemory>
    requires within { IsWithin table.now.d told.now }
    requires best_within { IsWithin table.now.d best.told }
    requires listed { All (λ action. action < length table.now.actions) plan.now }
    requires short { length plan.now ≤ 10000 }
    ensures { IfOk result (Keeps (even table.now plan.now) best told.now) }
{
    if !is_before(&Weights::ones(), told, &best.told) {
        return Ok(best);
    }
    match cost_if_complete(alloc, table, told, plan)? {
        None => Ok(best),
        Some(cost) => Ok(FirstComplete {
            told: told.copy(),
            cost,
        }),
    }
}
