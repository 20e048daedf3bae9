//! The cuts of a state.

ghost use Rattle.std.specs.Prelude.{◌≡◌, ◌+◌, ◌≤◌, ◌<◌, All, IfOk};
ghost use Rattle.std.specs.List.Sorted.{IsStrictlyIncreasing};
ghost use Rattle.relax_cuts.specs.FreeClosure.{AreForced};
ghost use Rattle.relax_cuts.specs.Lean.{AreLean};
ghost use Rattle.relax_cuts.specs.Leaving.{AreFound};
ghost use Rattle.task_kit.specs.Cuts.{AreLawful};
ghost use Rattle.task_kit.specs.Kept.{cuts_meaning};
ghost use Rattle.task_kit.specs.Tasks.{AllBelow};

use crate::adding::Adding;
use crate::choosing::choose;
use crate::closing::close;
use crate::lacking::lacks_of;
use crate::leaving::{charge, prices};
use mre_base::{Bits, List, NoMemory};
use std::alloc::Global;
use task_kit::{Cut, Cuts, TaskView};

// The greatest weight of a cut.
const MOST: u64 = 70368744177663;

/// Landmark cuts of a state, after Helmert and Domshlak, "Landmarks, Critical Paths and
/// Abstractions: What's the Difference Anyway?" (ICAPS 2009). The list is empty if the goal atoms
/// can be made true at no cost while nothing is deleted. A last cut that counts no action has the
/// greatest weight, since no list leads from the state to the goal.
pub fn cuts_for<T: TaskView>(alloc: Global, task: &T, state: &Bits) -> Result<Cuts, NoMemory>
    requires width { state.now.width ≡ (T.seen task.now).atoms + 1 }
    requires below { AllBelow (T.seen task.now).atoms state.now.members }
    ensures lawful { IfOk result (λ cuts. AreLawful (T.seen task.now) state.now.members
        (cuts_meaning (T.seen task.now).atoms cuts)) }
    ensures forced { IfOk result (λ cuts. AreForced (T.seen task.now) state.now.members
        (cuts_meaning (T.seen task.now).atoms cuts)) }
    ensures above_0 { IfOk result (All (λ cut. 0 < cut.weight)) }
    ensures lean { IfOk result (λ cuts. AreLean (T.seen task.now)
        (cuts_meaning (T.seen task.now).atoms cuts)) }
    ensures ascending { IfOk result (All (λ cut. IsStrictlyIncreasing cut.lacks)) }
    ensures atoms { IfOk result (All (λ cut. All (λ atom. atom < (T.seen task.now).atoms)
        cut.lacks)) }
{
    let cuts = found_cuts(alloc, task, state)?;
    Ok(cuts)
}

// As `cuts_for`, with one clause for all that holds of the cuts.
fn found_cuts<T: TaskView>(alloc: Global, task: &T, state: &Bits) -> Result<Cuts, NoMemory>
    requires width { state.now.width ≡ (T.seen task.now).atoms + 1 }
    requires below { AllBelow (T.seen task.now).atoms state.now.members }
    ensures { IfOk result (AreFound (T.seen task.now) state.now.members) }
{
    let adding = Adding::for_task(alloc, task)?;
    let mut left = prices(alloc, task)?;
    let mut cuts = List::empty(alloc);
    // Each cut uses up what is left of an action, so the last round finds the goal atoms in the
    // closure, or a cut that counts no action.
    for _ in 0..task.actions() as u64 + 1 {
        let closure = close(alloc, task, &left, state)?;
        if task.goal().is_subset(&closure) {
            return Ok(cuts);
        }
        let choice = choose(alloc, task, &adding, &left, state, closure)?;
        let lacks = lacks_of(alloc, task.atoms(), &choice.among)?;
        match choice.least {
            None => {
                cuts.push(Cut {
                    weight: MOST,
                    lacks,
                })?;
                return Ok(cuts);
            }
            Some(weight) => {
                cuts.push(Cut { weight, lacks })?;
                charge(task, weight, &choice.among, &mut left);
            }
        }
    }
    Ok(cuts)
}
