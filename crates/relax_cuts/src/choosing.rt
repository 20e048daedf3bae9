//! The choice of the set of the next cut.
ghost use Rattle.std.specs.Prelude.{◌≡◌, ◌+◌, ◌<◌, length, IsTrue, IfOk};
ghost use Rattle.std.specs.Option.{ForSome};
ghost use Rattle.relax_cuts.specs.Choosing.{IsChoice};
ghost use Rattle.relax_cuts.specs.Closing.{IsClosedUnder, Spreads};
ghost use Rattle.relax_cuts.specs.Leaving.{IsCutSet};
ghost use Rattle.task_kit.specs.Tasks.{AllBelow};

use crate::adding::Adding;
use crate::closing::{GrowingSet, spread};
use crate::leaving::least_left;
use crate::values::values_of;
use crate::zoning::{GoalAtom, farthest, zone_of};
use mre_base::{Bits, NoMemory};
use std::alloc::Global;
use task_kit::TaskView;

/// The set of a cut, and the least that is left of an action that the cut counts.
#[derive(Drop)]
pub struct Choice {
    pub among: Bits,
    pub least: Option<u64>,
}

// The closure as the set of a cut.
fn by_closure<T: TaskView>(task: &T, left: &Vec<u64>, state: &Bits, closure: Bits) -> Choice
    requires sized { length left.now.items ≡ length (T.seen task.now).actions }
    requires width { closure.width ≡ (T.seen task.now).atoms + 1 }
    requires cut_set { IsCutSet (T.seen task.now) state.now.members closure.members }
    requires closed { IsClosedUnder (T.seen task.now) left.now.items 0 closure.members }
    ensures { IsChoice (T.seen task.now) left.now.items state.now.members result }
{
    let least = least_left(task, left, &closure);
    Choice {
        among: closure,
        least,
    }
}

// The atoms that the set of a cut skips: those of the state, and the zone of the farthest goal
// atom, which is to stay outside. If that goal atom can't be made true at all, there is no zone.
fn skipped_atoms<T: TaskView>(
    alloc: Global,
    task: &T,
    adding: &Adding,
    left: &Vec<u64>,
    state: &Bits,
    closure: &Bits,
) -> Result<Bits, NoMemory>
    requires sized { length left.now.items ≡ length (T.seen task.now).actions }
    requires state_width { state.now.width ≡ (T.seen task.now).atoms + 1 }
    requires width { closure.now.width ≡ (T.seen task.now).atoms + 1 }
    ensures { IfOk result (λ skipped. skipped.width ≡ (T.seen task.now).atoms + 1) }
{
    let values = values_of(alloc, task, left, adding, state)?;
    let mut skipped = state.copy(alloc)?;
    if let Some(goal) = reachable(farthest(task, closure, &values)) {
        let zone = zone_of(alloc, left, adding, &values, task.atoms() + 1, goal)?;
        put_all(&mut skipped, &zone);
    }
    Ok(skipped)
}

// The atoms that all actions reach from the state while the zone stays outside.
fn proposed<T: TaskView>(
    alloc: Global,
    task: &T,
    adding: &Adding,
    left: &Vec<u64>,
    state: &Bits,
    closure: &Bits,
) -> Result<Bits, NoMemory>
    requires sized { length left.now.items ≡ length (T.seen task.now).actions }
    requires state_width { state.now.width ≡ (T.seen task.now).atoms + 1 }
    requires width { closure.now.width ≡ (T.seen task.now).atoms + 1 }
    ensures spreads { IfOk result (λ among. Spreads (T.seen task.now) left.now.items
        18446744073709551615
        state.now.members among.members) }
    ensures width { IfOk result (λ among. among.width ≡ (T.seen task.now).atoms + 1) }
{
    let skipped = skipped_atoms(alloc, task, adding, left, state, closure)?;
    let mut growing = GrowingSet {
        among: state.copy(alloc)?,
        skipped,
    };
    spread(alloc, task, left, u64::MAX, &mut growing)?;
    Ok(growing.among)
}

fn reachable(goal: Option<GoalAtom>) -> Option<u32> {
    let goal = goal?;
    let _value = goal.value?;
    Some(goal.atom)
}

fn put_all(bits: &mut Bits, more: &Bits)
    requires { bits.old.width ≡ more.now.width }
    ensures { bits.new.width ≡ bits.old.width }
{
    for atom in 0..more.width() {
        if more.contains(atom) {
            bits.put(atom);
        }
    }
}

fn is_above_0(least: Option<u64>) -> bool
    ensures { IsTrue result → ForSome least (λ weight. 0 < weight) }
{
    match least {
        None => true,
        Some(weight) => 0 < weight,
    }
}

/// Chooses the set of the next cut of a state, given the closure of the state. The closure is
/// chosen only if the proposed set isn't the set of a cut, or if an action leads out of it for
/// nothing.
pub fn choose<T: TaskView>(
    alloc: Global,
    task: &T,
    adding: &Adding,
    left: &Vec<u64>,
    state: &Bits,
    closure: Bits,
) -> Result<Choice, NoMemory>
    requires sized { length left.now.items ≡ length (T.seen task.now).actions }
    requires state_width { state.now.width ≡ (T.seen task.now).atoms + 1 }
    requires below { AllBelow (T.seen task.now).atoms state.now.members }
    requires width { closure.width ≡ (T.seen task.now).atoms + 1 }
    requires cut_set { IsCutSet (T.seen task.now) state.now.members closure.members }
    requires closed { IsClosedUnder (T.seen task.now) left.now.items 0 closure.members }
    ensures { IfOk result (IsChoice (T.seen task.now) left.now.items state.now.members) }
{
    let among = proposed(alloc, task, adding, left, state, &closure)?;
    if task.goal().is_subset(&among) {
        return Ok(by_closure(task, left, state, closure));
    }
    let least = least_left(task, left, &among);
    if is_above_0(least) {
        return Ok(Choice { among, least });
    }
    Ok(by_closure(task, left, state, closure))
}
