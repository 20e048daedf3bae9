//! The costs of actions that cuts leave.
ghost use Rattle.std.specs.Prelude.{ℕ, ◌≡◌, ◌+◌, ◌≤◌, ◌<◌, true, cond, length, slice_index, IfOk};
ghost use Rattle.relax_cuts.specs.Leaving.{is_counted, IsWeight};
ghost use Rattle.task_kit.specs.Atoms.{lesser_of};
ghost use Rattle.task_kit.specs.Tasks.{price};

use mre_base::{Bits, NoMemory};
use std::alloc::Global;
use task_kit::{TaskView, price_of};

/// The cost of each action, or 0 if it has none.
pub fn prices<T: TaskView>(alloc: Global, task: &T) -> Result<Vec<u64>, NoMemory>
    ensures sized { IfOk result (λ left. length left.items ≡ length (T.seen task.now).actions) }
    ensures each { IfOk result (λ left. (action : ℕ) → action < length (T.seen task.now).actions →
        slice_index left.items action ≡ price (T.seen task.now) action) }
{
    let mut left = Vec::new(alloc);
    for action in 0..task.actions() {
        left.push(price_of(task, action))?;
    }
    Ok(left)
}

// Whether a cut with this set counts an action.
fn is_counted<T: TaskView>(task: &T, action: u32, among: &Bits) -> bool
    requires listed { action < length (T.seen task.now).actions }
    requires width { among.now.width ≡ (T.seen task.now).atoms + 1 }
    ensures { result ≡ is_counted (T.seen task.now) action among.now.members }
{
    task.applies(action, among) && task.adds_outside(action, among)
}

fn lesser(least: Option<u64>, left: u64) -> u64
    ensures { result ≡ lesser_of least left }
{
    match least {
        None => left,
        Some(other) => left.min(other),
    }
}

/// The least cost left of an action that a cut with this set counts.
pub fn least_left<T: TaskView>(task: &T, left: &Vec<u64>, among: &Bits) -> Option<u64>
    requires sized { length left.now.items ≡ length (T.seen task.now).actions }
    requires width { among.now.width ≡ (T.seen task.now).atoms + 1 }
    ensures { IsWeight (T.seen task.now) (length (T.seen task.now).actions) left.now.items
        among.now.members result }
{
    let mut least = None;
    for action in 0..task.actions() {
        if is_counted(task, action, among) {
            least = Some(lesser(least, left[action as usize]));
        }
    }
    least
}

/// Takes a weight from the cost left of each action that a cut with this set counts.
pub fn charge<T: TaskView>(task: &T, weight: u64, among: &Bits, left: &mut Vec<u64>)
    requires sized { length left.old.items ≡ length (T.seen task.now).actions }
    requires width { among.now.width ≡ (T.seen task.now).atoms + 1 }
    requires within { (action : ℕ) → action < length (T.seen task.now).actions →
        is_counted (T.seen task.now) action among.now.members ≡ true
        → weight ≤ slice_index left.old.items action }
    ensures each { (action : ℕ) → action < length (T.seen task.now).actions →
        slice_index left.new.items action
        + cond (is_counted (T.seen task.now) action among.now.members) weight 0
        ≡ slice_index left.old.items action }
    ensures sized { length left.new.items ≡ length left.old.items }
{
    for action in 0..task.actions() {
        if is_counted(task, action, among) {
            left[action as usize] -= weight;
        }
    }
}
