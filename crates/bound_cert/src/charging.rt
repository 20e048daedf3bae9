//! The charges of the cuts of a state on each action.
ghost use Rattle.std.specs.Prelude.{ℕ, ◌≡◌, ◌+◌, ◌^◌, ◌≤◌, ◌<◌, false, [], length, slice_index};
ghost use Rattle.std.specs.Prelude.{IsTrue, IfSome, IfNone};
ghost use Rattle.task_kit.specs.Cuts.{most};
ghost use Rattle.task_kit.specs.Tasks.{price};
ghost use Rattle.bound_cert.specs.Rooms.{charge_by, AreCharged};

use mre_base::Bits;
use task_kit::{TaskView, price_of};

// The charge on an action after one more cut, if it isn't more than the action's cost.
fn charge_one<T: TaskView>(
    task: &T,
    action: u32,
    weight: u64,
    among: &Bits,
    charged: u64,
) -> Option<u64>
    requires listed { action < length (T.seen task.now).actions }
    requires width { among.now.width ≡ (T.seen task.now).atoms + 1 }
    requires in_range { weight ≤ most }
    requires within { charged ≤ price (T.seen task.now) action }
    ensures sum { IfSome result (λ sum. sum ≡ charged + charge_by (T.seen task.now)
        (record { weight = weight; among = among.now.members }) action) }
    ensures within { IfSome result (λ sum. sum ≤ price (T.seen task.now) action) }
    ensures over { IfNone result (price (T.seen task.now) action < charged
        + charge_by (T.seen task.now) (record {
          weight = weight;
          among = among.now.members;
        }) action) }
{
    if !task.applies(action, among) {
        return Some(charged);
    }
    if !task.adds_outside(action, among) {
        return Some(charged);
    }
    let cost = price_of(task, action);
    let sum = charged + weight;
    if cost < sum {
        return None;
    }
    Some(sum)
}

/// Charges the actions that a cut counts, and answers whether the charge on each is at most its
/// cost.
pub fn charge<T: TaskView>(task: &T, weight: u64, among: &Bits, charged: &mut Vec<u64>) -> bool
    requires width { among.now.width ≡ (T.seen task.now).atoms + 1 }
    requires in_range { weight ≤ most }
    requires sized { length charged.old.items ≡ length (T.seen task.now).actions }
    requires within { (action : ℕ) → action < length (T.seen task.now).actions →
        slice_index charged.old.items action ≤ price (T.seen task.now) action }
    ensures sums { IsTrue result → (action : ℕ) → action < length (T.seen task.now).actions →
        slice_index charged.new.items action ≡ slice_index charged.old.items action
        + charge_by (T.seen task.now) (record {
          weight = weight;
          among = among.now.members;
        }) action }
    ensures within { IsTrue result → (action : ℕ) → action < length (T.seen task.now).actions →
        slice_index charged.new.items action ≤ price (T.seen task.now) action }
    ensures over { result ≡ false → (action : ℕ) × (action < length (T.seen task.now).actions)
        × (price (T.seen task.now) action < slice_index charged.old.items action
        + charge_by (T.seen task.now) (record {
          weight = weight;
          among = among.now.members;
        }) action) }
    ensures sized { length charged.new.items ≡ length charged.old.items }
{
    for action in 0..task.actions() {
        let sum = charge_one(task, action, weight, among, charged[action as usize]);
        match sum {
            None => return false,
            Some(sum) => charged[action as usize] = sum,
        }
    }
    true
}

/// Charges nothing.
pub fn charge_none(charged: &mut Vec<u64>)
    ensures none { (action : ℕ) → action < length charged.new.items →
        slice_index charged.new.items action ≡ 0 }
    ensures sized { length charged.new.items ≡ length charged.old.items }
{
    for place in 0..charged.len() {
        charged[place] = 0;
    }
}
