//! Expanded states: each successor below the bound is listed.
ghost use Rattle.std.specs.Prelude.{ℕ, ◌≡◌, ◌+◌, ◌^◌, ◌≤◌, ◌<◌, ◌⊎◌, true, false, length, All};
ghost use Rattle.std.specs.Prelude.{IsTrue, IfSome, IfNone};
ghost use Rattle.task_kit.specs.Bounds.{IsKnownWithin};
ghost use Rattle.task_kit.specs.Tasks.{price, applies, after};
ghost use Rattle.bound_cert.specs.Formed.{IsAscending};
ghost use Rattle.bound_cert.specs.Lines.{Line, OfExpanded, LacksSuccessor, BreaksFirst, Keeps};
ghost use Rattle.bound_cert.specs.Proven.{IsThere, numbered};

use crate::looking::is_within;
use crate::proof::{BoundRule, BoundState};
use mre_base::{Bits, List};
use task_kit::{TaskView, price_of};

// Whether the action doesn't apply, or its successor costs too much or is listed.
fn has_successor<T: TaskView>(
    task: &T,
    k: u64,
    states: &List<BoundState>,
    from: &BoundState,
    into: &mut Bits,
    action: u32,
) -> bool
    requires listed { action < length (T.seen task.now).actions }
    requires wide { All (λ s. s.state.width ≡ (T.seen task.now).atoms + 1) states.now }
    requires ascending { IsAscending states.now }
    requires from_width { from.now.state.width ≡ (T.seen task.now).atoms + 1 }
    requires into_width { into.old.width ≡ (T.seen task.now).atoms + 1 }
    requires below { from.now.number < k }
    ensures yes { IsTrue result → applies (T.seen task.now) action from.now.state.members ≡ true →
        (k ≤ from.now.number + price (T.seen task.now) action)
        ⊎ IsKnownWithin (IsThere states.now) (after (T.seen task.now) action from.now.state.members)
        (from.now.number + price (T.seen task.now) action) }
    ensures no { result ≡ false → LacksSuccessor (T.seen task.now) k states.now
        from.now.state.members from.now.number action }
    ensures into_width { into.new.width ≡ into.old.width }
{
    if !task.applies(action, &from.state) {
        return true;
    }
    let price = price_of(task, action);
    if k - from.number <= price {
        return true;
    }
    task.next_into(action, &from.state, into);
    is_within(states, into, from.number + price)
}

// Whether each successor costs too much or is listed.
fn has_successors<T: TaskView>(
    task: &T,
    k: u64,
    states: &List<BoundState>,
    from: &BoundState,
    into: &mut Bits,
) -> bool
    requires wide { All (λ s. s.state.width ≡ (T.seen task.now).atoms + 1) states.now }
    requires ascending { IsAscending states.now }
    requires from_width { from.now.state.width ≡ (T.seen task.now).atoms + 1 }
    requires into_width { into.old.width ≡ (T.seen task.now).atoms + 1 }
    requires below { from.now.number < k }
    ensures yes { IsTrue result → (action : ℕ) →
        applies (T.seen task.now) action from.now.state.members ≡ true →
        (k ≤ from.now.number + price (T.seen task.now) action)
        ⊎ IsKnownWithin (IsThere states.now) (after (T.seen task.now) action from.now.state.members)
        (from.now.number + price (T.seen task.now) action) }
    ensures no { result ≡ false → (action : ℕ) × LacksSuccessor (T.seen task.now) k
        states.now from.now.state.members from.now.number action }
    ensures into_width { into.new.width ≡ into.old.width }
{
    for action in 0..task.actions() {
        if !has_successor(task, k, states, from, into, action) {
            return false;
        }
    }
    true
}

/// The first rule that the line of an expanded state breaks.
pub fn broken_by_expanded<T: TaskView>(
    task: &T,
    k: u64,
    states: &List<BoundState>,
    from: &BoundState,
    into: &mut Bits,
) -> Option<BoundRule>
    requires wide { All (λ s. s.state.width ≡ (T.seen task.now).atoms + 1) states.now }
    requires ascending { IsAscending states.now }
    requires from_width { from.now.state.width ≡ (T.seen task.now).atoms + 1 }
    requires into_width { into.old.width ≡ (T.seen task.now).atoms + 1 }
    ensures kept { IfNone result
        (Keeps (T.seen task.now) k states.now (OfExpanded (numbered from.now))) }
    ensures broken { IfSome result
        (λ rule. BreaksFirst (T.seen task.now) k states.now (OfExpanded (numbered from.now)) rule) }
    ensures into_width { into.new.width ≡ into.old.width }
{
    if k <= from.number {
        return Some(BoundRule::Below);
    }
    if task.goal().is_subset(&from.state) {
        return Some(BoundRule::Goal);
    }
    if !has_successors(task, k, states, from, into) {
        return Some(BoundRule::Successor);
    }
    None
}
