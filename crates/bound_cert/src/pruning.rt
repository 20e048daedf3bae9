//! Pruned states: the sum of the number and of the weights of the cuts reaches the bound.
ghost use Rattle.std.specs.Prelude.{ℕ, ◌≡◌, ◌+◌, ◌≤◌, ◌↔◌, List, IsTrue, IfSome, IfNone};
ghost use Rattle.task_kit.specs.Cuts.{weights};
ghost use Rattle.task_kit.specs.Kept.{cuts_meaning};
ghost use Rattle.task_kit.specs.Tasks.{TaskMeaning};
ghost use Rattle.bound_cert.specs.declared.proof.BoundState.{BoundState};
ghost use Rattle.bound_cert.specs.Lines.{Line, OfPruned, BreaksFirst, Keeps};
ghost use Rattle.bound_cert.specs.Proven.{numbered};

use crate::proof::{BoundRule, BoundState};
use task_kit::Cuts;

// Whether the sum of a number and of the weights is at least `k`.
fn is_enough(k: u64, number: u64, cuts: &Cuts) -> bool
    ensures { (atoms : ℕ) → (IsTrue result ↔ (k ≤ number + weights (cuts_meaning atoms cuts.now))) }
{
    let mut sum = number as u128;
    for place in 0..cuts.len() {
        sum += cuts.item(place).weight as u128;
    }
    k as u128 <= sum
}

/// The first rule that the line of a pruned state breaks.
pub fn broken_by_pruned(k: u64, state: &BoundState, cuts: &Cuts) -> Option<BoundRule>
    ensures kept { IfNone result ((task : TaskMeaning) (states : List BoundState) →
        Keeps task k states (OfPruned (numbered state.now) (cuts_meaning task.atoms cuts.now))) }
    ensures broken { IfSome result (λ rule. (task : TaskMeaning) (states : List BoundState) →
        BreaksFirst task k states (OfPruned (numbered state.now)
        (cuts_meaning task.atoms cuts.now)) rule) }
{
    if k <= state.number {
        return Some(BoundRule::Below);
    }
    if !is_enough(k, state.number, cuts) {
        return Some(BoundRule::Sum);
    }
    None
}
