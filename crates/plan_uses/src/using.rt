//! The numbers of the differences that a plan uses.

ghost use Rattle.std.specs.Prelude.{ℕ, ◌≡◌, ◌≤◌, ◌==◌, length, IsTrue};
ghost use Rattle.std.specs.List.{list_any};
ghost use Rattle.std.specs.FinSet as set;
ghost use Rattle.mre_base.specs.Before.{numbers};
ghost use Rattle.feature_diff.specs.Differing.{place_of, places_of};
ghost use Rattle.plan_uses.specs.Uses.{AreUsed, used_numbers};
ghost use Rattle.plan_uses.specs.Uses.{action_of as action_at, is_used as is_used_place};

use feature_diff::Difference;
use model_kit::Plan;
use mre_base::{List, Places};

/// The numbers of the differences in the knowledge, preconditions, adds, deletes or cost of an
/// action that the plan uses. They count from 1.
pub fn plan_uses(plan: &Plan, differences: &List<Difference>) -> Places
    requires few { length differences.now ≤ 256 }
    ensures used { AreUsed plan.now.steps (places_of differences.now) result }
    ensures among { (number : ℕ) → IsTrue (set.contains result number)
        → (1 ≤ number) × (number ≤ length differences.now) }
    ensures numbers { numbers (length differences.now) result
        ≡ used_numbers plan.now.steps (places_of differences.now) }
{
    let mut used = Places::none();
    for place in 0..differences.len() {
        if is_used(plan, differences.item(place)) {
            used = used.with(place as u32 + 1);
        }
    }
    used
}

fn is_used(plan: &Plan, difference: &Difference) -> bool
    ensures { result ≡ is_used_place plan.now.steps (place_of difference.now) }
{
    match action_of(difference) {
        Some(action) => takes(plan, action),
        None => false,
    }
}

// The action that the difference belongs to, if any.
fn action_of(difference: &Difference) -> Option<u32>
    ensures { result ≡ action_at (place_of difference.now) }
{
    match difference {
        Difference::Knows { action, .. }
        | Difference::Pre { action, .. }
        | Difference::Add { action, .. }
        | Difference::Del { action, .. }
        | Difference::Cost { action, .. } => Some(*action),
        Difference::Init { .. } | Difference::Goal { .. } | Difference::Value { .. } => None,
    }
}

// Whether a step of the plan is an instance of the action.
fn takes(plan: &Plan, action: u32) -> bool
    ensures { result ≡ list_any (λ step. step.schema == action) plan.now.steps }
{
    for step in 0..plan.steps.len() {
        if plan.steps.item(step).schema == action {
            return true;
        }
    }
    false
}
