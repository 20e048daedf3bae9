//! The search for a state among the ascending states of a bound proof.
ghost use Rattle.std.specs.Prelude.{ℕ, ◌≡◌, ◌≤◌, ◌<◌, ◌↔◌, true, false, Some, length, slice_get};
ghost use Rattle.std.specs.Prelude.{All, IsTrue};
ghost use Rattle.task_kit.specs.Bounds.{IsKnownWithin};
ghost use Rattle.bound_cert.specs.declared.proof.BoundState.{BoundState};
ghost use Rattle.bound_cert.specs.Formed.{is_listed_before, IsAscending};
ghost use Rattle.bound_cert.specs.Proven.{IsThere};

use crate::proof::BoundState;
use mre_base::{Bits, List};

// The place of the first state that isn't before the wanted one.
fn place_for(states: &List<BoundState>, wanted: &Bits) -> usize
    requires wide { All (λ s. s.state.width ≡ wanted.now.width) states.now }
    requires ascending { IsAscending states.now }
    ensures before { (place : ℕ) (s : BoundState) → slice_get states.now place ≡ Some s →
        place < result → is_listed_before s.state wanted.now ≡ true }
    ensures rest { (place : ℕ) (s : BoundState) → slice_get states.now place ≡ Some s →
        result ≤ place → is_listed_before s.state wanted.now ≡ false }
{
    let mut low = 0;
    let mut high = states.len();
    while low < high {
        let middle = low + (high - low) / 2;
        if states.item(middle).state.list_before(wanted) {
            low = middle + 1;
        } else {
            high = middle;
        }
    }
    low
}

/// Whether the state is listed with this number or a smaller one.
pub fn is_within(states: &List<BoundState>, wanted: &Bits, number: u64) -> bool
    requires wide { All (λ s. s.state.width ≡ wanted.now.width) states.now }
    requires ascending { IsAscending states.now }
    ensures { IsTrue result ↔ IsKnownWithin (IsThere states.now) wanted.now.members number }
{
    let place = place_for(states, wanted);
    if states.len() <= place {
        return false;
    }
    let found = states.item(place);
    found.state.same(wanted) && found.number <= number
}
