//! Tests of whether the states of a bound proof have the form that its checker asks for.
ghost use Rattle.std.specs.Prelude.{ℕ, ◌≡◌, ◌+◌, ◌^◌, ◌<◌, true, Some, length, slice_get, All};
ghost use Rattle.std.specs.Prelude.{IsTrue};
ghost use Rattle.bound_cert.specs.declared.proof.BoundState.{BoundState};
ghost use Rattle.bound_cert.specs.Formed.{is_listed_before, IsAscending, IsInRange, cuts_of};
ghost use Rattle.bound_cert.specs.Formed.{IsFormed};
ghost use Rattle.bound_cert.specs.Lines.{lines};

use bound_cert::{BoundState, How};
use mre_base::List;
use task_kit::{Cut, Cuts, TaskView};

fn are_wide(width: u32, states: &List<BoundState>) -> bool
    ensures { IsTrue result → All (λ s. s.state.width ≡ width) states.now }
{
    for place in 0..states.len() {
        if states.item(place).state.width() != width {
            return false;
        }
    }
    true
}

fn is_last(states: &List<BoundState>, later: usize) -> bool
    requires later { later < length states.now }
    requires wide { (place other : ℕ) (s t : BoundState) → slice_get states.now place ≡ Some s →
        slice_get states.now other ≡ Some t → s.state.width ≡ t.state.width }
    ensures { IsTrue result → (place : ℕ) (s t : BoundState) → slice_get states.now place ≡ Some s →
        slice_get states.now later ≡ Some t → place < later
        → is_listed_before s.state t.state ≡ true }
{
    for place in 0..later {
        if !states
            .item(place)
            .state
            .list_before(&states.item(later).state)
        {
            return false;
        }
    }
    true
}

fn are_ascending(states: &List<BoundState>) -> bool
    requires { (place other : ℕ) (s t : BoundState) → slice_get states.now place ≡ Some s →
        slice_get states.now other ≡ Some t → s.state.width ≡ t.state.width }
    ensures { IsTrue result → IsAscending states.now }
{
    for later in 0..states.len() {
        if !is_last(states, later) {
            return false;
        }
    }
    true
}

fn are_below(bound: u32, atoms: &[u32]) -> bool
    ensures { IsTrue result → All (λ atom. atom < bound) atoms.now }
{
    for &atom in atoms {
        if bound <= atom {
            return false;
        }
    }
    true
}

fn is_in_range(atoms: u32, cut: &Cut) -> bool
    ensures { IsTrue result → IsInRange atoms cut.now }
{
    cut.weight <= 70368744177663 && are_below(atoms, cut.lacks.as_slice())
}

fn are_in_range(atoms: u32, cuts: &Cuts) -> bool
    ensures { IsTrue result → All (IsInRange atoms) cuts.now }
{
    for place in 0..cuts.len() {
        if !is_in_range(atoms, cuts.item(place)) {
            return false;
        }
    }
    true
}

fn has_cuts_in_range(atoms: u32, how: &How) -> bool
    ensures { IsTrue result → All (IsInRange atoms) (cuts_of how.now) }
{
    match how {
        How::Expanded => true,
        How::Pruned(cuts) => are_in_range(atoms, cuts),
    }
}

fn have_cuts_in_range(atoms: u32, states: &List<BoundState>) -> bool
    ensures { IsTrue result → All (λ s. All (IsInRange atoms) (cuts_of s.how)) states.now }
{
    for place in 0..states.len() {
        if !has_cuts_in_range(atoms, &states.item(place).how) {
            return false;
        }
    }
    true
}

fn cuts_in(how: &How) -> usize
    ensures { result ≡ length (cuts_of how.now) }
{
    match how {
        How::Expanded => 0,
        How::Pruned(cuts) => cuts.len(),
    }
}

fn are_few(states: &List<BoundState>) -> bool
    ensures { IsTrue result → (atoms : ℕ) → length (lines atoms states.now) < 2 ^ 31 }
{
    let mut count = 0usize;
    for place in 0..states.len() {
        let cuts = cuts_in(&states.item(place).how);
        if 2147483647 <= cuts || 2147483647 <= count + cuts {
            return false;
        }
        count += cuts + 1;
    }
    true
}

/// Whether the states have the task's width and are in order, and their cuts are in range.
pub fn are_formed<T: TaskView>(task: &T, states: &List<BoundState>) -> bool
    ensures { IsTrue result → IsFormed (T.seen task.now) states.now }
{
    let atoms = task.atoms();
    if !are_wide(atoms + 1, states) {
        return false;
    }
    are_ascending(states) && have_cuts_in_range(atoms, states) && are_few(states)
}
