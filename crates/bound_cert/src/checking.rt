//! The check of bound proofs.

ghost use Rattle.std.specs.Prelude.{ℕ, ◌≡◌, ◌+◌, ◌^◌, ◌≤◌, ◌<◌, ◌↔◌, false, length, All, IsTrue};
ghost use Rattle.std.specs.Prelude.{IsOk, IfErr, IfSome, IfNone};
ghost use Rattle.task_kit.specs.Bounds.{HasNoCheaper};
ghost use Rattle.bound_cert.specs.Formed.{IsInRange, cuts_of, IsAscending, IsFormed};
ghost use Rattle.bound_cert.specs.Lines.{state_lines, lines, proof_lines, Keeps, IsFirstFault};
ghost use Rattle.bound_cert.specs.Lines.{IsFaultOf};
ghost use Rattle.bound_cert.specs.Proven.{IsThere, IsBoundProof};
ghost use Rattle.bound_cert.specs.Rooms.{IsScratchOf};

use crate::cutting::fault_in_cuts;
use crate::expanding::broken_by_expanded;
use crate::looking::is_within;
use crate::proof::{BoundFault, BoundProof, BoundRule, BoundState, How};
use crate::pruning::broken_by_pruned;
use crate::scratch::Scratch;
use mre_base::List;
use task_kit::TaskView;

// The first fault in the lines of a state, which count from `line` on.
fn fault_of_state<T: TaskView>(
    task: &T,
    k: u64,
    states: &List<BoundState>,
    state: &BoundState,
    scratch: &mut Scratch,
    line: u32,
) -> Option<BoundFault>
    requires wide { All (λ s. s.state.width ≡ (T.seen task.now).atoms + 1) states.now }
    requires ascending { IsAscending states.now }
    requires width { state.now.state.width ≡ (T.seen task.now).atoms + 1 }
    requires in_range { All (IsInRange (T.seen task.now).atoms) (cuts_of state.now.how) }
    requires scratch { IsScratchOf (T.seen task.now) scratch.old }
    requires few { line + length (cuts_of state.now.how) + 1 < 2 ^ 32 }
    ensures kept { IfNone result (All (Keeps (T.seen task.now) k states.now)
        (state_lines (T.seen task.now).atoms state.now)) }
    ensures broken { IfSome result (IsFirstFault (T.seen task.now) k states.now
        (state_lines (T.seen task.now).atoms state.now) line) }
    ensures scratch { IsScratchOf (T.seen task.now) scratch.new }
{
    match &state.how {
        How::Expanded => {
            match broken_by_expanded(task, k, states, state, &mut scratch.into) {
                None => None,
                Some(rule) => Some(BoundFault { line, rule }),
            }
        }
        How::Pruned(cuts) => match broken_by_pruned(k, state, cuts) {
            None => fault_in_cuts(task, &state.state, cuts, scratch, line + 1),
            Some(rule) => Some(BoundFault { line, rule }),
        },
    }
}

// The number of lines of a state.
fn height(how: &How) -> u32
    requires { length (cuts_of how.now) + 1 < 2 ^ 32 }
    ensures { result ≡ length (cuts_of how.now) + 1 }
{
    match how {
        How::Expanded => 1,
        How::Pruned(cuts) => cuts.len() as u32 + 1,
    }
}

// The first fault in the lines of the states.
fn fault_of_states<T: TaskView>(
    task: &T,
    k: u64,
    states: &List<BoundState>,
    scratch: &mut Scratch,
) -> Option<BoundFault>
    requires formed { IsFormed (T.seen task.now) states.now }
    requires scratch { IsScratchOf (T.seen task.now) scratch.old }
    ensures kept { IfNone result (All (Keeps (T.seen task.now) k states.now)
        (lines (T.seen task.now).atoms states.now)) }
    ensures broken { IfSome result (IsFirstFault (T.seen task.now) k states.now
        (lines (T.seen task.now).atoms states.now) 2) }
    ensures scratch { IsScratchOf (T.seen task.now) scratch.new }
{
    let mut line = 2;
    for place in 0..states.len() {
        let state = states.item(place);
        if let Some(fault) = fault_of_state(task, k, states, state, scratch, line) {
            return Some(fault);
        }
        line += height(&state.how);
    }
    None
}

// Whether the start is listed with number 0, if the bound asks for that.
fn has_start<T: TaskView>(task: &T, k: u64, states: &List<BoundState>) -> bool
    requires formed { IsFormed (T.seen task.now) states.now }
    ensures yes { IsTrue result → 0 < k → IsThere states.now (T.seen task.now).start 0 }
    ensures no { result ≡ false →
        (0 < k) × ¬ IsThere states.now (T.seen task.now).start 0 }
{
    if k == 0 {
        return true;
    }
    is_within(states, task.start(), 0)
}

// The first fault in all lines.
fn first_fault<T: TaskView>(
    task: &T,
    k: u64,
    states: &List<BoundState>,
    scratch: &mut Scratch,
) -> Option<BoundFault>
    requires formed { IsFormed (T.seen task.now) states.now }
    requires scratch { IsScratchOf (T.seen task.now) scratch.old }
    ensures kept { IfNone result (All (Keeps (T.seen task.now) k states.now)
        (proof_lines (T.seen task.now).atoms states.now)) }
    ensures broken { IfSome result (IsFaultOf (T.seen task.now) k states.now) }
    ensures scratch { IsScratchOf (T.seen task.now) scratch.new }
{
    if !has_start(task, k, states) {
        return Some(BoundFault {
            line: 1,
            rule: BoundRule::Start,
        });
    }
    fault_of_states(task, k, states, scratch)
}

/// Whether a bound proof is right, or its first line that breaks a rule. Takes no memory.
pub fn check_bound<T: TaskView>(
    task: &T,
    k: u64,
    proof: &BoundProof,
    scratch: &mut Scratch,
) -> Result<(), BoundFault>
    requires bound { proof.now.k ≡ k }
    requires formed { IsFormed (T.seen task.now) proof.now.states }
    requires scratch { IsScratchOf (T.seen task.now) scratch.old }
    ensures ok { IsOk result ↔ IsBoundProof (T.seen task.now) k proof.now.states }
    ensures no_cheaper { IsOk result → HasNoCheaper (T.seen task.now) k }
    ensures fault { IfErr result (IsFaultOf (T.seen task.now) k proof.now.states) }
    ensures scratch { IsScratchOf (T.seen task.now) scratch.new }
{
    match first_fault(task, k, &proof.states, scratch) {
        None => Ok(()),
        Some(fault) => Err(fault),
    }
}
