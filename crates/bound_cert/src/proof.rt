//! Bound proofs, and their first fault.

use mre_base::{Bits, List};
use task_kit::Cuts;

/// Why a state of a bound proof needs no further search.
#[derive(Debug, Drop)]
pub enum How {
    /// Its successors are in the proof too, unless they cost too much.
    Expanded,
    /// The weights of these cuts show that the goal is too far from it.
    Pruned(Cuts),
}

/// A state with a number, and why it needs no further search: the cost of every list from it to the
/// goal, added to the number, is at least the bound.
#[derive(Debug)]
pub struct BoundState {
    pub number: u64,
    pub state: Bits,
    pub how: How,
}

impl Drop for BoundState {
    fn drop(self) {
        let BoundState {
            number: _,
            state: _,
            how: _,
        } = self;
    }
}

/// A proof that no valid list of a task costs less than `k`. The states ascend strictly by their
/// lists of atoms.
#[derive(Debug, Drop)]
pub struct BoundProof {
    pub k: u64,
    pub states: List<BoundState>,
}

/// The rules of a bound proof. If a line breaks several, the first in this order is reported.
#[derive(Clone, Copy, Debug, PartialEq, Eq)]
pub enum BoundRule {
    /// If `k` is above 0, the start is listed with number 0.
    Start,
    /// A state's number is below `k`.
    Below,
    /// An expanded state lacks a goal atom.
    Goal,
    /// Each successor of an expanded state costs at least `k`, or is listed with its cost or a
    /// smaller number.
    Successor,
    /// The sum of a pruned state's number and the weights of its cuts is at least `k`.
    Sum,
    /// The set of a cut includes the state and lacks a goal atom.
    Cut,
    /// The cuts of a state up to this one charge each action at most its cost.
    Charge,
}

/// The first line of a bound proof that breaks a rule, and the first rule that it breaks. The bound
/// has line 1; each state has a line, and each cut of a pruned state has a line after it.
#[derive(Clone, Copy, Debug, PartialEq, Eq)]
pub struct BoundFault {
    pub line: u32,
    pub rule: BoundRule,
}
