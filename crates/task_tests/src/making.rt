//! Small tasks and bound proofs for tests, made of lists of numbers.
ghost use Rattle.std.specs.Prelude.{◌≡◌, ◌+◌, ◌^◌, ◌<◌, ◌≤◌, All, length, IfOk, unwrap_or};
ghost use Rattle.task_kit.specs.Tasks.{AllBelow, IsAction};
ghost use Rattle.task_kit.specs.Kept.{action_meaning};
ghost use Rattle.task_kit.specs.declared.action.TaskAction.{TaskAction};

use bound_cert::{BoundProof, BoundState, How};
use mre_base::{Bits, List, NoMemory};
use std::alloc::Global;
use task_kit::{Cut, Cuts, Task, TaskAction};

/// An action as given: its preconditions, adds, deletes and cost.
#[derive(Clone, Copy)]
pub struct GivenAction<'a> {
    pub pre: &'a [u32],
    pub add: &'a [u32],
    pub del: &'a [u32],
    pub cost: Option<u32>,
}

pub fn action<'a>(
    pre: &'a [u32],
    add: &'a [u32],
    del: &'a [u32],
    cost: Option<u32>,
) -> GivenAction<'a> {
    GivenAction {
        pre,
        add,
        del,
        cost,
    }
}

/// The given numbers that are below the bound.
pub fn list_below(alloc: Global, bound: u32, numbers: &[u32]) -> Result<List<u32>, NoMemory>
    ensures { IfOk result (λ list. All (λ x. x < bound) list) }
{
    let mut list = List::empty(alloc);
    for &number in numbers {
        if number < bound {
            list.push(number)?;
        }
    }
    Ok(list)
}

/// The set of the given numbers that are below the bound.
fn set_below(alloc: Global, width: u32, bound: u32, numbers: &[u32]) -> Result<Bits, NoMemory>
    requires { bound ≤ width }
    ensures { IfOk result (λ bits. (bits.width ≡ width) × AllBelow bound bits.members) }
{
    let mut bits = Bits::empty(alloc, width)?;
    for &number in numbers {
        if number < bound {
            bits.put(number);
        }
    }
    Ok(bits)
}

// The given cost, which is in its range.
fn cost_of(given: &GivenAction<'_>) -> Option<u32>
    ensures same { result ≡ given.now.cost }
    ensures fits { unwrap_or result 0 < 2 ^ 32 }
{
    Some(given.cost?)
}

fn action_of(alloc: Global, atoms: u32, given: &GivenAction<'_>) -> Result<TaskAction, NoMemory>
    requires { atoms + 1 < 2 ^ 32 }
    ensures { IfOk result (λ action. IsAction atoms (action_meaning action)) }
{
    Ok(TaskAction {
        pre: list_below(alloc, atoms + 1, given.pre)?,
        add: list_below(alloc, atoms, given.add)?,
        del: list_below(alloc, atoms + 1, given.del)?,
        cost: cost_of(given),
    })
}

fn actions_of(
    alloc: Global,
    atoms: u32,
    list: &[GivenAction<'_>],
) -> Result<List<TaskAction>, NoMemory>
    requires { atoms + 1 < 2 ^ 32 }
    ensures each { IfOk result (All (λ action. IsAction atoms (action_meaning action))) }
    ensures count { IfOk result (λ actions. length actions ≡ length list.now) }
{
    let mut actions = List::empty(alloc);
    for given in list {
        actions.push(action_of(alloc, atoms, given)?)?;
    }
    Ok(actions)
}

pub fn task_of(
    alloc: Global,
    atoms: u32,
    start: &[u32],
    goal: &[u32],
    list: &[GivenAction<'_>],
) -> Result<Task, NoMemory>
    requires atoms { atoms + 1 < 2 ^ 32 }
    requires few { length list.now < 2 ^ 32 }
{
    let start = set_below(alloc, atoms + 1, atoms, start)?;
    let goal = set_below(alloc, atoms + 1, atoms + 1, goal)?;
    let actions = actions_of(alloc, atoms, list)?;
    Ok(Task {
        atoms,
        start,
        goal,
        actions,
    })
}

/// A cut as given: its weight and the atoms that its set lacks.
#[derive(Clone, Copy)]
pub struct GivenCut<'a> {
    pub weight: u64,
    pub lacks: &'a [u32],
}

/// A state as given: its number and atoms, and its cuts if it was pruned.
#[derive(Clone, Copy)]
pub struct GivenState<'a> {
    pub number: u64,
    pub state: &'a [u32],
    pub cuts: Option<&'a [GivenCut<'a>]>,
}

fn cuts_of(alloc: Global, atoms: u32, list: &[GivenCut<'_>]) -> Result<Cuts, NoMemory> {
    let mut cuts = List::empty(alloc);
    for given in list {
        let lacks = list_below(alloc, atoms, given.lacks)?;
        cuts.push(Cut {
            weight: given.weight,
            lacks,
        })?;
    }
    Ok(cuts)
}

fn state_of(alloc: Global, atoms: u32, given: &GivenState<'_>) -> Result<BoundState, NoMemory>
    requires { atoms + 1 < 2 ^ 32 }
{
    let state = set_below(alloc, atoms + 1, atoms, given.state)?;
    let how = match given.cuts {
        None => How::Expanded,
        Some(cuts) => How::Pruned(cuts_of(alloc, atoms, cuts)?),
    };
    Ok(BoundState {
        number: given.number,
        state,
        how,
    })
}

/// The proof of the given states, for a task with the given number of atoms.
pub fn proof_of(
    alloc: Global,
    atoms: u32,
    k: u64,
    list: &[GivenState<'_>],
) -> Result<BoundProof, NoMemory>
    requires { atoms + 1 < 2 ^ 32 }
    ensures { IfOk result (λ proof. proof.k ≡ k) }
{
    let mut states = List::empty(alloc);
    for given in list {
        states.push(state_of(alloc, atoms, given)?)?;
    }
    Ok(BoundProof { k, states })
}
