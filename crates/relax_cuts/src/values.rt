//! The values of atoms by the heuristic h_max: the least cost of making an atom true, where an
//! action costs as much as the dearest of its preconditions and what is left of its own cost.
ghost use Rattle.std.specs.Prelude.{◌≡◌, ◌+◌, ◌<◌, length, OnOk};
ghost use Rattle.relax_cuts.specs.Settlings.{IsSettling};
ghost use Rattle.task_kit.specs.Tasks.{IsTask};

use crate::adding::Adding;
use crate::blocked::BlockedActions;
use mre_base::{Bits, NoMemory};
use std::alloc::Global;
use std::cmp::Reverse;
use std::collections::BinaryHeap;
use task_kit::TaskView;

/// The value of each atom that can be made true, and the precondition of the greatest value of each
/// action that can be made applicable.
pub struct Values {
    of_atoms: Vec<Option<u64>>,
    supporters: Vec<Option<u32>>,
    // Atoms with values. The value with which an atom comes out first is its least.
    queue: BinaryHeap<Reverse<(u64, u32)>>,
}

impl Drop for Values {
    fn drop(self) {
        let Values {
            of_atoms: _,
            supporters: _,
            queue: _,
        } = self;
    }
}

impl Values {
    fn empty(alloc: Global, atoms: u32, actions: u32) -> Result<Values, NoMemory> {
        Ok(Values {
            of_atoms: Vec::from_elem(alloc, None, atoms as usize)?,
            supporters: Vec::from_elem(alloc, None, actions as usize)?,
            queue: BinaryHeap::new(alloc),
        })
    }

    /// The value of an atom, or `None` if nothing can make it true.
    pub fn of_atom(&self, atom: u32) -> Option<u64> {
        self.of_atoms.get(atom as usize).copied().unwrap_or(None)
    }

    /// The precondition of an action with the greatest value, if that value is above 0.
    pub fn supporter(&self, action: u32) -> Option<u32> {
        self.supporters
            .get(action as usize)
            .copied()
            .unwrap_or(None)
    }

    // Gives an atom a value, unless it has one that is at most as great.
    fn lower(&mut self, atom: u32, value: u64) -> Result<(), NoMemory> {
        let at = atom as usize;
        if at < self.of_atoms.len() && is_above(self.of_atoms[at], value) {
            self.of_atoms[at] = Some(value);
            self.queue.push(Reverse((value, atom)))?;
        }
        Ok(())
    }

    // Gives the adds of an action that has become applicable a value.
    fn lower_adds(&mut self, adding: &Adding, action: u32, value: u64) -> Result<(), NoMemory> {
        for add in adding.of_action(action) {
            self.lower(add.atom, value)?;
        }
        Ok(())
    }

    fn support(&mut self, action: u32, atom: Option<u32>) {
        if (action as usize) < self.supporters.len() {
            self.supporters[action as usize] = atom;
        }
    }

    fn next(&mut self) -> Option<(u64, u32)> {
        let Reverse(next) = self.queue.pop()?;
        Some(next)
    }
}

fn is_above(known: Option<u64>, value: u64) -> bool {
    match known {
        None => true,
        Some(known) => value < known,
    }
}

// The atom that was settled last, if there is one, and its value.
#[derive(Clone, Copy)]
struct LastSettled {
    atom: Option<u32>,
    value: u64,
}

// The computation of the values so far: the atoms whose values are settled, the blocked actions,
// and the values.
#[derive(Drop)]
pub struct Settling {
    settled: Bits,
    blocked: BlockedActions,
    values: Values,
}

// Expands an action after an atom was settled: lowers the values of its adds if it is applicable
// now, and otherwise blocks it. Atoms are settled in the order of their values, so the precondition
// that is settled last has the greatest value.
fn expand<T: TaskView>(
    task: &T,
    left: &Vec<u64>,
    adding: &Adding,
    action: u32,
    latest: LastSettled,
    settling: &mut Settling,
) -> Result<(), NoMemory>
    requires task { IsTask (T.seen task.now) }
    requires listed { action < length (T.seen task.now).actions }
    requires sized { length left.now.items ≡ length (T.seen task.now).actions }
    requires settling { IsSettling (T.seen task.now) settling.old }
    ensures { OnOk result (IsSettling (T.seen task.now) settling.new) }
{
    if task.applies(action, &settling.settled) {
        settling.values.support(action, latest.atom);
        let value = latest.value.saturating_add(left[action as usize]);
        settling.values.lower_adds(adding, action, value)?;
        return Ok(());
    }
    match task.missing(action, &settling.settled) {
        None => Ok(()),
        Some(atom) => {
            settling.blocked.block(action, atom);
            Ok(())
        }
    }
}

// Expands each action when only the atoms of the state are settled.
fn expand_all<T: TaskView>(
    task: &T,
    left: &Vec<u64>,
    adding: &Adding,
    settling: &mut Settling,
) -> Result<(), NoMemory>
    requires task { IsTask (T.seen task.now) }
    requires sized { length left.now.items ≡ length (T.seen task.now).actions }
    requires settling { IsSettling (T.seen task.now) settling.old }
    ensures { OnOk result (IsSettling (T.seen task.now) settling.new) }
{
    let latest = LastSettled {
        atom: None,
        value: 0,
    };
    for action in 0..task.actions() {
        expand(task, left, adding, action, latest, settling)?;
    }
    Ok(())
}

// Expands each action that the settled atom blocked.
fn expand_ready<T: TaskView>(
    task: &T,
    left: &Vec<u64>,
    adding: &Adding,
    latest: LastSettled,
    settling: &mut Settling,
) -> Result<(), NoMemory>
    requires task { IsTask (T.seen task.now) }
    requires sized { length left.now.items ≡ length (T.seen task.now).actions }
    requires settling { IsSettling (T.seen task.now) settling.old }
    ensures { OnOk result (IsSettling (T.seen task.now) settling.new) }
{
    for _ in 0..task.actions() {
        let Some(action) = settling.blocked.next() else {
            break;
        };
        expand(task, left, adding, action, latest, settling)?;
    }
    Ok(())
}

// Settles the values, the least first.
fn settle_all<T: TaskView>(
    task: &T,
    left: &Vec<u64>,
    adding: &Adding,
    settling: &mut Settling,
) -> Result<(), NoMemory>
    requires task { IsTask (T.seen task.now) }
    requires sized { length left.now.items ≡ length (T.seen task.now).actions }
    requires settling { IsSettling (T.seen task.now) settling.old }
{
    for _ in 0..u64::MAX {
        let Some((value, atom)) = settling.values.next() else {
            break;
        };
        if atom < task.atoms() && !settling.settled.contains(atom) {
            settling.settled.put(atom);
            settling.blocked.release(atom)?;
            let latest = LastSettled {
                atom: Some(atom),
                value,
            };
            expand_ready(task, left, adding, latest, settling)?;
        }
    }
    Ok(())
}

/// The values of atoms, where the atoms of a state have the value 0, after Bonet and Geffner,
/// "Planning as Heuristic Search" (2001), by Dijkstra's algorithm.
pub fn values_of<T: TaskView>(
    alloc: Global,
    task: &T,
    left: &Vec<u64>,
    adding: &Adding,
    state: &Bits,
) -> Result<Values, NoMemory>
    requires sized { length left.now.items ≡ length (T.seen task.now).actions }
    requires width { state.now.width ≡ (T.seen task.now).atoms + 1 }
{
    let mut settling = Settling {
        settled: state.copy(alloc)?,
        blocked: BlockedActions::empty(alloc, task.atoms() + 1, task.actions())?,
        values: Values::empty(alloc, task.atoms(), task.actions())?,
    };
    expand_all(task, left, adding, &mut settling)?;
    settle_all(task, left, adding, &mut settling)?;
    Ok(settling.values)
}
