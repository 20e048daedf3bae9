//! The closure of a state: the atoms reached by actions of whose cost nothing is left.
ghost use Rattle.std.specs.Prelude.{ℕ, ◌≡◌, ◌+◌, ◌≤◌, ◌<◌, true, length, slice_index, IfOk, OnOk};
ghost use Rattle.std.specs.FinSet as set;
ghost use Rattle.relax_cuts.specs.Closing.{IsUsable, IsClosedUnder, IsLooseWhere, Spreads};
ghost use Rattle.relax_cuts.specs.Closing.{AddsSome};
ghost use Rattle.relax_cuts.specs.BlockedSize.{HasRoom};
ghost use Rattle.task_kit.specs.Tasks.{AllBelow, IsTask, action_at, applies};

use crate::blocked::BlockedActions;
use mre_base::{Bits, NoMemory};
use std::alloc::Global;
use task_kit::TaskView;

/// A set of atoms that grows.
#[derive(Drop)]
pub struct GrowingSet {
    pub among: Bits,
    /// The atoms that no action puts in any more: those of the set, and those that are to stay
    /// outside.
    pub skipped: Bits,
}

// Puts the adds of an action into the set, except the skipped ones.
fn put_adds<T: TaskView>(
    task: &T,
    action: u32,
    growing: &mut GrowingSet,
    blocked: &mut BlockedActions,
) -> Result<(), NoMemory>
    requires listed { action < length (T.seen task.now).actions }
    requires among_width { growing.old.among.width ≡ (T.seen task.now).atoms + 1 }
    requires skipped_width { growing.old.skipped.width ≡ (T.seen task.now).atoms + 1 }
    requires room { HasRoom ((T.seen task.now).atoms + 1) (length (T.seen task.now).actions)
        blocked.old }
    ensures adds { OnOk result (AddsSome (action_at (T.seen task.now) action).add
        growing.old.among.members growing.new.among.members) }
    ensures among_width { OnOk result (growing.new.among.width ≡ growing.old.among.width) }
    ensures skipped_width { OnOk result (growing.new.skipped.width ≡ growing.old.skipped.width) }
    ensures room { OnOk result
        (HasRoom ((T.seen task.now).atoms + 1) (length (T.seen task.now).actions) blocked.new) }
{
    for _ in 0..task.atoms() {
        let Some(atom) = task.outside(action, &growing.skipped) else {
            break;
        };
        growing.skipped.put(atom);
        growing.among.put(atom);
        blocked.release(atom)?;
    }
    Ok(())
}

// Expands an action: puts its adds into the set if it is usable, and otherwise blocks it by its
// least missing precondition.
fn expand<T: TaskView>(
    task: &T,
    left: &Vec<u64>,
    limit: u64,
    action: u32,
    growing: &mut GrowingSet,
    blocked: &mut BlockedActions,
) -> Result<(), NoMemory>
    requires task { IsTask (T.seen task.now) }
    requires listed { action < length (T.seen task.now).actions }
    requires sized { length left.now.items ≡ length (T.seen task.now).actions }
    requires among_width { growing.old.among.width ≡ (T.seen task.now).atoms + 1 }
    requires skipped_width { growing.old.skipped.width ≡ (T.seen task.now).atoms + 1 }
    requires room { HasRoom ((T.seen task.now).atoms + 1) (length (T.seen task.now).actions)
        blocked.old }
    ensures spreads { OnOk result (Spreads (T.seen task.now) left.now.items limit
        growing.old.among.members growing.new.among.members) }
    ensures among_width { OnOk result (growing.new.among.width ≡ growing.old.among.width) }
    ensures skipped_width { OnOk result (growing.new.skipped.width ≡ growing.old.skipped.width) }
    ensures room { OnOk result
        (HasRoom ((T.seen task.now).atoms + 1) (length (T.seen task.now).actions) blocked.new) }
{
    if limit < left[action as usize] {
        return Ok(());
    }
    if task.applies(action, &growing.among) {
        put_adds(task, action, growing, blocked)?;
        return Ok(());
    }
    match task.missing(action, &growing.among) {
        None => Ok(()),
        Some(atom) => {
            blocked.block(action, atom);
            Ok(())
        }
    }
}

fn expand_all<T: TaskView>(
    task: &T,
    left: &Vec<u64>,
    limit: u64,
    growing: &mut GrowingSet,
    blocked: &mut BlockedActions,
) -> Result<(), NoMemory>
    requires task { IsTask (T.seen task.now) }
    requires sized { length left.now.items ≡ length (T.seen task.now).actions }
    requires among_width { growing.old.among.width ≡ (T.seen task.now).atoms + 1 }
    requires skipped_width { growing.old.skipped.width ≡ (T.seen task.now).atoms + 1 }
    requires room { HasRoom ((T.seen task.now).atoms + 1) (length (T.seen task.now).actions)
        blocked.old }
    ensures spreads { OnOk result (Spreads (T.seen task.now) left.now.items limit
        growing.old.among.members growing.new.among.members) }
    ensures among_width { OnOk result (growing.new.among.width ≡ growing.old.among.width) }
    ensures skipped_width { OnOk result (growing.new.skipped.width ≡ growing.old.skipped.width) }
    ensures room { OnOk result
        (HasRoom ((T.seen task.now).atoms + 1) (length (T.seen task.now).actions) blocked.new) }
{
    for action in 0..task.actions() {
        expand(task, left, limit, action, growing, blocked)?;
    }
    Ok(())
}

fn expand_ready<T: TaskView>(
    task: &T,
    left: &Vec<u64>,
    limit: u64,
    growing: &mut GrowingSet,
    blocked: &mut BlockedActions,
) -> Result<(), NoMemory>
    requires task { IsTask (T.seen task.now) }
    requires sized { length left.now.items ≡ length (T.seen task.now).actions }
    requires among_width { growing.old.among.width ≡ (T.seen task.now).atoms + 1 }
    requires skipped_width { growing.old.skipped.width ≡ (T.seen task.now).atoms + 1 }
    requires room { HasRoom ((T.seen task.now).atoms + 1) (length (T.seen task.now).actions)
        blocked.old }
    ensures spreads { OnOk result (Spreads (T.seen task.now) left.now.items limit
        growing.old.among.members growing.new.among.members) }
    ensures among_width { OnOk result (growing.new.among.width ≡ growing.old.among.width) }
    ensures skipped_width { OnOk result (growing.new.skipped.width ≡ growing.old.skipped.width) }
{
    // After its first expansion an action is expanded again only when an atom that blocked it is
    // reached.
    for _ in 0..u64::MAX {
        let Some(action) = blocked.next() else {
            break;
        };
        expand(task, left, limit, action, growing, blocked)?;
    }
    Ok(())
}

/// Lets a set grow by the adds of the actions of whose cost at most `limit` is left, except the
/// atoms that are to stay outside.
pub fn spread<T: TaskView>(
    alloc: Global,
    task: &T,
    left: &Vec<u64>,
    limit: u64,
    growing: &mut GrowingSet,
) -> Result<(), NoMemory>
    requires sized { length left.now.items ≡ length (T.seen task.now).actions }
    requires among_width { growing.old.among.width ≡ (T.seen task.now).atoms + 1 }
    requires skipped_width { growing.old.skipped.width ≡ (T.seen task.now).atoms + 1 }
    ensures spreads { OnOk result (Spreads (T.seen task.now) left.now.items limit
        growing.old.among.members growing.new.among.members) }
    ensures among_width { OnOk result (growing.new.among.width ≡ growing.old.among.width) }
    ensures skipped_width { OnOk result (growing.new.skipped.width ≡ growing.old.skipped.width) }
{
    let mut blocked = BlockedActions::empty(alloc, task.atoms() + 1, task.actions())?;
    expand_all(task, left, limit, growing, &mut blocked)?;
    expand_ready(task, left, limit, growing, &mut blocked)?;
    Ok(())
}

// An atom outside the set, added by a usable action of whose cost nothing is left.
fn loose_atom<T: TaskView>(task: &T, left: &Vec<u64>, among: &Bits) -> Option<u32>
    requires sized { length left.now.items ≡ length (T.seen task.now).actions }
    requires width { among.now.width ≡ (T.seen task.now).atoms + 1 }
    ensures { IsLooseWhere (T.seen task.now) left.now.items 0 among.now.members result }
{
    for action in 0..task.actions() {
        if left[action as usize] == 0 && task.applies(action, among) {
            if let Some(atom) = task.outside(action, among) {
                return Some(atom);
            }
        }
    }
    None
}

// Puts in the atoms that a set lacks to be closed. After `spread` it lacks nothing.
fn settle<T: TaskView>(task: &T, left: &Vec<u64>, among: &mut Bits)
    requires task { IsTask (T.seen task.now) }
    requires sized { length left.now.items ≡ length (T.seen task.now).actions }
    requires width { among.old.width ≡ (T.seen task.now).atoms + 1 }
    ensures spreads { Spreads (T.seen task.now) left.now.items 0 among.old.members
        among.new.members }
    ensures closed { IsClosedUnder (T.seen task.now) left.now.items 0 among.new.members }
    ensures width { among.new.width ≡ among.old.width }
{
    while let Some(atom) = loose_atom(task, left, among) {
        among.put(atom);
    }
}

/// The least set that includes the state and is closed under the actions of whose cost nothing is
/// left.
pub fn close<T: TaskView>(
    alloc: Global,
    task: &T,
    left: &Vec<u64>,
    state: &Bits,
) -> Result<Bits, NoMemory>
    requires sized { length left.now.items ≡ length (T.seen task.now).actions }
    requires width { state.now.width ≡ (T.seen task.now).atoms + 1 }
    ensures spreads { IfOk result (λ closure. Spreads (T.seen task.now) left.now.items 0
        state.now.members closure.members) }
    ensures closed { IfOk result (λ closure. IsClosedUnder (T.seen task.now) left.now.items 0
        closure.members) }
    ensures width { IfOk result (λ closure. closure.width ≡ state.now.width) }
{
    let mut growing = GrowingSet {
        among: state.copy(alloc)?,
        skipped: state.copy(alloc)?,
    };
    spread(alloc, task, left, 0, &mut growing)?;
    let mut closure = growing.among;
    let _atoms = task.atoms();
    settle(task, left, &mut closure);
    Ok(closure)
}
