//! A plain search for a cheapest list of actions below a cost.

ghost use Rattle.std.specs.Prelude.{ℕ, ◌≡◌, ◌≢◌, ◌+◌, ◌^◌, ◌<◌, ◌≤◌, Some, length, slice_get};
ghost use Rattle.std.specs.Prelude.{reverse, IfOk, OnOk};
ghost use Rattle.task_kit.specs.declared.reached.SearchNode.{SearchNode};
ghost use Rattle.task_kit.specs.Bounds.{IsCheapestBelow};
ghost use Rattle.task_kit.specs.Reached.{reached};
ghost use Rattle.task_kit.specs.Searching.{IsTrail, Grows, IsReached, AreSettled, AreSettledBut};
ghost use Rattle.task_kit.specs.Searching.{IsFound, IsPathBack};

use crate::price::price_of;
use crate::reached::{SearchNode, Table};
use crate::view::TaskView;
use mre_base::{Bits, List, NoMemory};
use std::alloc::Global;

// The state of the node that is expanded, and one of its successors.
struct Scratch {
    from: Bits,
    into: Bits,
}

impl Drop for Scratch {
    fn drop(self) {
        let Scratch { from: _, into: _ } = self;
    }
}

// A node that is expanded: its place, the node, and the bound below which lists count.
#[derive(Clone, Copy)]
struct Expansion {
    at: usize,
    node: SearchNode,
    bound: u64,
}

// The bound below which lists still count, and the place of the goal node that set it.
#[derive(Drop)]
struct Found {
    bound: u64,
    foil: Option<usize>,
}

// Notes the successor by one action.
fn note_successor<T: TaskView>(
    task: &T,
    table: &mut Table,
    scratch: &mut Scratch,
    expansion: &Expansion,
    action: u32,
) -> Result<(), NoMemory>
    requires listed { action < length (T.seen task.now).actions }
    requires trail { IsTrail (T.seen task.now) (reached table.old) }
    requires node { slice_get (reached table.old).nodes expansion.now.at ≡ Some expansion.now.node }
    requires from { slice_get (reached table.old).states expansion.now.node.state
        ≡ Some scratch.old.from }
    requires from_width { scratch.old.from.width ≡ (T.seen task.now).atoms + 1 }
    requires into_width { scratch.old.into.width ≡ (T.seen task.now).atoms + 1 }
    requires cheap { expansion.now.node.cost < expansion.now.bound }
    requires low { expansion.now.bound < 2 ^ 46 }
    ensures trail { OnOk result (IsTrail (T.seen task.now) (reached table.new)) }
    ensures grows { OnOk result (Grows (reached table.old) (reached table.new)) }
    ensures reached { OnOk result (IsReached (T.seen task.now) expansion.now.bound
        (reached table.new) scratch.old.from.members expansion.now.node.cost action) }
    ensures from { scratch.new.from ≡ scratch.old.from }
    ensures into { scratch.new.into.width ≡ scratch.old.into.width }
{
    if !task.applies(action, &scratch.from) {
        return Ok(());
    }
    let cost = expansion.node.cost + price_of(task, action);
    if expansion.bound <= cost {
        return Ok(());
    }
    task.next_into(action, &scratch.from, &mut scratch.into);
    table.note(&scratch.into, cost, expansion.at, action)?;
    Ok(())
}

// Notes all successors.
fn note_successors<T: TaskView>(
    task: &T,
    table: &mut Table,
    scratch: &mut Scratch,
    expansion: &Expansion,
) -> Result<(), NoMemory>
    requires trail { IsTrail (T.seen task.now) (reached table.old) }
    requires node { slice_get (reached table.old).nodes expansion.now.at ≡ Some expansion.now.node }
    requires from { slice_get (reached table.old).states expansion.now.node.state
        ≡ Some scratch.old.from }
    requires from_width { scratch.old.from.width ≡ (T.seen task.now).atoms + 1 }
    requires into_width { scratch.old.into.width ≡ (T.seen task.now).atoms + 1 }
    requires cheap { expansion.now.node.cost < expansion.now.bound }
    requires low { expansion.now.bound < 2 ^ 46 }
    ensures trail { OnOk result (IsTrail (T.seen task.now) (reached table.new)) }
    ensures grows { OnOk result (Grows (reached table.old) (reached table.new)) }
    ensures reached { OnOk result ((action : ℕ) → IsReached (T.seen task.now) expansion.now.bound
        (reached table.new) scratch.old.from.members expansion.now.node.cost action) }
    ensures from { scratch.new.from ≡ scratch.old.from }
    ensures into { scratch.new.into.width ≡ scratch.old.into.width }
{
    for action in 0..task.actions() {
        note_successor(task, table, scratch, expansion, action)?;
    }
    Ok(())
}

// Expands a node taken from the open list: lowers the bound if the node reaches the goal, and notes
// the successors of its state otherwise.
fn expand<T: TaskView>(
    task: &T,
    table: &mut Table,
    scratch: &mut Scratch,
    found: &mut Found,
    at: usize,
) -> Result<(), NoMemory>
    requires trail { IsTrail (T.seen task.now) (reached table.old) }
    requires settled { AreSettledBut (T.seen task.now) found.old.bound (reached table.old) at }
    requires at { at < length (reached table.old).nodes }
    requires from_width { scratch.old.from.width ≡ (T.seen task.now).atoms + 1 }
    requires into_width { scratch.old.into.width ≡ (T.seen task.now).atoms + 1 }
    requires low { found.old.bound < 2 ^ 46 }
    ensures trail { OnOk result (IsTrail (T.seen task.now) (reached table.new)) }
    ensures settled { OnOk result (AreSettled (T.seen task.now) found.new.bound
        (reached table.new)) }
    ensures grows { OnOk result (Grows (reached table.old) (reached table.new)) }
    ensures found { (first : ℕ)
        → IsFound (T.seen task.now) (reached table.old) first found.old.bound found.old.foil
        → OnOk result (IsFound (T.seen task.now) (reached table.new) first
        found.new.bound found.new.foil) }
    ensures bound { found.new.bound ≤ found.old.bound }
    ensures from_width { scratch.new.from.width ≡ scratch.old.from.width }
    ensures into_width { scratch.new.into.width ≡ scratch.old.into.width }
{
    let node = table.node(at);
    if found.bound <= node.cost {
        return Ok(());
    }
    if table.is_beaten(node) {
        return Ok(());
    }
    scratch.from.copy_from(table.state(node.state));
    if task.goal().is_subset(&scratch.from) {
        found.bound = node.cost;
        found.foil = Some(at);
        return Ok(());
    }
    let expansion = Expansion {
        at,
        node,
        bound: found.bound,
    };
    note_successors(task, table, scratch, &expansion)?;
    Ok(())
}

// The actions on the path to a node, the last one first.
fn path_back(alloc: Global, table: &Table, place: usize) -> Result<Vec<u32>, NoMemory>
    requires place { place < length (reached table.now).nodes }
    requires earlier { (at : ℕ) (node : SearchNode)
        → slice_get (reached table.now).nodes at ≡ Some node → at ≢ 0 → node.parent < at }
    ensures { IfOk result (λ back. IsPathBack (reached table.now).nodes place back.items) }
{
    let mut back = Vec::new(alloc);
    let mut at = place;
    while at != 0 {
        let node = table.node(at);
        back.push(node.action)?;
        at = node.parent;
    }
    Ok(back)
}

fn reverse_in_place(list: &mut Vec<u32>)
    ensures { list.new.items ≡ reverse list.old.items }
{
    list.as_mut_slice().reverse();
}

// A copy as a `List`.
fn listed(alloc: Global, from: &Vec<u32>) -> Result<List<u32>, NoMemory>
    ensures { IfOk result (λ list. list ≡ from.now.items) }
{
    let mut list = List::empty(alloc);
    for &item in from {
        list.push(item)?;
    }
    Ok(list)
}

/// The cheapest valid list, if some valid list costs less than `k`, and `None` if no valid list of
/// any length does. Nodes are expanded in the order of their costs, and of each state only the
/// cheapest.
pub fn cheapest_below<T: TaskView>(
    alloc: Global,
    task: &T,
    k: u64,
) -> Result<Option<List<u32>>, NoMemory>
    requires { k < 2 ^ 46 }
    ensures { IfOk result (λ found. IsCheapestBelow (T.seen task.now) k found) }
{
    let mut table = Table::from_start(alloc, task.start())?;
    let mut scratch = Scratch {
        from: task.start().copy(alloc)?,
        into: task.start().copy(alloc)?,
    };
    let mut found = Found {
        bound: k,
        foil: None,
    };
    while let Some(at) = table.next() {
        expand(task, &mut table, &mut scratch, &mut found, at)?;
    }
    match found.foil {
        None => Ok(None),
        Some(place) => {
            let mut back = path_back(alloc, &table, place)?;
            reverse_in_place(&mut back);
            Ok(Some(listed(alloc, &back)?))
        }
    }
}
