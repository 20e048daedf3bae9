//! The nodes of a search: the states that it has reached, and how.
ghost use Rattle.std.specs.Prelude.{ℕ, ◌≡◌, ◌<◌, ◌++◌, ◌∷◌, [], Some, length, slice_get, Contains};
ghost use Rattle.std.specs.Prelude.{IsTrue, IfSome, IfNone, IfOk, OnOk};
ghost use Rattle.task_kit.specs.declared.reached.SearchNode.{SearchNode};
ghost use Rattle.task_kit.specs.Queues.{IsOpen, Puts, Takes};
ghost use Rattle.task_kit.specs.Reached.{reached, nothing, IsIndexed, IsBeaten, Adds, Notes};

use crate::queue::Queue;
use indexmap::IndexSet;
use mre_base::{Bits, NoMemory};
use std::alloc::Global;

/// A path from the start to a state, as its last node: the place of the state, the cost of the
/// path, and the place of the node before it with the action that leads from there. The first node
/// has no step.
#[derive(Clone, Copy)]
pub struct SearchNode {
    pub state: usize,
    pub cost: u64,
    pub parent: usize,
    pub action: u32,
}

/// The states in the order in which they were reached, with the latest node of each, which is its
/// cheapest so far.
pub struct Table {
    alloc: Global,
    states: IndexSet<Bits>,
    last: Vec<usize>,
    nodes: Vec<SearchNode>,
    open_nodes: Queue,
}

impl Drop for Table {
    fn drop(self) {
        let Table {
            alloc: _,
            states: _,
            last: _,
            nodes: _,
            open_nodes: _,
        } = self;
    }
}

fn place_of(states: &IndexSet<Bits>, state: &Bits) -> Option<usize>
    ensures there { IfSome result (λ place. slice_get states.now.keys place ≡ Some state.now) }
    ensures absent { IfNone result (¬ Contains states.now.keys state.now) }
{
    states.get_index_of(state)
}

fn insert(states: &mut IndexSet<Bits>, state: Bits) -> Result<(), NoMemory>
    requires { ¬ Contains states.old.keys state }
    ensures { OnOk result (states.new.keys ≡ states.old.keys ++ state ∷ []) }
{
    states.insert(state)?;
    Ok(())
}

// The cost of the latest node of the state at a place.
fn last_cost(last: &Vec<usize>, nodes: &Vec<SearchNode>, place: usize) -> u64
    requires place { place < length last.now.items }
    requires held { (at : ℕ) → slice_get last.now.items place ≡ Some at
        → at < length nodes.now.items }
    ensures { (at : ℕ) (node : SearchNode) → slice_get last.now.items place ≡ Some at →
        slice_get nodes.now.items at ≡ Some node → result ≡ node.cost }
{
    nodes[last[place]].cost
}

impl Table {
    /// The table whose only node is the start.
    pub fn from_start(alloc: Global, start: &Bits) -> Result<Table, NoMemory>
        ensures indexed { IfOk result (λ table. IsIndexed (reached table)) }
        ensures adds { IfOk result (λ table. Adds nothing start.now 0 0 0 (reached table)) }
    {
        let mut table = Table {
            alloc,
            states: IndexSet::new(alloc),
            last: Vec::new(alloc),
            nodes: Vec::new(alloc),
            open_nodes: Queue::new(alloc),
        };
        table.note(start, 0, 0, 0)?;
        Ok(table)
    }

    /// Adds a node for a state, unless the state has a node that costs no more.
    pub fn note(
        &mut self,
        state: &Bits,
        cost: u64,
        parent: usize,
        action: u32,
    ) -> Result<(), NoMemory>
        requires { IsIndexed (reached self.old) }
        ensures indexed { OnOk result (IsIndexed (reached self.new)) }
        ensures notes { OnOk result
            (Notes (reached self.old) state.now cost parent action (reached self.new)) }
    {
        match place_of(&self.states, state) {
            Some(place) => {
                if last_cost(&self.last, &self.nodes, place) <= cost {
                    return Ok(());
                }
                self.last[place] = self.nodes.len();
                self.add_node(place, cost, parent, action)?;
                Ok(())
            }
            None => {
                let place = self.states.len();
                insert(&mut self.states, state.copy(self.alloc)?)?;
                self.last.push(self.nodes.len())?;
                self.add_node(place, cost, parent, action)?;
                Ok(())
            }
        }
    }

    // Adds a node for the state at a place to the nodes and to the open list.
    fn add_node(
        &mut self,
        state: usize,
        cost: u64,
        parent: usize,
        action: u32,
    ) -> Result<(), NoMemory>
        ensures nodes { OnOk result (self.new.nodes.items ≡ self.old.nodes.items
            ++ (record { state = state; cost = cost; parent = parent; action = action }) ∷ []) }
        ensures open_nodes { OnOk result
            (Puts self.old.open_nodes (length self.old.nodes.items) self.new.open_nodes) }
        ensures states { self.new.states.keys ≡ self.old.states.keys }
        ensures last { self.new.last.items ≡ self.old.last.items }
    {
        let at = self.nodes.len();
        self.nodes.push(SearchNode {
            state,
            cost,
            parent,
            action,
        })?;
        self.open_nodes.put(cost, at)?;
        Ok(())
    }

    /// Takes the open node with the least cost.
    pub fn next(&mut self) -> Option<usize>
        ensures some { IfSome result (λ at. Takes self.old.open_nodes at self.new.open_nodes) }
        ensures none { IfNone result ((at : ℕ) → ¬ IsOpen self.old.open_nodes at) }
        ensures rest { reached self.new
            ≡ record (reached self.old) { open_nodes = self.new.open_nodes } }
    {
        self.open_nodes.next()
    }

    pub fn node(&self, at: usize) -> SearchNode
        requires { at < length self.now.nodes.items }
        ensures { slice_get self.now.nodes.items at ≡ Some result }
    {
        self.nodes[at]
    }

    pub fn state(&self, place: usize) -> &Bits
        requires { place < length self.now.states.keys }
        ensures { slice_get self.now.states.keys place ≡ Some result.now }
    {
        &self.states.as_slice()[place]
    }

    /// Whether the node's state has a cheaper node.
    pub fn is_beaten(&self, node: SearchNode) -> bool
        requires indexed { IsIndexed (reached self.now) }
        requires stated { node.state < length self.now.states.keys }
        ensures { IsTrue result → IsBeaten (reached self.now) node }
    {
        last_cost(&self.last, &self.nodes, node.state) < node.cost
    }
}
