//! The open list of a search.

ghost use Rattle.std.specs.Prelude.{ℕ, ◌≡◌, [], IfSome, IfNone, OnOk};
ghost use Rattle.task_kit.specs.Queues.{IsOpen, Puts, Takes};

use mre_base::NoMemory;
use std::alloc::Global;
use std::cmp::Reverse;
use std::collections::BinaryHeap;
use std::marker::Model;

/// The open list: places of nodes, each with its cost. The one with the least cost comes next.
#[derive(Drop)]
pub struct Queue {
    heap: BinaryHeap<Reverse<(u64, usize)>>,
}

impl Model for Queue {
    ghost use Rattle.std.specs.Prelude.{List, ℕ, map};
    ghost use Rattle.std.specs.BinaryHeap.{heap_items};

    ghost Value = { List (ℕ × ℕ) };

    ghost view = { λ q. map (λ r. r.0) (heap_items q.heap) };
}

impl Queue {
    /// The empty open list.
    pub fn new(alloc: Global) -> Queue
        ensures { result ≡ [] }
    {
        Queue {
            heap: BinaryHeap::new(alloc),
        }
    }

    pub fn put(&mut self, cost: u64, place: usize) -> Result<(), NoMemory>
        ensures { OnOk result (Puts self.old place self.new) }
    {
        self.heap.push(Reverse((cost, place)))?;
        Ok(())
    }

    /// Takes the place with the least cost.
    pub fn next(&mut self) -> Option<usize>
        ensures some { IfSome result (λ place. Takes self.old place self.new) }
        ensures none { IfNone result ((p : ℕ) → ¬ IsOpen self.old p) }
    {
        let Reverse((_, place)) = self.heap.pop()?;
        Some(place)
    }
}
