//! The log of a search: distinct nodes, up to a limit.
ghost use Rattle.std.specs.Prelude.{◌≡◌, ◌≢◌, ◌<◌, ◌≤◌, [], ◌∷◌, ◌++◌, Some, length, slice_get};
ghost use Rattle.std.specs.Prelude.{Contains, AllPairs, IsTrue, ◌↔◌, IfSome, IfNone, OnOk, OnErr};

use crate::{NoMemory, Node};
use indexmap::IndexSet;
use std::alloc::Global;
use std::marker::Model;

/// A limit and a list of distinct nodes, in the order in which they were pushed.
#[derive(Drop)]
pub struct NodeLog {
    limit: u32,
    nodes: IndexSet<Node>,
}

/// Why a node was not pushed. The log is unchanged.
#[derive(Debug, Drop)]
pub enum PushStop {
    /// The node is in the log, at this place, counted from 0.
    There { place: u32 },
    /// The node isn't in the log, and the log has as many nodes as its limit. The node is given
    /// back.
    Full { node: Node },
    NoMemory,
}

impl Model for NodeLog {
    ghost use Rattle.std.specs.Coded.{codes};
    ghost use Rattle.mre_base.specs.Log.{Log, log_code};

    ghost Value = { Log };

    ghost coded = { log_code };

    ghost use Rattle.mre_base.specs.Log.{IsWithinLimit};

    ghost view = { λ log. record { limit = log.limit; nodes = log.nodes.keys } };

    ghost invariant = { λ log. IsWithinLimit log.limit log.nodes.keys };
}

impl NodeLog {
    ghost use Rattle.mre_base.specs.Log.{PushAnswers};

    /// The empty log. It takes no memory until the first push.
    pub fn new(alloc: Global, limit: u32) -> NodeLog
        ensures { result ≡ record { limit = limit; nodes = [] } }
    {
        NodeLog {
            limit,
            nodes: IndexSet::new(alloc),
        }
    }

    /// Puts a node at the end and gives its place, counted from 0.
    pub fn push(&mut self, node: Node) -> Result<u32, PushStop>
        ensures { PushAnswers self.old self.new node result }
    {
        if let Some(place) = place_of(&self.nodes, &node) {
            return Err(PushStop::There {
                place: place as u32,
            });
        }
        let place = self.nodes.len() as u32;
        if place == self.limit {
            return Err(PushStop::Full { node });
        }
        match insert(&mut self.nodes, node) {
            Ok(()) => Ok(place),
            Err(NoMemory) => Err(PushStop::NoMemory),
        }
    }

    /// The number of nodes.
    pub fn len(&self) -> u32
        ensures len { result ≡ length self.now.nodes }
        ensures within { length self.now.nodes ≤ self.now.limit }
        ensures distinct { AllPairs (λ one two. one ≢ two) self.now.nodes }
    {
        self.nodes.len() as u32
    }

    pub fn is_empty(&self) -> bool
        ensures { IsTrue result ↔ (self.now.nodes ≡ []) }
    {
        self.nodes.is_empty()
    }

    pub fn limit(&self) -> u32
        ensures { result ≡ self.now.limit }
    {
        self.limit
    }

    /// The node at a place, counted from 0.
    pub fn node(&self, place: u32) -> &Node
        requires { place < length self.now.nodes }
        ensures { slice_get self.now.nodes place ≡ Some result.now }
    {
        &self.nodes.as_slice()[place as usize]
    }
}

fn place_of(nodes: &IndexSet<Node>, node: &Node) -> Option<usize>
    ensures there { IfSome result (λ place. slice_get nodes.now.keys place ≡ Some node.now) }
    ensures absent { IfNone result (¬ Contains nodes.now.keys node.now) }
{
    nodes.get_index_of(node)
}

fn insert(nodes: &mut IndexSet<Node>, node: Node) -> Result<(), NoMemory>
    requires { ¬ Contains nodes.old.keys node }
    ensures ok { OnOk result (nodes.new.keys ≡ nodes.old.keys ++ node ∷ []) }
    ensures err { OnErr result (nodes.new.keys ≡ nodes.old.keys) }
{
    nodes.insert(node)?;
    Ok(())
}
