//! Logging nodes, each once.
ghost use Rattle.std.specs.Prelude.{◌≡◌, IfOk, OnOk, OnErr, IfErr};
ghost use Rattle.search_log.specs.Logging.{Logs, StopsAt};
ghost use Rattle.search_log.specs.Nodes.{probe_node, state_node};

use crate::stop::SearchStop;
use cube_kit::Cube;
use mre_base::{Bits, NoMemory, Node, NodeLog, PushStop};
use std::alloc::Global;

/// The node of a search that begins in a cube.
pub fn probe_of(cube: &Cube) -> Node
    ensures { result ≡ probe_node cube.now }
{
    Node::Probe {
        told: cube.told.copy(),
        left: cube.left.copy(),
    }
}

/// The node of a state that a search in a cube expands.
pub fn state_of(alloc: Global, cube: &Cube, state: &Bits) -> Result<Node, NoMemory>
    ensures { IfOk result (λ node. node ≡ state_node cube.now state.now) }
{
    let state = state.copy(alloc)?;
    Ok(Node::State {
        told: cube.told.copy(),
        left: cube.left.copy(),
        state,
    })
}

/// Puts a node at the end of the log, unless the log has it already.
pub fn log_node(log: &mut NodeLog, node: Node) -> Result<(), SearchStop>
    ensures ok { OnOk result (Logs log.old node log.new) }
    ensures err { OnErr result (log.new ≡ log.old) }
    ensures stop { IfErr result (StopsAt log.new node) }
{
    match log.push(node) {
        Ok(_) => Ok(()),
        Err(PushStop::There { place: _ }) => Ok(()),
        Err(PushStop::Full { node }) => Err(SearchStop::Spent { due: node }),
        Err(PushStop::NoMemory) => Err(SearchStop::NoMemory),
    }
}
