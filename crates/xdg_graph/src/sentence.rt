//! All nodes of a sentence, and those up to one.

ghost use Rattle.std.specs.Prelude.{◌≡◌, ◌↔◌, ◌<◌, ◌≤◌, ℕ, true};
ghost use Rattle.xdg_facts.specs.Rises.{has};
ghost use Rattle.xdg_problem.specs.Places.{nodes};
ghost use Rattle.xdg_store.specs.States.{Known};
ghost use Rattle.xdg_graph.specs.Every.{IsEvery};

use crate::labels::node_count;
use xdg_base::NodeId;
use xdg_nodeset::NodeSet;
use xdg_store::Store;

/// The nodes up to one.
pub fn up_to(node: NodeId) -> NodeSet
    requires { node.0 < 128 }
    ensures { (v : ℕ) → (has result v ≡ true) ↔ (v ≤ node.0) }
{
    let mut front = NodeSet::between(NodeId(0), node);
    front.insert(NodeId(0));
    front.insert(node);
    front
}

/// The nodes of the sentence, at most 128.
pub fn every_node(store: &Store) -> NodeSet
    ensures all { IsEvery (nodes store.now.parts) result }
    ensures few { nodes store.now.parts ≤ 128 }
    ensures known { Known store.now }
{
    up_to(NodeId(node_count(store) - 1))
}
