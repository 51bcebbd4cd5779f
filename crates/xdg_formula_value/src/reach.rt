//! The nodes to which paths lead from one node, found by a walk from node to node.

ghost use Rattle.std.specs.Prelude.{◌≡◌, ◌<◌, ◌↔◌, ℕ, IsTrue, true};
ghost use Rattle.xdg_facts.specs.Rises.{has};
ghost use Rattle.xdg_problem.specs.Paths.{Above, IsDaughter};
ghost use Rattle.xdg_graph.specs.Edges.{edges_of};
ghost use Rattle.xdg_formula_value.specs.Lost.{Reaches};
ghost use Rattle.xdg_formula_value.specs.Pairs.{Along};

use crate::way::Way;
use xdg_base::{DimId, NodeId};
use xdg_graph::{Which, daughters_of, mothers_of, node_count};
use xdg_nodeset::NodeSet;
use xdg_store::Store;

/// The daughters of a node, or its mothers. A node that the sentence has not has none.
fn next_to(store: &Store, way: Way, which: Which, dim: DimId, node: NodeId) -> NodeSet
    ensures { (x : ℕ) → IsTrue (has result x) ↔ Along way (IsDaughter (edges_of which store.now.parts store.now.now dim.0)) node.0 x }
{
    if node.0 >= node_count(store) {
        return NodeSet::empty();
    }
    match way {
        Way::Down => daughters_of(store, which, dim, node),
        Way::Up => mothers_of(store, which, dim, node),
    }
}

/// The nodes to which paths lead from a node, one way. It takes each of them once.
pub(crate) fn reach(store: &Store, way: Way, which: Which, dim: DimId, node: NodeId) -> NodeSet
    ensures { (x : ℕ) → (has result x ≡ true) ↔ Along way (Above (edges_of which store.now.parts store.now.now dim.0)) node.0 x }
{
    let mut reached = next_to(store, way, which, dim, node);
    let mut taken = NodeSet::empty();
    while let Some(next) = reached.minus(&taken).first() {
        taken.insert(next);
        reached = reached.union(&next_to(store, way, which, dim, next));
    }
    reached
}

/// A node, and those to which paths lead from it, one way.
pub(crate) fn reach_with(store: &Store, way: Way, which: Which, dim: DimId, node: NodeId) -> NodeSet
    requires { node.0 < 128 }
    ensures { (x : ℕ) → Along way (Reaches (edges_of which store.now.parts store.now.now dim.0)) node.0 x → IsTrue (has result x) }
{
    let mut reached = reach(store, way, which, dim, node);
    reached.insert(node);
    reached
}
