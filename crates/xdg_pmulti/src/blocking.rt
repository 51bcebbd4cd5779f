//! Which nodes block which labels.

ghost use Rattle.std.specs.Prelude.{◌≡◌, ◌<◌, ◌↔◌, ◌⊎◌, ℕ, true, IsTrue};
ghost use Rattle.xdg_nodeset.specs.Tables.{InTable};
ghost use Rattle.xdg_facts.specs.Rises.{has};
ghost use Rattle.xdg_problem.specs.Places.{nodes};
ghost use Rattle.xdg_graph.specs.Edges.{edge_labels};
ghost use Rattle.xdg_store.specs.States.{Known};
ghost use Rattle.xdg_pmulti.specs.Aims.{Blocks};

use xdg_base::{DimId, LabelId, NodeId};
use xdg_graph::{each_entry_has, labels_of, node_count};
use xdg_nodeset::NodeSet;
use xdg_problem::Group;
use xdg_store::Store;

/// Whether each remaining entry of a node blocks a label.
fn blocks(store: &Store, group: &Group, node: NodeId, label: LabelId) -> bool
    requires { node.0 < nodes store.now.parts }
    ensures exact { IsTrue result ↔ Blocks group.now store.now.now node.0 label.0 }
    ensures known { Known store.now }
{
    each_entry_has(store, group, node, LabelId(0), u16::from(label.0))
}

/// A set, and a node that is added to it if it blocks a label.
fn with_node(store: &Store, group: &Group, label: LabelId, set: NodeSet, node: NodeId) -> NodeSet
    requires { node.0 < nodes store.now.parts }
    ensures exact { (x : ℕ) → (has result x ≡ true) ↔ ((has set x ≡ true) ⊎ ((x ≡ node.0) × Blocks group.now store.now.now x label.0)) }
    ensures known { Known store.now }
{
    if !blocks(store, group, node, label) {
        return set;
    }
    let mut set = set;
    set.insert(node);
    set
}

/// The nodes that block a label.
fn nodes_blocking(store: &Store, group: &Group, label: LabelId) -> NodeSet
    ensures exact { (x : ℕ) → (has result x ≡ true) ↔ ((x < nodes store.now.parts) × Blocks group.now store.now.now x label.0) }
    ensures known { Known store.now }
{
    let mut set = NodeSet::empty();
    for node in 0..node_count(store) {
        set = with_node(store, group, label, set, NodeId(node));
    }
    set
}

/// For each label of a dimension the nodes that block it.
pub(crate) fn blocking(store: &Store, group: &Group, dim: DimId) -> [NodeSet; 32]
    ensures exact { (label node : ℕ)
        → InTable result label node ↔ ((label < edge_labels store.now.parts dim.0) × (node < nodes store.now.parts) × Blocks group.now store.now.now node label) }
    ensures known { Known store.now }
{
    let mut table = [NodeSet::empty(); 32];
    for label in 0..labels_of(store, dim) {
        table[usize::from(label)] = nodes_blocking(store, group, LabelId(label));
    }
    table
}
