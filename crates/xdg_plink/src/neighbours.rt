//! The edges with a label of a box that may be present, as sets of nodes.

ghost use Rattle.std.specs.Prelude.{◌≡◌, ◌<◌, ◌↔◌, ℕ, IsTrue};
ghost use Rattle.xdg_facts.specs.Rises.{has};
ghost use Rattle.xdg_problem.specs.Paths.{IsDaughterBy};
ghost use Rattle.xdg_problem.specs.Places.{nodes};
ghost use Rattle.xdg_rules.specs.Rules.{may_edges};
ghost use Rattle.xdg_store.specs.States.{Known};

use xdg_base::{DimId, LabelId, NodeId};
use xdg_graph::{Which, daughters_by, labels_of, mothers_by};
use xdg_nodeset::NodeSet;
use xdg_store::Store;

/// The nodes to which an edge with a label may lead from a node.
pub(crate) fn may_daughters(store: &Store, dim: DimId, mother: NodeId, label: u16) -> NodeSet
    requires { mother.0 < nodes store.now.parts }
    ensures exact { (x : ℕ) → IsTrue (has result x) ↔ IsDaughterBy (may_edges store.now.parts store.now.now dim.0) mother.0 label x }
    ensures known { Known store.now }
{
    if label >= u16::from(labels_of(store, dim)) {
        return NodeSet::empty();
    }
    daughters_by(store, Which::May, dim, mother, LabelId(label as u8))
}

/// The nodes from which an edge with a label may lead into a node.
pub(crate) fn may_mothers(store: &Store, dim: DimId, daughter: NodeId, label: u16) -> NodeSet
    requires { daughter.0 < nodes store.now.parts }
    ensures exact { (x : ℕ) → IsTrue (has result x) ↔ IsDaughterBy (may_edges store.now.parts store.now.now dim.0) x label daughter.0 }
    ensures known { Known store.now }
{
    if label >= u16::from(labels_of(store, dim)) {
        return NodeSet::empty();
    }
    mothers_by(store, Which::May, dim, daughter, LabelId(label as u8))
}
