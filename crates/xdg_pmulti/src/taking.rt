//! Edges that lead out of a set of nodes, taken one by one.

ghost use Rattle.std.specs.Prelude.{◌≡◌, ◌<◌, ℕ, true};
ghost use Rattle.xdg_facts.specs.Rises.{has};
ghost use Rattle.xdg_problem.specs.Places.{nodes};
ghost use Rattle.xdg_propcore.specs.Passes.{Clears};
ghost use Rattle.xdg_graph.specs.Edges.{edge_labels};
ghost use Rattle.xdg_store.specs.States.{Known};
ghost use Rattle.xdg_pmulti.specs.Aims.{Beyond, Forbids, Out};

use xdg_base::{DimId, LabelId, NodeId};
use xdg_graph::{Which, daughters_by};
use xdg_nodeset::NodeSet;
use xdg_problem::Edge;
use xdg_propcore::Pass;
use xdg_store::Store;

/// Takes away that an edge with a label out of a node is present, each whose daughter is outside a set.
pub fn forbid_beyond(
    store: &mut Store,
    pass: &mut Pass,
    dim: DimId,
    mother: NodeId,
    label: LabelId,
    within: NodeSet,
)
    requires known { Known store.old }
    requires node { mother.0 < nodes store.old.parts }
    requires label { label.0 < edge_labels store.old.parts dim.0 }
    ensures clears { Clears (Forbids store.old.parts dim.0 (Beyond mother.0 label.0 within)) pass.old store.old pass.new store.new }
    ensures known { Known store.new }
{
    let beyond = daughters_by(store, Which::May, dim, mother, label).minus(&within);
    for daughter in beyond.iter() {
        let edge = Edge {
            dim,
            mother,
            label,
            daughter,
        };
        pass.forbid(store, edge);
    }
}

/// Takes away that an edge with a label out of one of some nodes is present, each whose daughter is outside a set.
pub(crate) fn forbid_out(
    store: &mut Store,
    pass: &mut Pass,
    dim: DimId,
    mothers: NodeSet,
    label: LabelId,
    within: NodeSet,
)
    requires known { Known store.old }
    requires nodes { (u : ℕ) → has mothers u ≡ true → u < nodes store.old.parts }
    requires label { label.0 < edge_labels store.old.parts dim.0 }
    ensures clears { Clears (Forbids store.old.parts dim.0 (Out mothers label.0 within)) pass.old store.old pass.new store.new }
    ensures known { Known store.new }
{
    for mother in mothers.iter() {
        forbid_beyond(store, pass, dim, mother, label, within);
    }
}
