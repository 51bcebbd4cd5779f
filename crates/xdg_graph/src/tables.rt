//! The daughters of each node.

ghost use Rattle.std.specs.Prelude.{◌≡◌, ◌<◌, ◌↔◌, ◌⊎◌, ℕ, [], true, IsTrue, slice_index_or};
ghost use Rattle.xdg_facts.specs.Rises.{has};
ghost use Rattle.xdg_nodeset.specs.Tables.{InTable};
ghost use Rattle.xdg_problem.specs.Paths.{IsDaughter, IsDaughterBy};
ghost use Rattle.xdg_problem.specs.Places.{nodes};
ghost use Rattle.xdg_store.specs.States.{Known};
ghost use Rattle.xdg_graph.specs.Edges.{HasNoneFrom, IsBlank, edge_labels, edges_of};

use crate::labels::{labels_of, node_count};
use crate::upward::mothers_with;
use crate::which::Which;
use xdg_base::{DimId, LabelId, NodeId};
use xdg_nodeset::NodeSet;
use xdg_store::Store;

/// The set that a table has for a node.
pub fn set_at(table: &[NodeSet; 128], node: NodeId) -> NodeSet
    requires { node.0 < 128 }
    ensures { result ≡ slice_index_or table.now node.0 [] }
{
    table[usize::from(node.0)]
}

/// The nodes to which an edge with a label leads from a node.
pub fn daughters_by(
    store: &Store,
    which: Which,
    dim: DimId,
    mother: NodeId,
    label: LabelId,
) -> NodeSet
    requires node { mother.0 < nodes store.now.parts }
    requires label { label.0 < edge_labels store.now.parts dim.0 }
    ensures exact { (x : ℕ) → IsTrue (has result x) ↔ IsDaughterBy (edges_of which store.now.parts store.now.now dim.0) mother.0 label.0 x }
    ensures known { Known store.now }
{
    match which {
        Which::May => store.daughters_may(dim, mother, label),
        Which::Must => store.daughters_must(dim, mother, label),
    }
}

/// The nodes to which an edge leads from a node.
#[tactic(auto, using(crate::proofs::Edges::below_start, crate::proofs::Edges::below_next))]
pub fn daughters_of(store: &Store, which: Which, dim: DimId, mother: NodeId) -> NodeSet
    requires { mother.0 < nodes store.now.parts }
    ensures exact { (x : ℕ) → IsTrue (has result x) ↔ IsDaughter (edges_of which store.now.parts store.now.now dim.0) mother.0 x }
    ensures known { Known store.now }
{
    let mut daughters = NodeSet::empty();
    for label in 0..labels_of(store, dim) {
        daughters = daughters.union(&daughters_by(store, which, dim, mother, LabelId(label)));
    }
    daughters
}

/// Notes for each node those to which an edge leads that may be present.
#[tactic(auto, using(crate::proofs::Noting::noted_next))]
fn note_may(table: &mut [NodeSet; 128], store: &Store, dim: DimId)
    requires blank { IsBlank table.old }
    ensures exact { (a b : ℕ) → InTable table.new a b ↔ IsDaughter (edges_of Which.May store.now.parts store.now.now dim.0) a b }
    ensures known { Known store.now }
{
    for mother in 0..node_count(store) {
        table[usize::from(mother)] = daughters_of(store, Which::May, dim, NodeId(mother));
    }
}

/// Adds to a table that it leads from a node to another.
#[tactic(auto, using(xdg_nodeset::proofs::TableSets::added))]
fn add(table: &mut [NodeSet; 128], from: NodeId, to: NodeId)
    requires from { from.0 < 128 }
    requires to { to.0 < 128 }
    ensures { (a b : ℕ) → InTable table.new a b ↔ (InTable table.old a b ⊎ ((from.0 ≡ a) × (to.0 ≡ b))) }
{
    table[usize::from(from.0)].insert(to);
}

/// Adds to a table that it leads from some nodes to one.
fn add_all(table: &mut [NodeSet; 128], mothers: NodeSet, daughter: NodeId)
    requires { daughter.0 < 128 }
    ensures { (a b : ℕ) → InTable table.new a b ↔ (InTable table.old a b ⊎ ((has mothers a ≡ true) × (daughter.0 ≡ b))) }
{
    for mother in mothers.iter() {
        add(table, mother, daughter);
    }
}

/// Notes for each node those to which an edge leads that must be present. Few edges must be, so that it goes from each daughter to its mothers.
fn note_must(table: &mut [NodeSet; 128], store: &Store, dim: DimId)
    requires blank { IsBlank table.old }
    ensures exact { (a b : ℕ) → InTable table.new a b ↔ IsDaughter (edges_of Which.Must store.now.parts store.now.now dim.0) a b }
    ensures known { Known store.now }
{
    let labels = labels_of(store, dim);
    if labels == 0 {
        return;
    }
    let rows = store.labels_by_daughter(dim);
    for daughter in 0..node_count(store) {
        let into = rows[usize::from(daughter)];
        if into.must.some == 0 {
            continue;
        }
        let mothers = mothers_with(store, Which::Must, dim, NodeId(daughter), labels);
        add_all(table, mothers, NodeId(daughter));
    }
}

/// Notes for each node its daughters; a node that the sentence has not has none.
pub(crate) fn note_daughters(table: &mut [NodeSet; 128], store: &Store, which: Which, dim: DimId)
    requires blank { IsBlank table.old }
    ensures exact { (a b : ℕ) → InTable table.new a b ↔ IsDaughter (edges_of which store.now.parts store.now.now dim.0) a b }
    ensures rest { HasNoneFrom (nodes store.now.parts) table.new }
    ensures known { Known store.now }
{
    match which {
        Which::May => note_may(table, store, dim),
        Which::Must => note_must(table, store, dim),
    }
}

/// For each node its daughters; a node that the sentence has not has none.
pub fn daughters(store: &Store, which: Which, dim: DimId) -> [NodeSet; 128]
    ensures exact { (a b : ℕ) → InTable result a b ↔ IsDaughter (edges_of which store.now.parts store.now.now dim.0) a b }
    ensures rest { HasNoneFrom (nodes store.now.parts) result }
    ensures known { Known store.now }
{
    let mut table = [NodeSet::empty(); 128];
    note_daughters(&mut table, store, which, dim);
    table
}
