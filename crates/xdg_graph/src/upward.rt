//! The mothers of each node.

ghost use Rattle.std.specs.Prelude.{◌≡◌, ◌<◌, ◌↔◌, ℕ, IsTrue};
ghost use Rattle.xdg_facts.specs.Rises.{has};
ghost use Rattle.xdg_nodeset.specs.Tables.{InTable};
ghost use Rattle.xdg_problem.specs.Paths.{IsDaughter, IsDaughterBy};
ghost use Rattle.xdg_problem.specs.Places.{nodes};
ghost use Rattle.xdg_store.specs.States.{Known};
ghost use Rattle.xdg_graph.specs.Edges.{HasNoneFrom, InSome, IsBlank, edge_labels, edges_of, mothers_in};

use crate::labels::{labels_of, node_count};
use crate::which::Which;
use xdg_base::{DimId, LabelId, NodeId};
use xdg_nodeset::NodeSet;
use xdg_store::{Mothers, Store};

/// The nodes from which an edge with a label leads into a node.
pub fn mothers_by(
    store: &Store,
    which: Which,
    dim: DimId,
    daughter: NodeId,
    label: LabelId,
) -> NodeSet
    requires node { daughter.0 < nodes store.now.parts }
    requires label { label.0 < edge_labels store.now.parts dim.0 }
    ensures exact { (x : ℕ) → IsTrue (has result x) ↔ IsDaughterBy (edges_of which store.now.parts store.now.now dim.0) x label.0 daughter.0 }
    ensures known { Known store.now }
{
    match which {
        Which::May => store.mothers_may(dim, daughter, label),
        Which::Must => store.mothers_must(dim, daughter, label),
    }
}

/// What a row has of the edges that may be present, or of those that must be.
fn mothers_in(which: Which, row: &Mothers) -> NodeSet
    ensures { result ≡ mothers_in which row.now }
{
    match which {
        Which::May => row.may,
        Which::Must => row.must,
    }
}

/// The nodes that some row has.
fn mothers_in_some(which: Which, rows: &[Mothers]) -> NodeSet
    ensures { (x : ℕ) → IsTrue (has result x) ↔ InSome which rows.now x }
{
    let mut mothers = NodeSet::empty();
    for row in rows {
        mothers = mothers.union(&mothers_in(which, row));
    }
    mothers
}

/// The nodes from which an edge leads into a node, on a dimension whose edges have so many labels.
pub(crate) fn mothers_with(
    store: &Store,
    which: Which,
    dim: DimId,
    daughter: NodeId,
    labels: u8,
) -> NodeSet
    requires node { daughter.0 < nodes store.now.parts }
    requires labels { labels ≡ edge_labels store.now.parts dim.0 }
    ensures exact { (x : ℕ) → IsTrue (has result x) ↔ IsDaughter (edges_of which store.now.parts store.now.now dim.0) x daughter.0 }
    ensures known { Known store.now }
{
    mothers_in_some(which, store.mothers_by_label(dim, daughter, labels))
}

/// The nodes from which an edge leads into a node.
pub fn mothers_of(store: &Store, which: Which, dim: DimId, daughter: NodeId) -> NodeSet
    requires { daughter.0 < nodes store.now.parts }
    ensures exact { (x : ℕ) → IsTrue (has result x) ↔ IsDaughter (edges_of which store.now.parts store.now.now dim.0) x daughter.0 }
    ensures known { Known store.now }
{
    mothers_with(store, which, dim, daughter, labels_of(store, dim))
}

/// Notes for each node its mothers; a node that the sentence has not has none.
#[tactic(auto, using(crate::proofs::Noting::noted_next))]
pub(crate) fn note_mothers(table: &mut [NodeSet; 128], store: &Store, which: Which, dim: DimId)
    requires blank { IsBlank table.old }
    ensures exact { (a b : ℕ) → InTable table.new a b ↔ IsDaughter (edges_of which store.now.parts store.now.now dim.0) b a }
    ensures rest { HasNoneFrom (nodes store.now.parts) table.new }
    ensures known { Known store.now }
{
    let labels = labels_of(store, dim);
    for daughter in 0..node_count(store) {
        table[usize::from(daughter)] = mothers_with(store, which, dim, NodeId(daughter), labels);
    }
}

/// For each node its mothers; a node that the sentence has not has none.
pub fn mothers(store: &Store, which: Which, dim: DimId) -> [NodeSet; 128]
    ensures exact { (a b : ℕ) → InTable result a b ↔ IsDaughter (edges_of which store.now.parts store.now.now dim.0) b a }
    ensures rest { HasNoneFrom (nodes store.now.parts) result }
    ensures known { Known store.now }
{
    let mut table = [NodeSet::empty(); 128];
    note_mothers(&mut table, store, which, dim);
    table
}
