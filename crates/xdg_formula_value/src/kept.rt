//! Paths that are as they were at a mark.

ghost use Rattle.std.specs.Prelude.{◌≡◌, ◌<◌, ◌↔◌, ℕ, IsTrue, true};
ghost use Rattle.xdg_facts.specs.Rises.{has};
ghost use Rattle.xdg_problem.specs.Analyses.{IsPlace};
ghost use Rattle.xdg_problem.specs.Places.{nodes};
ghost use Rattle.xdg_graph.specs.Edges.{edge_labels};
ghost use Rattle.xdg_store.specs.Decisions.{IsDecision};
ghost use Rattle.xdg_store.specs.declared.decision.Decision.TheVariants as decisions;
ghost use Rattle.xdg_propcore.specs.Standing.{box_at};
ghost use Rattle.xdg_formula_value.specs.Lost.{AllLast, HasEarlier, IsEdgeOf, KeepsPath, Lasts, PathsStay};

use xdg_base::{DimId, LabelId, NodeId};
use xdg_graph::{Which, daughters_by, labels_of, node_count};
use xdg_nodeset::NodeSet;
use xdg_problem::Edge;
use xdg_store::{Decision, Mark, Store};

/// Whether an edge is on a dimension.
fn is_on(edge: Edge, dim: DimId) -> bool
    ensures { IsTrue result ↔ (edge.dim.0 ≡ dim.0) }
{
    edge.dim.0 == dim.0
}

/// Whether an edge is on a dimension, has a label and leads from a node.
fn is_out(edge: Edge, dim: DimId, mother: NodeId, label: LabelId) -> bool
    ensures { IsTrue result ↔ ((edge.dim.0 ≡ dim.0) × (edge.mother.0 ≡ mother.0) × (edge.label.0 ≡ label.0)) }
{
    edge.dim.0 == dim.0 && edge.mother.0 == mother.0 && edge.label.0 == label.0
}

/// Some nodes without the daughter of an edge, if it is on a dimension, has a label and leads from a node.
fn but_edge(row: NodeSet, edge: Edge, dim: DimId, mother: NodeId, label: LabelId) -> NodeSet
    requires { edge.daughter.0 < 128 }
    ensures { (x : ℕ) → has result x ≡ true → (has row x ≡ true) × (IsEdgeOf (decisions.Place edge) dim.0 mother.0 label.0 x → ⊥) }
{
    if !is_out(edge, dim, mother, label) {
        return row;
    }
    let mut rest = row;
    rest.remove(edge.daughter);
    rest
}

/// The same for the edge of a decision.
fn but(
    store: &Store,
    row: NodeSet,
    decision: Decision,
    dim: DimId,
    mother: NodeId,
    label: LabelId,
) -> NodeSet
    requires { IsDecision store.now.parts decision }
    ensures { (x : ℕ) → has result x ≡ true → (has row x ≡ true) × (IsEdgeOf decision dim.0 mother.0 label.0 x → ⊥) }
{
    // Each store holds a sentence of at most 128 words.
    let _ = node_count(store);
    match decision {
        Decision::Entry(_) => row,
        Decision::Attr(_, _, _) => row,
        Decision::Place(edge) => but_edge(row, edge, dim, mother, label),
    }
}

/// Nodes to which edges with a label lead from a node, and led at a mark.
fn lasting_by(
    store: &Store,
    which: Which,
    dim: DimId,
    mother: NodeId,
    label: LabelId,
    since: Mark,
) -> NodeSet
    requires earlier { HasEarlier store.now since }
    requires mother { mother.0 < nodes store.now.parts }
    requires label { label.0 < edge_labels store.now.parts dim.0 }
    ensures { AllLast which store.now.parts (box_at store.now since) store.now.now dim.0 mother.0 result }
{
    let mut row = daughters_by(store, which, dim, mother, label);
    for decision in store.removed_since(since) {
        row = but(store, row, *decision, dim, mother, label);
    }
    row
}

/// Nodes to which edges lead from a node, and led at a mark.
fn lasting(store: &Store, which: Which, dim: DimId, mother: NodeId, since: Mark) -> NodeSet
    requires earlier { HasEarlier store.now since }
    requires mother { mother.0 < nodes store.now.parts }
    ensures { AllLast which store.now.parts (box_at store.now since) store.now.now dim.0 mother.0 result }
{
    let mut row = NodeSet::empty();
    for label in 0..labels_of(store, dim) {
        row = row.union(&lasting_by(store, which, dim, mother, LabelId(label), since));
    }
    row
}

/// Whether a path leads from the mother of an edge to the daughter, and led at a mark, along edges that were there all the time. It goes
/// from node to node until it has found the daughter.
fn leads(store: &Store, which: Which, edge: Edge, since: Mark) -> bool
    requires earlier { HasEarlier store.now since }
    requires place { IsPlace store.now.parts edge }
    ensures { IsTrue result → Lasts which store.now.parts (box_at store.now since) store.now.now edge.dim.0 edge.mother.0 edge.daughter.0 }
{
    let size = node_count(store);
    let mut reached = lasting(store, which, edge.dim, edge.mother, since);
    let mut ahead = reached;
    for _turn in 0..size {
        if reached.contains(edge.daughter) {
            return true;
        }
        let Some(node) = ahead.first() else {
            return false;
        };
        let more = lasting(store, which, edge.dim, node, since);
        ahead.remove(node);
        ahead = ahead.union(&more.minus(&reached));
        reached = reached.union(&more);
    }
    false
}

/// Whether paths lead from the mother of an edge to the daughter as they did at a mark, if the edge has become one that must be or may not be.
fn keeps_edge(store: &Store, edge: Edge, since: Mark) -> bool
    requires earlier { HasEarlier store.now since }
    requires place { IsPlace store.now.parts edge }
    ensures { IsTrue result → KeepsPath store.now.parts (box_at store.now since) store.now.now edge.dim.0 (decisions.Place edge) }
{
    if store.must(edge) {
        return leads(store, Which::Must, edge, since);
    }
    if store.may(edge) {
        return true;
    }
    leads(store, Which::May, edge, since)
}

/// The same for the edge of a decision, if it is one of a dimension.
fn keeps_path(store: &Store, dim: DimId, decision: Decision, since: Mark) -> bool
    requires earlier { HasEarlier store.now since }
    requires decision { IsDecision store.now.parts decision }
    ensures { IsTrue result → KeepsPath store.now.parts (box_at store.now since) store.now.now dim.0 decision }
{
    match decision {
        Decision::Entry(_) => true,
        Decision::Attr(_, _, _) => true,
        Decision::Place(edge) => {
            if !is_on(edge, dim) {
                return true;
            }
            keeps_edge(store, edge, since)
        }
    }
}

/// Whether the paths of a dimension are as they were at a mark: each edge that must be since then leads where others led, and each that may
/// be no more leads where others lead. It says no also where that isn't seen along edges that were there all the time.
pub(crate) fn are_paths_kept(store: &Store, dim: DimId, since: Mark) -> bool
    requires earlier { HasEarlier store.now since }
    ensures { IsTrue result → PathsStay store.now.parts (box_at store.now since) store.now.now dim.0 }
{
    for decision in store.removed_since(since) {
        if !keeps_path(store, dim, *decision, since) {
            return false;
        }
    }
    true
}
