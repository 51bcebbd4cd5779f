//! Edges by their daughters.

ghost use Rattle.std.specs.Prelude.{◌≡◌, ℕ, ◌<◌, ◌≤◌, ◌+◌, ◌*◌, All, drop, length, nat_lt, take};
ghost use Rattle.xdg_facts.specs.Rises.{has};
ghost use Rattle.xdg_problem.specs.Analyses.{IsPlace};
ghost use Rattle.xdg_store.specs.Across.{AreFull, Fits, FitsIn, IsFull, edge_at, in_may, in_must, mothers_at, no_mothers};
ghost use Rattle.xdg_store.specs.Across.{Forbids, Forces, Renews, RenewsAll, RenewsBy, RenewsOf};
ghost use Rattle.xdg_store.specs.Decisions.{IsDecision};
ghost use Rattle.xdg_store.specs.Labels.{StaysTold};
ghost use Rattle.xdg_store.specs.Layout.{edge_bit};

use crate::change::Change;
use crate::decision::Decision;
use crate::labels::{LabelsInto, renew_side};
use crate::layout::edge_row;
use crate::rows::is_set;
use xdg_base::{DimId, LabelId, NodeId};
use xdg_nodeset::NodeSet;
use xdg_problem::Edge;
use xdg_trail::Trail;

/// The nodes from which edges with a label may lead into a daughter, and those from which they must: other nodes of the
/// sentence.
#[derive(Clone, Copy, Debug)]
pub struct Mothers {
    pub may: NodeSet,
    pub must: NodeSet,
}

/// Where the mothers of a daughter by a label stand, in a sentence of so many nodes.
pub(crate) fn mothers_at(nodes: usize, dim: DimId, daughter: NodeId, label: LabelId) -> usize
    requires { nodes ≤ 128 }
    ensures { result ≡ mothers_at nodes dim.0 daughter.0 label.0 }
{
    (dim.0 as usize * nodes + daughter.0 as usize) * 32 + label.0 as usize
}

/// So many items from a place on.
pub(crate) fn part_of<T>(items: &[T], first: usize, count: usize) -> &[T]
    requires { first + count ≤ length items.now }
    ensures { result.now ≡ take count (drop first items.now) }
{
    let rest = &items[first..];
    &rest[..count]
}

/// No mothers of any kind.
pub(crate) fn no_mothers() -> Mothers
    ensures { result ≡ no_mothers }
{
    Mothers {
        may: NodeSet::empty(),
        must: NodeSet::empty(),
    }
}

/// That all nodes but a daughter may be its mothers, and that none must be.
fn full_row(all: &NodeSet, daughter: NodeId) -> Mothers
    requires daughter { daughter.0 < 128 }
    ensures { (nodes : ℕ) → ((node : ℕ) → has all.now node ≡ nat_lt node nodes) → IsFull nodes daughter.0 result }
{
    let mut may = *all;
    may.remove(daughter);
    Mothers {
        may,
        must: NodeSet::empty(),
    }
}

/// Says of each daughter that all edges may be present, and that none must be. `all` has the nodes of the sentence.
pub(crate) fn fill_rows(rows: &mut Vec<Mothers>, nodes: usize, all: &NodeSet)
    requires nodes { nodes ≤ 128 }
    requires some { 0 < length rows.old.items → 0 < nodes }
    requires all { (node : ℕ) → has all.now node ≡ nat_lt node nodes }
    ensures count { length rows.new.items ≡ length rows.old.items }
    ensures full { AreFull rows.new.items nodes }
{
    for place in 0..rows.len() {
        rows[place] = full_row(all, NodeId((place / 32 % nodes) as u8));
    }
}

/// Makes anew whether an edge may be present.
fn renew_may(
    rows: &mut Vec<Mothers>,
    into: &mut Vec<LabelsInto>,
    nodes: usize,
    edge: Edge,
    wanted: bool,
)
    requires nodes { nodes ≤ 128 }
    requires fits { Fits nodes (length rows.old.items) edge }
    requires wide { length rows.old.items ≤ length into.old.items * 32 }
    ensures renews { Renews nodes edge wanted (in_must rows.old.items (edge_at nodes edge) edge.mother.0) rows.old.items rows.new.items }
    ensures count { length into.new.items ≡ length into.old.items }
    ensures told { StaysTold nodes (λ parts. IsPlace parts edge) rows.old.items into.old.items rows.new.items into.new.items }
{
    let place = mothers_at(nodes, edge.dim, edge.daughter, edge.label);
    renew_side(
        &mut rows[place].may,
        &mut into[place / 32].may,
        edge,
        wanted,
    );
}

/// Makes anew whether an edge must be present.
fn renew_must(
    rows: &mut Vec<Mothers>,
    into: &mut Vec<LabelsInto>,
    nodes: usize,
    edge: Edge,
    wanted: bool,
)
    requires nodes { nodes ≤ 128 }
    requires fits { Fits nodes (length rows.old.items) edge }
    requires wide { length rows.old.items ≤ length into.old.items * 32 }
    ensures renews { Renews nodes edge (in_may rows.old.items (edge_at nodes edge) edge.mother.0) wanted rows.old.items rows.new.items }
    ensures count { length into.new.items ≡ length into.old.items }
    ensures told { StaysTold nodes (λ parts. IsPlace parts edge) rows.old.items into.old.items rows.new.items into.new.items }
{
    let place = mothers_at(nodes, edge.dim, edge.daughter, edge.label);
    renew_side(
        &mut rows[place].must,
        &mut into[place / 32].must,
        edge,
        wanted,
    );
}

/// Makes anew what is kept of an edge that was to be forced, where that was a change.
pub(crate) fn renew_forced(
    rows: &mut Vec<Mothers>,
    into: &mut Vec<LabelsInto>,
    nodes: usize,
    edge: Edge,
    change: Change,
)
    requires nodes { nodes ≤ 128 }
    requires fits { Fits nodes (length rows.old.items) edge }
    requires wide { length rows.old.items ≤ length into.old.items * 32 }
    ensures forces { Forces change nodes edge rows.old.items rows.new.items }
    ensures told { StaysTold nodes (λ parts. IsPlace parts edge) rows.old.items into.old.items rows.new.items into.new.items }
{
    match change {
        Change::Same => {}
        Change::Changed => renew_must(rows, into, nodes, edge, true),
        Change::Emptied => {}
    }
}

/// Makes anew what is kept of an edge that was to be forbidden, where that was a change.
pub(crate) fn renew_forbidden(
    rows: &mut Vec<Mothers>,
    into: &mut Vec<LabelsInto>,
    nodes: usize,
    edge: Edge,
    change: Change,
)
    requires nodes { nodes ≤ 128 }
    requires fits { Fits nodes (length rows.old.items) edge }
    requires wide { length rows.old.items ≤ length into.old.items * 32 }
    ensures forbids { Forbids change nodes edge rows.old.items rows.new.items }
    ensures told { StaysTold nodes (λ parts. IsPlace parts edge) rows.old.items into.old.items rows.new.items into.new.items }
{
    match change {
        Change::Same => {}
        Change::Changed => renew_may(rows, into, nodes, edge, false),
        Change::Emptied => {}
    }
}

/// Makes anew what is kept of an edge, by the words.
fn renew(
    rows: &mut Vec<Mothers>,
    into: &mut Vec<LabelsInto>,
    trail: &Trail,
    nodes: usize,
    edge: Edge,
)
    requires nodes { nodes ≤ 128 }
    requires fits { Fits nodes (length rows.old.items) edge }
    requires bits { edge_bit nodes edge + 128 < 64 * length trail.now.words }
    requires wide { length rows.old.items ≤ length into.old.items * 32 }
    ensures renews { RenewsBy nodes trail.now.words edge rows.old.items rows.new.items }
    ensures count { length into.new.items ≡ length into.old.items }
    ensures told { StaysTold nodes (λ parts. IsPlace parts edge) rows.old.items into.old.items rows.new.items into.new.items }
{
    let present = edge_row(nodes, edge.dim, edge.mother, edge.label) + edge.daughter.0 as usize;
    renew_may(rows, into, nodes, edge, is_set(trail, present));
    renew_must(rows, into, nodes, edge, !is_set(trail, present + 128));
}

/// Makes anew what is kept of an edge, where a decision is one on an edge.
fn renew_of(
    rows: &mut Vec<Mothers>,
    into: &mut Vec<LabelsInto>,
    trail: &Trail,
    nodes: usize,
    decision: Decision,
)
    requires nodes { nodes ≤ 128 }
    requires fits { FitsIn nodes (length rows.old.items) (length trail.now.words) decision }
    requires wide { length rows.old.items ≤ length into.old.items * 32 }
    ensures renews { RenewsOf nodes trail.now.words decision rows.old.items rows.new.items }
    ensures count { length into.new.items ≡ length into.old.items }
    ensures told { StaysTold nodes (λ parts. IsDecision parts decision) rows.old.items into.old.items rows.new.items into.new.items }
{
    match decision {
        Decision::Entry(_) => {}
        Decision::Attr(_, _, _) => {}
        Decision::Place(edge) => renew(rows, into, trail, nodes, edge),
    }
}

/// Makes anew what is kept of the edges of some decisions.
pub(crate) fn renew_all(
    rows: &mut Vec<Mothers>,
    into: &mut Vec<LabelsInto>,
    trail: &Trail,
    nodes: usize,
    changed: &[Decision],
)
    requires nodes { nodes ≤ 128 }
    requires fits { All (FitsIn nodes (length rows.old.items) (length trail.now.words)) changed.now }
    requires wide { length rows.old.items ≤ length into.old.items * 32 }
    ensures renews { RenewsAll nodes trail.now.words changed.now rows.old.items rows.new.items }
    ensures told { StaysTold nodes (λ parts. All (IsDecision parts) changed.now) rows.old.items into.old.items rows.new.items into.new.items }
{
    for decision in changed {
        renew_of(rows, into, trail, nodes, *decision);
    }
}
