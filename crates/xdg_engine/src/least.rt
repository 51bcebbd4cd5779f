//! What the decisions of a box cost at the least.

ghost use Rattle.std.specs.Prelude.{◌≡◌, ◌≤◌, ◌<◌, ◌+◌, ◌*◌, ◌^◌, ℕ, [], length, slice_index, slice_index_or};
ghost use Rattle.std.specs.List.{sum_by};
ghost use Rattle.xdg_problem.specs.Boxes.{entry_decision};
ghost use Rattle.xdg_problem.specs.Costs.{CostLists};
ghost use Rattle.xdg_problem.specs.Paths.{edges_out_of};
ghost use Rattle.xdg_problem.specs.Places.{nodes};
ghost use Rattle.xdg_graph.specs.Edges.{edge_labels};
ghost use Rattle.xdg_rules.specs.Bounds as bounds;
ghost use Rattle.xdg_rules.specs.Rules.{has, must_edges};
ghost use Rattle.xdg_store.specs.States.{Known};
ghost use Rattle.xdg_engine.specs.CostRows.{AreLabelCosts, entry_rows};

use xdg_base::{DimId, LabelId, List, NodeId};
use xdg_graph::{Which, daughters_by, entry_count, labels_of, node_count};
use xdg_store::Store;

/// The lesser of a cost and of the least of others, where there are others.
fn with_least(cost: u32, least: Option<u32>) -> u32
    ensures { result ≡ bounds.with_least cost least }
{
    match least {
        Some(other) => cost.min(other),
        None => cost,
    }
}

/// The least cost of the entries of a node that remain.
fn least_entry(store: &Store, row: &List<u32>, node: NodeId) -> u32
    requires node { node.0 < nodes store.now.parts }
    requires row { length row.now ≡ length (slice_index_or store.now.parts.candidates node.0 []) }
    ensures exact { result ≡ bounds.or_nothing (bounds.least_below (has store.now.now (entry_decision node.0)) (slice_index row.now) (length row.now)) }
    ensures known { Known store.now }
{
    let mut least = None;
    for place in 0..entry_count(store.problem().parts(), node) {
        if !store.entry_in(node, place) {
            continue;
        }
        least = Some(with_least(row.as_slice()[place as usize], least));
    }
    least.unwrap_or(0)
}

/// The least costs of the entries that remain, of all nodes together.
fn entries_least(store: &Store, rows: &List<List<u32>>) -> u64
    requires { (costs : CostLists) × (rows.now ≡ entry_rows costs store.now.parts) }
    ensures exact { (costs : CostLists) → rows.now ≡ entry_rows costs store.now.parts
        → result ≡ bounds.sum_below (bounds.node_cost store.now.parts costs store.now.now) (nodes store.now.parts) }
    ensures small { result ≤ 128 * 2 ^ 32 }
    ensures known { Known store.now }
{
    let mut total = 0;
    for node in 0..node_count(store) {
        let row = &rows.as_slice()[node as usize];
        total += least_entry(store, row, NodeId(node)) as u64;
    }
    total
}

/// What some edges cost, each as much.
fn together(cost: u32, edges: usize) -> u64
    requires { edges ≤ 128 }
    ensures exact { result ≡ cost * edges }
    ensures small { result ≤ 2 ^ 39 }
{
    cost as u64 * edges as u64
}

/// What the edges out of a node on a dimension cost that must be.
fn mother_cost(store: &Store, row: &[u32; 32], dim: DimId, mother: NodeId) -> u64
    requires { mother.0 < nodes store.now.parts }
    ensures exact { result
        ≡ bounds.sum_below (λ label. slice_index row.now label * edges_out_of (must_edges store.now.parts store.now.now dim.0) mother.0 label)
        (edge_labels store.now.parts dim.0) }
    ensures small { result ≤ 2 ^ 44 }
    ensures known { Known store.now }
{
    let mut total = 0;
    for label in 0..labels_of(store, dim) {
        let cost = row[label as usize];
        if cost == 0 {
            continue;
        }
        let edges = daughters_by(store, Which::Must, dim, mother, LabelId(label)).len();
        total += together(cost, edges);
    }
    total
}

/// What the edges of a dimension cost that must be.
fn dim_cost(store: &Store, row: &[u32; 32], dim: DimId) -> u64
    ensures exact { result
        ≡ bounds.sum_below
        (λ mother. bounds.sum_below (λ label. slice_index row.now label * edges_out_of (must_edges store.now.parts store.now.now dim.0) mother label)
        (edge_labels store.now.parts dim.0))
        (nodes store.now.parts) }
    ensures small { result ≤ 2 ^ 51 }
    ensures known { Known store.now }
{
    let mut total = 0;
    for mother in 0..node_count(store) {
        total += mother_cost(store, row, dim, NodeId(mother));
    }
    total
}

/// What the edges cost that must be.
fn edges_least(store: &Store, rows: &[[u32; 32]; 8]) -> u64
    ensures exact { (costs : CostLists) → AreLabelCosts costs rows.now
        → result ≡ sum_by (bounds.edge_cost costs) (bounds.must_places store.now.parts store.now.now) }
    ensures small { result ≤ 2 ^ 54 }
    ensures known { Known store.now }
{
    let mut total = 0;
    for dim in 0..store.problem().parts().dims.len() as u8 {
        total += dim_cost(store, &rows[dim as usize], DimId(dim));
    }
    total
}

/// What an analysis of the box costs at the least.
pub(crate) fn least_cost(store: &Store, entries: &List<List<u32>>, labels: &[[u32; 32]; 8]) -> u64
    requires { (costs : CostLists) × (entries.now ≡ entry_rows costs store.now.parts) }
    ensures exact { (costs : CostLists) → entries.now ≡ entry_rows costs store.now.parts → AreLabelCosts costs labels.now
        → result ≡ bounds.least_cost store.now.parts costs store.now.now }
    ensures known { Known store.now }
{
    entries_least(store, entries) + edges_least(store, labels)
}
