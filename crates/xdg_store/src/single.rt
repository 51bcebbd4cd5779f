//! Whether each decision has one value left.

ghost use Rattle.std.specs.Prelude.{◌≡◌, ℕ, ◌<◌, ◌≤◌, ◌+◌, ◌*◌, ◌%◌, ◌↔◌, IsTrue, All, true, length};
ghost use Rattle.xdg_problem.specs.Boxes.{IsSingle};
ghost use Rattle.xdg_problem.specs.Problems.{AreCandidates, IsAttr, IsDim, IsProblem};
ghost use Rattle.xdg_store.specs.Layout.{bit_count, bits_of, box_in, is_set};
ghost use Rattle.xdg_store.specs.Singles.{AreAttrsAlone, AreEdgesAlone, AreEntriesAlone, AreNodesAlone, IsNodeAlone};

use crate::rows::{is_alone, is_set};
use xdg_base::EntryNo;
use xdg_problem::{AttrPlan, DimPlan, Parts, SharedList};
use xdg_trail::Trail;

/// Whether each node has one candidate left.
fn are_entries_alone(trail: &Trail, candidates: &[SharedList<EntryNo>]) -> bool
    requires few { length candidates.now ≤ 128 }
    requires candidates { All AreCandidates candidates.now }
    requires within { length candidates.now * 1024 ≤ 64 * length trail.now.words }
    ensures { IsTrue result ↔ AreEntriesAlone trail.now.words candidates.now }
{
    for node in 0..candidates.len() {
        if !is_alone(trail, node * 1024, candidates[node].len()) {
            return false;
        }
    }
    true
}

/// Whether each attribute of a node has one value left. The rows of the attributes start with a bit.
fn are_attrs_alone(trail: &Trail, start: usize, attrs: &[AttrPlan]) -> bool
    requires first { start % 64 ≡ 0 }
    requires few { length attrs.now ≤ 8 }
    requires attrs { All IsAttr attrs.now }
    requires within { start + 8192 ≤ 64 * length trail.now.words }
    requires small { start ≤ 1000000000 }
    ensures { IsTrue result ↔ AreAttrsAlone trail.now.words start attrs.now }
{
    for attr in 0..attrs.len() {
        if !is_alone(trail, start + attr * 1024, attrs[attr].values.len()) {
            return false;
        }
    }
    true
}

/// Whether an edge may be present and may be absent. The bit is the one that says whether it may be present.
fn is_open(trail: &Trail, bit: usize) -> bool
    requires within { bit + 128 < 64 * length trail.now.words }
    requires small { bit ≤ 2000000000 }
    ensures { IsTrue result ↔ ((is_set trail.now.words bit ≡ true) × (is_set trail.now.words (bit + 128) ≡ true)) }
{
    if !is_set(trail, bit) {
        return false;
    }
    is_set(trail, bit + 128)
}

/// Whether it is known of each edge out of a mother whether it is present. The rows of the labels start with a bit.
fn are_edges_alone(trail: &Trail, start: usize, labels: usize, nodes: usize, mother: usize) -> bool
    requires few { labels ≤ 32 }
    requires some { 0 < nodes }
    requires most { nodes ≤ 128 }
    requires within { start + 8192 ≤ 64 * length trail.now.words }
    requires small { start ≤ 1000000000 }
    ensures { IsTrue result ↔ AreEdgesAlone trail.now.words start labels nodes mother }
{
    for place in 0..labels * nodes {
        if place % nodes == mother {
            continue;
        }
        if is_open(trail, start + place / nodes * 256 + place % nodes) {
            return false;
        }
    }
    true
}

/// Whether each attribute of a node on a dimension has one value left, and each edge out of it is decided. The bits of the node on the
/// dimension start with one.
fn is_node_alone(trail: &Trail, plan: &DimPlan, start: usize, nodes: usize, node: usize) -> bool
    requires first { start % 64 ≡ 0 }
    requires plan { IsDim plan.now }
    requires some { 0 < nodes }
    requires most { nodes ≤ 128 }
    requires within { start + 16384 ≤ 64 * length trail.now.words }
    requires small { start ≤ 100000000 }
    ensures { IsTrue result ↔ IsNodeAlone trail.now.words plan.now start nodes node }
{
    if !are_attrs_alone(trail, start, plan.attrs.as_slice()) {
        return false;
    }
    if !plan.graph {
        return true;
    }
    are_edges_alone(trail, start + 8192, plan.labels.len(), nodes, node)
}

/// The same of each node on each dimension.
fn are_nodes_alone(trail: &Trail, dims: &[DimPlan], nodes: usize) -> bool
    requires few { length dims.now ≤ 8 }
    requires dims { All IsDim dims.now }
    requires some { 0 < nodes }
    requires most { nodes ≤ 128 }
    requires within { nodes * 1024 + (length dims.now * nodes) * 16384 ≤ 64 * length trail.now.words }
    ensures { IsTrue result ↔ AreNodesAlone trail.now.words dims.now nodes }
{
    for at in 0..dims.len() * nodes {
        let start = nodes * 1024 + at * 16384;
        if !is_node_alone(trail, &dims[at / nodes], start, nodes, at % nodes) {
            return false;
        }
    }
    true
}

/// Whether each decision has one value left.
pub(crate) fn is_single(trail: &Trail, parts: &Parts) -> bool
    requires problem { IsProblem parts.now }
    requires long { bit_count parts.now ≤ 64 * length trail.now.words }
    ensures { IsTrue result ↔ IsSingle (box_in (bits_of parts.now) trail.now.words) }
{
    if !are_entries_alone(trail, parts.candidates.as_slice()) {
        return false;
    }
    are_nodes_alone(trail, parts.dims.as_slice(), parts.words.len())
}
