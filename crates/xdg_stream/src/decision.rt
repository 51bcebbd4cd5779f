//! Decisions, named by what is decided.

ghost use Rattle.std.specs.Prelude.{◌≡◌, ◌↔◌, ℕ, ◌<◌, ◌+◌, ◌*◌, IsTrue, length, slice_index};
ghost use Rattle.xdg_problem.specs.Boxes.{Has};
ghost use Rattle.xdg_problem.specs.Places.{nodes, places};
ghost use Rattle.xdg_problem.specs.Problems.{IsProblem};
ghost use Rattle.xdg_problem.specs.Vectors.{attr_sizes, first_place, shape};
ghost use Rattle.xdg_store.specs.Change.{IsTaken, RemovesAll};
ghost use Rattle.xdg_store.specs.States.{Known};
ghost use Rattle.xdg_store.specs.Decisions.{IsDecision, number_of};
ghost use Rattle.xdg_stream.specs.Others.{IsOther};

use xdg_base::{AttrId, DimId, NodeId};
use xdg_problem::{Edge, Parts, Problem};
use xdg_store::{Change, Decision, Store};

/// The decision on the attribute at a place among those of all dimensions.
fn attr_at(parts: &Parts, at: usize) -> Decision
    requires problem { IsProblem parts.now }
    requires within { at < length (attr_sizes (nodes parts.now) parts.now.dims) }
    ensures is { IsDecision parts.now result }
    ensures number { number_of parts.now result ≡ length parts.now.candidates + at }
{
    let nodes = parts.words.len();
    let mut rest = at;
    for (dim, plan) in parts.dims.as_slice().iter().enumerate() {
        let width = plan.attrs.len();
        if rest < nodes * width {
            let node = NodeId((rest / width) as u8);
            let attr = AttrId((rest % width) as u8);
            return Decision::Attr(DimId(dim as u8), node, attr);
        }
        rest -= nodes * width;
    }
    Decision::Entry(NodeId(0))
}

/// How many of so many decisions come before those on edges, whose places are given.
pub(crate) fn first_edge(store: &Store, decisions: usize, edge_places: &[Edge]) -> usize
    requires decisions { decisions ≡ length (shape store.now.parts) }
    requires listed { edge_places.now ≡ places store.now.parts }
    ensures first { result ≡ first_place store.now.parts }
    ensures all { result + length edge_places.now ≡ length (shape store.now.parts) }
{
    decisions - edge_places.len()
}

/// The decision at a place among so many decisions on a sentence, whose edge places are given.
pub(crate) fn decision_at(
    problem: &Problem,
    decisions: usize,
    edge_places: &[Edge],
    at: usize,
) -> Decision
    requires decisions { decisions ≡ length (shape problem.now) }
    requires listed { edge_places.now ≡ places problem.now }
    requires within { at < length (shape problem.now) }
    ensures is { IsDecision problem.now result }
    ensures number { number_of problem.now result ≡ at }
{
    let parts = problem.parts();
    let nodes = parts.candidates.len();
    if at < nodes {
        return Decision::Entry(NodeId(at as u8));
    }
    let first = decisions - edge_places.len();
    if at < first {
        return attr_at(parts, at - nodes);
    }
    Decision::Place(edge_places[at - first])
}

/// The values of a block of 64 other than a value: a bit for each, the first at the lowest.
fn others_in(block: u16, value: u16) -> u64
    ensures { (x : ℕ) → IsTaken block result x ↔ IsOther block value x }
{
    if value / 64 != block {
        return u64::MAX;
    }
    !(1u64 << (value % 64))
}

/// Takes of 64 values of a decision, from that numbered `block` * 64 on, all but one away at once, unless no other is left.
pub(crate) fn remove_others(store: &mut Store, decision: Decision, block: u16, value: u16) -> Change
    requires is { IsDecision store.old.parts decision }
    requires block { block * 64 < slice_index (shape store.old.parts) (number_of store.old.parts decision) }
    requires value { value < slice_index (shape store.old.parts) (number_of store.old.parts decision) }
    requires known { Known store.old }
    ensures removes { RemovesAll result store.old store.new (number_of store.old.parts decision) (IsOther block value) }
    ensures known { Known store.new }
{
    let others = others_in(block, value);
    match decision {
        Decision::Entry(node) => store.remove_entries(node, block, others),
        Decision::Attr(dim, node, attr) => store.remove_attrs(node, dim, attr, block, others),
        Decision::Place(edge) => {
            if value == 0 {
                return store.force_edge(edge);
            }
            store.forbid_edge(edge)
        }
    }
}

/// Whether a value of a decision remains.
pub(crate) fn remains(store: &Store, decision: Decision, value: u16) -> bool
    requires is { IsDecision store.now.parts decision }
    requires value { value < slice_index (shape store.now.parts) (number_of store.now.parts decision) }
    requires known { Known store.now }
    ensures { IsTrue result ↔ Has store.now.now (number_of store.now.parts decision) value }
{
    match decision {
        Decision::Entry(node) => store.entry_in(node, value),
        Decision::Attr(dim, node, attr) => store.attr_in(node, dim, attr, value),
        Decision::Place(edge) => {
            if value == 0 {
                return store.may(edge);
            }
            !store.must(edge)
        }
    }
}
