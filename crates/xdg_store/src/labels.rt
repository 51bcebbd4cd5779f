//! The labels of edges into daughters.

ghost use Rattle.std.specs.Prelude.{◌≡◌, ◌≢◌, ℕ, ◌<◌, ◌≤◌, ◌*◌, ◌/◌, ◌↔◌, IsTrue, All, length, slice_index_or};
ghost use Rattle.std.specs.Int.{bit_at};
ghost use Rattle.xdg_facts.specs.Rises.{has};
ghost use Rattle.xdg_problem.specs.Arguments.{no_plan};
ghost use Rattle.xdg_problem.specs.Problems.{IsDim};
ghost use Rattle.xdg_store.specs.Labels.{AreFirst, Marks, RenewsSide, at_place, labels_at, no_labels};

use xdg_base::{DimId, LabelId, NodeId};
use xdg_nodeset::NodeSet;
use xdg_problem::{DimPlan, Edge};

/// By label, a bit a label and the first label at the lowest, how many edges lead into a daughter: one at least, and more
/// than one.
#[derive(Clone, Copy, Debug)]
pub struct Labels {
    pub some: u32,
    pub more: u32,
}

/// The labels of the edges into a daughter that may be present, and of those that must be.
#[derive(Clone, Copy, Debug)]
pub struct LabelsInto {
    pub may: Labels,
    pub must: Labels,
}

/// Where the labels of the edges into a daughter stand, in a sentence of so many nodes.
pub(crate) fn labels_at(nodes: usize, dim: DimId, daughter: NodeId) -> usize
    requires { nodes ≤ 128 }
    ensures { result ≡ labels_at nodes dim.0 daughter.0 }
{
    dim.0 as usize * nodes + daughter.0 as usize
}

/// A word with a bit, or without it.
fn with_bit_if(word: u32, bit: u8, wanted: bool) -> u32
    requires { bit < 32 }
    ensures here { (bit_at result bit ≡ 1) ↔ IsTrue wanted }
    ensures others { (i : ℕ) → i ≢ bit → bit_at result i ≡ bit_at word i }
{
    if wanted {
        return word | (1 << bit);
    }
    word & !(1 << bit)
}

/// Labels, of which one is that of edges from so many mothers as a set has.
fn with_label(labels: Labels, label: LabelId, mothers: &NodeSet) -> Labels
    requires { label.0 < 32 }
    ensures { Marks (λ m. IsTrue (has mothers.now m)) label.0 labels result }
{
    let count = mothers.len();
    Labels {
        some: with_bit_if(labels.some, label.0, count > 0),
        more: with_bit_if(labels.more, label.0, count > 1),
    }
}

/// Adds a node to a set, or takes it out.
fn set_if(nodes: &mut NodeSet, node: NodeId, wanted: bool)
    requires { node.0 < 128 }
    ensures here { has nodes.new node.0 ≡ wanted }
    ensures others { (n : ℕ) → n ≢ node.0 → has nodes.new n ≡ has nodes.old n }
{
    if wanted {
        nodes.insert(node);
        return;
    }
    nodes.remove(node);
}

/// Makes anew whether an edge is among those of its row, and what is said of its label where the row changes by it.
pub(crate) fn renew_side(mothers: &mut NodeSet, labels: &mut Labels, edge: Edge, wanted: bool)
    requires label { edge.label.0 < 32 }
    requires mother { edge.mother.0 < 128 }
    ensures { RenewsSide edge wanted mothers.old mothers.new labels.old labels.new }
{
    if mothers.contains(edge.mother) == wanted {
        return;
    }
    set_if(mothers, edge.mother, wanted);
    *labels = with_label(*labels, edge.label, mothers);
}

/// The first so many labels where they are wanted, and else none.
fn first_labels(count: usize, wanted: bool) -> u32
    requires { count ≤ 32 }
    ensures { (label : ℕ) → (bit_at result label ≡ 1) ↔ ((label < count) × IsTrue wanted) }
{
    if !wanted {
        return 0;
    }
    if count < 32 {
        return (1u32 << count) - 1;
    }
    u32::MAX
}

/// That no edge leads into a daughter.
pub(crate) fn no_labels() -> LabelsInto
    ensures { result ≡ no_labels }
{
    let none = Labels { some: 0, more: 0 };
    LabelsInto {
        may: none,
        must: none,
    }
}

/// The labels of all edges into a daughter on a dimension, in a sentence of so many nodes.
fn all_labels(plan: &DimPlan, nodes: usize) -> LabelsInto
    requires { IsDim plan.now }
    ensures { AreFirst nodes plan.now result }
{
    let count = plan.labels.len();
    let may = Labels {
        some: first_labels(count, plan.graph && nodes > 1),
        more: first_labels(count, plan.graph && nodes > 2),
    };
    LabelsInto {
        may,
        must: no_labels().must,
    }
}

/// Says of each daughter that all edges may be present, and that none must be.
pub(crate) fn label_all(into: &mut Vec<LabelsInto>, dims: &[DimPlan], nodes: usize)
    requires count { length into.old.items ≡ length dims.now * nodes }
    requires dims { All IsDim dims.now }
    ensures count { length into.new.items ≡ length into.old.items }
    ensures first { (at : ℕ) → at < length into.new.items
        → AreFirst nodes (slice_index_or dims.now (at / nodes) no_plan) (at_place into.new.items at) }
{
    for at in 0..into.len() {
        into[at] = all_labels(&dims[at / nodes], nodes);
    }
}
