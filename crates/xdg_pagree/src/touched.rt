//! The nodes and places where something was lost.

ghost use Rattle.std.specs.Prelude.{◌≡◌, ◌<◌, ◌||◌, ℕ, [], false, slice_index_or};
ghost use Rattle.xdg_facts.specs.Rises.{has};
ghost use Rattle.xdg_problem.specs.Problems.{IsGroup};
ghost use Rattle.xdg_rules.specs.Rules.{IsClosedFor};
ghost use Rattle.xdg_store.specs.InRange.{HasEdges};
ghost use Rattle.xdg_store.specs.States.{Known};
ghost use Rattle.xdg_propcore.specs.Standing.{HeldIf};
ghost use Rattle.xdg_pagree.specs.Family.{IsOfFamily};
ghost use Rattle.xdg_pagree.specs.Untouched.{AreOthersDone, AreTouched, IsNodeFree, IsRowFree};

use xdg_base::{DimId, LabelId, NodeId};
use xdg_nodeset::NodeSet;
use xdg_problem::{Group, dim_of};
use xdg_propcore::Touched;
use xdg_store::{Mark, Store};

/// Gathers what was lost since a mark at which the principle use was still, or all, if there is none.
#[tactic(auto, using(crate::proofs::Others::others_none))]
pub(crate) fn gather_lost(touched: &mut Touched, store: &Store, group: &Group, since: &Option<Mark>)
    requires known { Known store.now }
    requires group { IsGroup store.now.parts group.now }
    requires family { IsOfFamily group.now.principle }
    requires held { HeldIf (λ parts box. IsClosedFor parts group.now box) store.now since.now }
    ensures { AreOthersDone touched.new store.now.parts group.now store.now.now }
{
    match *since {
        Some(mark) => touched.gather(store, mark, dim_of(group, 0)),
        None => *touched = Touched::all(),
    }
}

/// The nodes that have lost an entry or a value of an attribute.
pub(crate) fn touched_nodes(touched: &Touched) -> NodeSet
    ensures { (v : ℕ) → has result v ≡ (has touched.now.entries v || has touched.now.attrs v) }
{
    touched.entries.union(&touched.attrs)
}

/// Whether a node has lost an entry or a value of an attribute.
fn is_node_touched(touched: &Touched, node: NodeId) -> bool
    requires { node.0 < 128 }
    ensures { result ≡ false → IsNodeFree touched.now node.0 }
{
    touched_nodes(touched).contains(node)
}

/// The nodes that a table has for a label.
pub(crate) fn nodes_at(table: &[NodeSet; 32], label: LabelId) -> NodeSet
    requires { label.0 < 32 }
    ensures { result ≡ slice_index_or table.now label.0 [] }
{
    table[usize::from(label.0)]
}

/// Whether a mother has lost one of these, or a value of an edge with a label out of it.
fn is_row_touched(touched: &Touched, mother: NodeId, label: LabelId) -> bool
    requires mother { mother.0 < 128 }
    requires label { label.0 < 32 }
    ensures { result ≡ false → IsRowFree touched.now mother.0 label.0 }
{
    if is_node_touched(touched, mother) {
        return true;
    }
    let nodes = nodes_at(&touched.out, label);
    nodes.contains(mother)
}

/// The daughters that an edge with a label out of a mother may have, as far as something was lost of what is looked at for it.
#[tactic(auto, using(crate::proofs::Others::all_touched, crate::proofs::Others::none_touched, crate::proofs::Others::some_touched))]
pub(crate) fn daughters_at(
    store: &Store,
    touched: &Touched,
    dim: DimId,
    mother: NodeId,
    label: LabelId,
) -> NodeSet
    requires known { Known store.now }
    requires edges { HasEdges store.now.parts dim.0 mother.0 label.0 }
    requires label { label.0 < 32 }
    ensures { AreTouched store.now.parts store.now.now touched.now dim.0 mother.0 label.0 result }
{
    if is_row_touched(touched, mother, label) {
        return store.daughters_may(dim, mother, label);
    }
    if touched.attrs.len() == 0 {
        return NodeSet::empty();
    }
    let daughters = store.daughters_may(dim, mother, label);
    daughters.meet(&touched.attrs)
}
