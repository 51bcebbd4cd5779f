//! What a linking principle takes from a box, place by place, as far as something was lost near it.

ghost use Rattle.std.specs.Prelude.{◌≡◌};
ghost use Rattle.xdg_problem.specs.Arguments.{first_dim};
ghost use Rattle.xdg_problem.specs.Places.{nodes};
ghost use Rattle.xdg_graph.specs.Edges.{edge_labels};
ghost use Rattle.xdg_propcore.specs.Passes.{IsQuiet};
ghost use Rattle.xdg_propcore.specs.Sweeps.{Sweeps};
ghost use Rattle.xdg_plink.specs.Steps.{AreLabelsDone, AreMothersDone, Asks, DoneAt, IsAtLabel, IsAtNode, IsLabelDone, IsOnPlace, IsReady};
ghost use Rattle.xdg_plink.specs.Untouched.{AreOthersDone, AreOthersDoneAt, ArePlaces};

use crate::asking::{asks, asks_edges};
use crate::cutting::cut;
use crate::near::Near;
use crate::parting::part;
use xdg_base::{LabelId, NodeId};
use xdg_graph::{labels_of, node_count};
use xdg_nodeset::NodeSet;
use xdg_problem::{Edge, Group, dim_of};
use xdg_propcore::Pass;
use xdg_store::Store;

/// Takes for a principle use what its rule takes at a place of the first dimension, where the mother asks for something.
fn take_at(store: &mut Store, pass: &mut Pass, group: &Group, table: &[NodeSet; 128], place: Edge)
    requires on { IsOnPlace group.now place store.old }
    requires ready { IsReady group.now table.now store.old }
    requires asks { Asks group.now.principle group.now store.old.now place.mother.0 place.label.0 }
    ensures { Sweeps group.now (DoneAt store.old.parts group.now table.now place) pass.old store.old pass.new store.new }
{
    if asks_edges(&group.principle) {
        cut(store, pass, group, table, place);
        return;
    }
    part(store, pass, group, place);
}

/// Takes for a principle use what its rule takes at the places of a label from a node, which asks for something, to some nodes,
/// where nothing is left to take at those to the others.
fn take_daughters(
    store: &mut Store,
    pass: &mut Pass,
    group: &Group,
    table: &[NodeSet; 128],
    node: NodeId,
    label: LabelId,
    daughters: NodeSet,
)
    requires ready { IsReady group.now table.now store.old }
    requires asks { Asks group.now.principle group.now store.old.now node.0 label.0 }
    requires daughters { ArePlaces store.old.parts (first_dim group.now) node.0 label.0 daughters }
    requires others { IsQuiet pass.old → AreOthersDoneAt store.old.parts group.now node.0 label.0 daughters store.old.now }
    ensures { Sweeps group.now (IsLabelDone store.old.parts group.now table.now node.0 label.0) pass.old store.old pass.new store.new }
{
    let dim = dim_of(group, 0);
    for daughter in daughters.iter() {
        let place = Edge {
            dim,
            mother: node,
            label,
            daughter,
        };
        take_at(store, pass, group, table, place);
    }
}

/// Takes for a principle use what its rule takes at the places of a label out of a node, where nothing is left but near some edges.
fn take_label(
    store: &mut Store,
    pass: &mut Pass,
    group: &Group,
    near: &Near,
    table: &[NodeSet; 128],
    node: NodeId,
    label: LabelId,
)
    requires at { IsAtLabel group.now table.now node.0 label.0 store.old }
    requires others { IsQuiet pass.old → AreOthersDone near.now store.old.parts group.now store.old.now }
    ensures { Sweeps group.now (IsLabelDone store.old.parts group.now table.now node.0 label.0) pass.old store.old pass.new store.new }
{
    let dim = dim_of(group, 0);
    let daughters = near.daughters(store, dim, node, label);
    if daughters.len() == 0 {
        return;
    }
    if !asks(store, group, node, label) {
        return;
    }
    take_daughters(store, pass, group, table, node, label, daughters);
}

/// How many labels the edges of the first dimension can have.
fn first_labels(store: &Store, group: &Group) -> u8
    ensures { result ≡ edge_labels store.now.parts (first_dim group.now) }
{
    labels_of(store, dim_of(group, 0))
}

/// Takes for a principle use what its rule takes at the places out of a node.
fn take_node(
    store: &mut Store,
    pass: &mut Pass,
    group: &Group,
    near: &Near,
    table: &[NodeSet; 128],
    node: NodeId,
)
    requires at { IsAtNode group.now table.now node.0 store.old }
    requires others { IsQuiet pass.old → AreOthersDone near.now store.old.parts group.now store.old.now }
    ensures { Sweeps group.now (AreLabelsDone store.old.parts group.now table.now node.0 (edge_labels store.old.parts (first_dim group.now))) pass.old store.old
        pass.new store.new }
{
    if !near.leads_from(node) {
        return;
    }
    for label in 0..first_labels(store, group) {
        take_label(store, pass, group, near, table, node, LabelId(label));
    }
}

/// Takes for a principle use what its rule takes, where nothing is left but near some edges.
pub(crate) fn take_all(
    store: &mut Store,
    pass: &mut Pass,
    group: &Group,
    near: &Near,
    table: &[NodeSet; 128],
)
    requires ready { IsReady group.now table.now store.old }
    requires others { IsQuiet pass.old → AreOthersDone near.now store.old.parts group.now store.old.now }
    ensures { Sweeps group.now (AreMothersDone store.old.parts group.now table.now (nodes store.old.parts)) pass.old store.old pass.new store.new }
{
    for node in 0..node_count(store) {
        take_node(store, pass, group, near, table, NodeId(node));
    }
}
