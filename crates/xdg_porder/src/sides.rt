//! What order takes, from one side and then from the other.

ghost use Rattle.std.specs.Prelude.{◌≡◌, ◌<◌, ℕ, true, length};
ghost use Rattle.xdg_facts.specs.Rises.{has};
ghost use Rattle.xdg_problem.specs.Places.{nodes};
ghost use Rattle.xdg_propcore.specs.Passes.{IsQuiet};
ghost use Rattle.xdg_propcore.specs.Sweeps.{Sweeps};
ghost use Rattle.xdg_porder.specs.Items.{AreMothersDone, AreOthersDone, AreWrong, IsAtNode, IsNodeDone, IsOrdering, NoneStand};
ghost use Rattle.xdg_porder.specs.Sides.{IsReached, IsSideDone, label_from};

use crate::items::{may_items, must_items};
use crate::reads::label_at;
use crate::sets::{is_empty, left_of, right_of};
use crate::taking::take_items;
use xdg_base::{LabelId, NodeId};
use xdg_graph::node_count;
use xdg_nodeset::NodeSet;
use xdg_problem::Group;
use xdg_propcore::Pass;
use xdg_store::Store;

/// The side from which the labels of an order are gone over: from the left the first label comes first, from the right the last.
#[derive(Clone, Copy)]
enum Side {
    Left,
    Right,
}

/// The label at a place of the order, counted from a side.
fn label_from(group: &Group, side: Side, place: usize) -> LabelId
    requires { place < length group.now.order }
    ensures { result.0 ≡ label_from group.now side place }
{
    match side {
        Side::Left => label_at(group, place),
        Side::Right => label_at(group, group.order.len() - 1 - place),
    }
}

/// The nodes that a node with a later label may not be, where these have an earlier one: they themselves, and all on their side.
fn reach(side: Side, ends: NodeSet) -> NodeSet
    ensures sound { (v : ℕ) → has result v ≡ true → (w : ℕ) × (has ends w ≡ true) × IsReached side v w }
    ensures whole { (v w : ℕ) → v < 128 → has ends w ≡ true → IsReached side v w → has result v ≡ true }
{
    match side {
        Side::Left => left_of(ends),
        Side::Right => right_of(ends),
    }
}

/// Takes the nodes of a set out of the items of a node with a label, as far as they may be some.
fn take_reached(
    store: &mut Store,
    pass: &mut Pass,
    group: &Group,
    u: NodeId,
    label: LabelId,
    reached: NodeSet,
)
    requires at { IsAtNode group.now u.0 store.old }
    requires wrong { AreWrong group.now u.0 label.0 reached store.old }
    ensures { Sweeps group.now (NoneStand store.old.parts group.now u.0 label.0 reached) pass.old store.old pass.new store.new }
{
    if is_empty(reached) {
        return;
    }
    let refused = may_items(store, group, u, label).meet(&reached);
    take_items(store, pass, group, u, label, refused);
}

/// Takes what order takes at a node from one side: the items with a label that an item with an earlier one reaches.
fn take_side(store: &mut Store, pass: &mut Pass, group: &Group, u: NodeId, side: Side)
    requires { IsAtNode group.now u.0 store.old }
    ensures { Sweeps group.now (IsSideDone store.old.parts group.now u.0 side (length group.now.order)) pass.old store.old pass.new store.new }
{
    let mut reached = NodeSet::empty();
    for place in 0..group.order.len() {
        let label = label_from(group, side, place);
        take_reached(store, pass, group, u, label, reached);
        let ends = must_items(store, group, u, label);
        reached = reached.union(&reach(side, ends));
    }
}

/// Takes what order takes at a node.
fn take_node(store: &mut Store, pass: &mut Pass, group: &Group, u: NodeId)
    requires { IsAtNode group.now u.0 store.old }
    ensures { Sweeps group.now (IsNodeDone store.old.parts group.now u.0) pass.old store.old pass.new store.new }
{
    take_side(store, pass, group, u, Side::Left);
    take_side(store, pass, group, u, Side::Right);
}

/// Takes what order takes at the nodes of a set, where nothing is left to take at the others.
pub(crate) fn take_nodes(store: &mut Store, pass: &mut Pass, group: &Group, touched: NodeSet)
    requires at { IsOrdering group.now store.old }
    requires others { IsQuiet pass.old → AreOthersDone touched store.old.parts group.now store.old.now }
    ensures { Sweeps group.now (AreMothersDone store.old.parts group.now (nodes store.old.parts)) pass.old store.old pass.new store.new }
{
    for u in 0..node_count(store) {
        if !touched.contains(NodeId(u)) {
            continue;
        }
        take_node(store, pass, group, NodeId(u));
    }
}
