//! Whether an order that takes yields along fails in a box whose edges are decided.

ghost use Rattle.std.specs.Prelude.{◌≡◌, ◌<◌, ◌↔◌, ℕ, true, IsTrue};
ghost use Rattle.xdg_facts.specs.Rises.{has};
ghost use Rattle.xdg_problem.specs.Places.{nodes};
ghost use Rattle.xdg_rules.specs.Rules.{IsDecided, attr_of_node};
ghost use Rattle.xdg_porder.specs.Items.{IsAtNode};
ghost use Rattle.xdg_porder.specs.Yields.{AreSettled, IsBrokenAt, IsLabelSettled, IsNodeSettled, StandsBelow};

use crate::items::{is_own_decided, may_follow, may_items, must_follow};
use crate::reads::{label_at, label_count};
use crate::sets::{all_below, is_empty, left_of};
use xdg_base::{LabelId, NodeId};
use xdg_graph::node_count;
use xdg_nodeset::{NodeSet, overlap};
use xdg_problem::Group;
use xdg_store::Store;

/// Whether each edge from a node with a label that may be must be.
fn is_label_settled(store: &Store, group: &Group, u: NodeId, label: LabelId) -> bool
    requires { u.0 < nodes store.now.parts }
    ensures { IsTrue result ↔ IsLabelSettled store.now.parts group.now u.0 label.0 store.now.now }
{
    let free = may_follow(store, group, u, label).minus(&must_follow(store, group, u, label));
    is_empty(free)
}

/// Whether each edge from a node that may be must be.
fn is_node_settled(store: &Store, group: &Group, u: NodeId) -> bool
    requires { u.0 < nodes store.now.parts }
    ensures { IsTrue result ↔ IsNodeSettled store.now.parts group.now u.0 store.now.now }
{
    for label in 0..label_count(store, group) {
        if !is_label_settled(store, group, u, LabelId(label)) {
            return false;
        }
    }
    true
}

/// Whether each edge of the dimension that may be must be.
pub(crate) fn are_settled(store: &Store, group: &Group) -> bool
    ensures { IsTrue result ↔ AreSettled store.now.parts group.now store.now.now }
{
    for u in 0..node_count(store) {
        if !is_node_settled(store, group, NodeId(u)) {
            return false;
        }
    }
    true
}

/// The nodes that stand in an item of a node with a label, or by a table below one of its daughters.
fn stands_below(
    store: &Store,
    group: &Group,
    table: &[NodeSet; 128],
    u: NodeId,
    label: LabelId,
) -> NodeSet
    requires { IsAtNode group.now u.0 store.now }
    ensures { (x : ℕ) → (has result x ≡ true) ↔ StandsBelow store.now.parts group.now table.now store.now.now u.0 label.0 x }
{
    let below = all_below(may_follow(store, group, u, label), table);
    may_items(store, group, u, label).union(&below)
}

/// Whether of two labels of the order a node with the later one stands at or left of one with the earlier one.
fn is_broken_at(store: &Store, group: &Group, table: &[NodeSet; 128], u: NodeId) -> bool
    requires { IsAtNode group.now u.0 store.now }
    ensures { IsTrue result ↔ IsBrokenAt store.now.parts group.now table.now store.now.now u.0 }
{
    let mut reached = NodeSet::empty();
    for place in 0..group.order.len() {
        let below = stands_below(store, group, table, u, label_at(group, place));
        if overlap(reached, below) {
            return true;
        }
        reached = reached.union(&left_of(below));
    }
    false
}

/// Whether the test of a node is decided and fails, in a box whose edges are decided, by a table of the nodes below others.
pub(crate) fn fails_at(store: &Store, group: &Group, table: &[NodeSet; 128], u: NodeId) -> bool
    requires { IsAtNode group.now u.0 store.now }
    ensures { IsTrue result
        ↔ (IsDecided store.now.now (attr_of_node store.now.parts group.now 0 u.0) × IsBrokenAt store.now.parts group.now table.now store.now.now u.0) }
{
    is_own_decided(store, group, u) && is_broken_at(store, group, table, u)
}
