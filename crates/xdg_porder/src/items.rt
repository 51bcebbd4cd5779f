//! The items of a node under a label that may be, and those that must be.

ghost use Rattle.std.specs.Prelude.{◌≡◌, ◌<◌, ◌↔◌, ◌⊎◌, ℕ, true, IsTrue};
ghost use Rattle.xdg_facts.specs.Rises.{has};
ghost use Rattle.xdg_problem.specs.Boxes.{Has, IsOnly};
ghost use Rattle.xdg_problem.specs.Places.{nodes};
ghost use Rattle.xdg_rules.specs.Rules.{IsDecided, attr_of_node};
ghost use Rattle.xdg_store.specs.States.{Known};
ghost use Rattle.xdg_porder.specs.Items.{IsAtNode, MayFollow, MayOwn, MayStand, MustFollow, MustOwn, MustStand};
ghost use Rattle.xdg_graph.specs.Slots.{IsSlot, decision_of};

use crate::reads::label_count;
use xdg_base::{LabelId, NodeId};
use xdg_graph::{Slot, slot_of};
use xdg_nodeset::NodeSet;
use xdg_problem::{Group, dim_of};
use xdg_store::Store;

/// The nodes that may be daughters of a node with a label.
pub(crate) fn may_follow(store: &Store, group: &Group, u: NodeId, label: LabelId) -> NodeSet
    requires { u.0 < nodes store.now.parts }
    ensures exact { (v : ℕ) → (has result v ≡ true) ↔ MayFollow store.now.parts group.now store.now.now u.0 label.0 v }
    ensures known { Known store.now }
{
    if label.0 >= label_count(store, group) {
        return NodeSet::empty();
    }
    store.daughters_may(dim_of(group, 0), u, label)
}

/// The nodes that must be.
pub(crate) fn must_follow(store: &Store, group: &Group, u: NodeId, label: LabelId) -> NodeSet
    requires { u.0 < nodes store.now.parts }
    ensures exact { (v : ℕ) → (has result v ≡ true) ↔ MustFollow store.now.parts group.now store.now.now u.0 label.0 v }
    ensures known { Known store.now }
{
    if label.0 >= label_count(store, group) {
        return NodeSet::empty();
    }
    store.daughters_must(dim_of(group, 0), u, label)
}

/// Whether a value of an attribute remains.
fn remains(store: &Store, slot: Slot, value: u16) -> bool
    requires known { Known store.now }
    requires slot { IsSlot store.now.parts slot }
    ensures { IsTrue result ↔ Has store.now.now (decision_of store.now.parts slot) value }
{
    if value >= slot.count {
        return false;
    }
    store.attr_in(slot.node, slot.dim, slot.attr, value)
}

/// Whether no other value of an attribute remains.
fn is_only(store: &Store, slot: Slot, value: u16) -> bool
    requires known { Known store.now }
    requires slot { IsSlot store.now.parts slot }
    ensures { IsTrue result ↔ IsOnly store.now.now (decision_of store.now.parts slot) value }
{
    for other in 0..slot.count {
        if other != value && remains(store, slot, other) {
            return false;
        }
    }
    true
}

/// Whether the own label of a node may be this one.
pub(crate) fn may_own(store: &Store, group: &Group, u: NodeId, label: u16) -> bool
    requires { IsAtNode group.now u.0 store.now }
    ensures { IsTrue result ↔ MayOwn store.now.parts group.now store.now.now u.0 label }
{
    remains(store, slot_of(store, group, 0, u), label)
}

/// Whether the own label of a node must be this one.
pub(crate) fn must_own(store: &Store, group: &Group, u: NodeId, label: u16) -> bool
    requires { IsAtNode group.now u.0 store.now }
    ensures { IsTrue result ↔ MustOwn store.now.parts group.now store.now.now u.0 label }
{
    let slot = slot_of(store, group, 0, u);
    remains(store, slot, label) && is_only(store, slot, label)
}

/// Whether one own label of a node is left.
pub(crate) fn is_own_decided(store: &Store, group: &Group, u: NodeId) -> bool
    requires { IsAtNode group.now u.0 store.now }
    ensures { IsTrue result ↔ IsDecided store.now.now (attr_of_node store.now.parts group.now 0 u.0) }
{
    for value in 0..slot_of(store, group, 0, u).count {
        if must_own(store, group, u, value) {
            return true;
        }
    }
    false
}

/// Some nodes, and a further one where it is asked for.
fn with_node(nodes: NodeSet, node: NodeId, asked: bool) -> NodeSet
    requires { node.0 < 128 }
    ensures { (v : ℕ) → (has result v ≡ true) ↔ (((v ≡ node.0) × (asked ≡ true)) ⊎ (has nodes v ≡ true)) }
{
    let mut all = nodes;
    if asked {
        all.insert(node);
        return all;
    }
    nodes
}

/// The nodes that may be items of a node with a label.
pub(crate) fn may_items(store: &Store, group: &Group, u: NodeId, label: LabelId) -> NodeSet
    requires { IsAtNode group.now u.0 store.now }
    ensures { (v : ℕ) → (has result v ≡ true) ↔ MayStand store.now.parts group.now store.now.now u.0 label.0 v }
{
    let own = may_own(store, group, u, u16::from(label.0));
    with_node(may_follow(store, group, u, label), u, own)
}

/// The nodes that must be.
pub(crate) fn must_items(store: &Store, group: &Group, u: NodeId, label: LabelId) -> NodeSet
    requires { IsAtNode group.now u.0 store.now }
    ensures { (v : ℕ) → (has result v ≡ true) ↔ MustStand store.now.parts group.now store.now.now u.0 label.0 v }
{
    let own = must_own(store, group, u, u16::from(label.0));
    with_node(must_follow(store, group, u, label), u, own)
}
