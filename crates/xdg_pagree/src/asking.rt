//! Questions about what remains, each answered exactly, without memory.

ghost use Rattle.std.specs.Prelude.{◌≡◌, ◌<◌, ◌↔◌, ℕ, [], IsTrue, Contains, length, slice_index_or};
ghost use Rattle.xdg_problem.specs.Boxes.{Has, entry_decision};
ghost use Rattle.xdg_problem.specs.Features.{map_row};
ghost use Rattle.xdg_problem.specs.Places.{nodes};
ghost use Rattle.xdg_rules.specs.Rules.{EachEntry};
ghost use Rattle.xdg_store.specs.States.{Known};
ghost use Rattle.xdg_pagree.specs.Places.{LacksEntry, LacksOther, LacksValue};
ghost use Rattle.xdg_graph.specs.Slots.{IsSlot, decision_of};

use xdg_base::{LabelId, NodeId};
use xdg_graph::{Slot, entry_count, is_member, row_of};
use xdg_problem::Group;
use xdg_store::Store;

/// Whether the set that each remaining entry of a node has at a label lacks a number.
pub(crate) fn no_entry_has(
    store: &Store,
    group: &Group,
    node: NodeId,
    label: LabelId,
    number: u16,
) -> bool
    requires { node.0 < nodes store.now.parts }
    ensures exact { IsTrue result ↔ EachEntry store.now.now node.0 (λ c. Contains (map_row group.now node.0 c label.0) number → ⊥) }
    ensures known { Known store.now }
{
    for place in 0..entry_count(store.problem().parts(), node) {
        if store.entry_in(node, place) && is_member(row_of(group, node, place, label), number) {
            return false;
        }
    }
    true
}

/// Whether a value of an attribute remains.
pub(crate) fn remains(store: &Store, slot: Slot, value: u16) -> bool
    requires slot { IsSlot store.now.parts slot }
    requires value { value < slot.count }
    ensures exact { IsTrue result ↔ Has store.now.now (decision_of store.now.parts slot) value }
    ensures known { Known store.now }
{
    store.attr_in(slot.node, slot.dim, slot.attr, value)
}

/// Whether no value remains of both of two attributes.
#[tactic(auto, using(xdg_graph::proofs::SlotValues::slot_below))]
pub(crate) fn are_apart(store: &Store, one: Slot, other: Slot) -> bool
    requires one { IsSlot store.now.parts one }
    requires other { IsSlot store.now.parts other }
    ensures exact { IsTrue result
        ↔ ((x : ℕ) → Has store.now.now (decision_of store.now.parts one) x → Has store.now.now (decision_of store.now.parts other) x → ⊥) }
    ensures known { Known store.now }
{
    let _ = store.turns();
    for value in 0..one.count.min(other.count) {
        if remains(store, one, value) && remains(store, other, value) {
            return false;
        }
    }
    true
}

/// Whether no remaining value of an attribute is in a set.
#[tactic(auto, using(xdg_graph::proofs::SlotValues::slot_below))]
pub(crate) fn none_is_in(store: &Store, slot: Slot, set: &[u16]) -> bool
    requires { IsSlot store.now.parts slot }
    ensures exact { IsTrue result ↔ ((x : ℕ) → Has store.now.now (decision_of store.now.parts slot) x → Contains set.now x → ⊥) }
    ensures known { Known store.now }
{
    let _ = store.turns();
    for value in 0..slot.count {
        if remains(store, slot, value) && is_member(set, value) {
            return false;
        }
    }
    true
}

/// Whether no remaining value of an attribute is in the set that a remaining entry of a node has at a label.
pub(crate) fn none_is_allowed(
    store: &Store,
    group: &Group,
    node: NodeId,
    label: LabelId,
    slot: Slot,
) -> bool
    requires node { node.0 < nodes store.now.parts }
    requires slot { IsSlot store.now.parts slot }
    ensures exact { IsTrue result
        ↔ EachEntry store.now.now node.0
        (λ c. (x : ℕ) → Has store.now.now (decision_of store.now.parts slot) x → Contains (map_row group.now node.0 c label.0) x → ⊥) }
    ensures known { Known store.now }
{
    for place in 0..entry_count(store.problem().parts(), node) {
        if store.entry_in(node, place)
            && !none_is_in(store, slot, row_of(group, node, place, label))
        {
            return false;
        }
    }
    true
}

/// Whether a value of an attribute remains, and not of another attribute.
#[tactic(auto, using(xdg_graph::proofs::SlotValues::slot_below))]
pub(crate) fn lacks_other(store: &Store, slot: Slot, other: Slot, value: u16) -> bool
    requires slot { IsSlot store.now.parts slot }
    requires other { IsSlot store.now.parts other }
    requires value { value < slot.count }
    ensures exact { IsTrue result
        ↔ (Has store.now.now (decision_of store.now.parts slot) value × LacksOther (decision_of store.now.parts other) store.now.now value) }
    ensures known { Known store.now }
{
    if !remains(store, slot, value) {
        return false;
    }
    if value >= other.count {
        return true;
    }
    !remains(store, other, value)
}

/// Whether a value of an attribute remains, and is in the set of no remaining entry of a node at a label.
pub(crate) fn lacks_entry(
    store: &Store,
    group: &Group,
    slot: Slot,
    node: NodeId,
    label: LabelId,
    value: u16,
) -> bool
    requires slot { IsSlot store.now.parts slot }
    requires node { node.0 < nodes store.now.parts }
    requires value { value < slot.count }
    ensures exact { IsTrue result ↔ (Has store.now.now (decision_of store.now.parts slot) value × LacksEntry group.now node.0 label.0 store.now.now value) }
    ensures known { Known store.now }
{
    if !remains(store, slot, value) {
        return false;
    }
    no_entry_has(store, group, node, label, value)
}

/// Whether an entry of a node remains, and no value of an attribute that is in its set.
pub(crate) fn lacks_value(
    store: &Store,
    group: &Group,
    slot: Slot,
    node: NodeId,
    place: u16,
) -> bool
    requires slot { IsSlot store.now.parts slot }
    requires node { node.0 < nodes store.now.parts }
    requires place { place < length (slice_index_or store.now.parts.candidates node.0 []) }
    ensures exact { IsTrue result
        ↔ (Has store.now.now (entry_decision node.0) place × LacksValue group.now node.0 (decision_of store.now.parts slot) store.now.now place) }
    ensures known { Known store.now }
{
    if !store.entry_in(node, place) {
        return false;
    }
    none_is_in(store, slot, row_of(group, node, place, LabelId(0)))
}
