//! Values that lack what they need, taken one by one.

ghost use Rattle.std.specs.Prelude.{◌<◌};
ghost use Rattle.xdg_problem.specs.Boxes.{entry_decision};
ghost use Rattle.xdg_problem.specs.Places.{nodes};
ghost use Rattle.xdg_problem.specs.Problems.{IsGroup};
ghost use Rattle.xdg_store.specs.States.{Known};
ghost use Rattle.xdg_pagree.specs.Places.{LacksEntry, LacksOther, LacksValue, NoneLacks};
ghost use Rattle.xdg_graph.specs.Slots.{IsSlot, decision_of};
ghost use Rattle.xdg_propcore.specs.Sweeps.{Sweeps, TakesInside};

use crate::asking::{lacks_entry, lacks_other, lacks_value};
use xdg_base::{LabelId, NodeId};
use xdg_graph::{Slot, entry_count};
use xdg_problem::Group;
use xdg_propcore::Pass;
use xdg_store::Store;

/// Takes for a principle use the values of an attribute that don't remain of another.
pub(crate) fn keep_common(
    store: &mut Store,
    pass: &mut Pass,
    group: &Group,
    slot: Slot,
    other: Slot,
)
    requires known { Known store.old }
    requires group { IsGroup store.old.parts group.now }
    requires slot { IsSlot store.old.parts slot }
    requires other { IsSlot store.old.parts other }
    requires takes { TakesInside store.old.parts group.now store.old.now (decision_of store.old.parts slot) (LacksOther (decision_of store.old.parts other)) }
    ensures { Sweeps group.now (NoneLacks (decision_of store.old.parts slot) (LacksOther (decision_of store.old.parts other))) pass.old store.old pass.new
        store.new }
{
    for value in 0..slot.count {
        if !lacks_other(store, slot, other, value) {
            continue;
        }
        pass.remove_attr(store, slot.node, slot.dim, slot.attr, value);
    }
}

/// Takes for a principle use the values of an attribute that no remaining entry of a node has in its set at a label.
pub(crate) fn keep_allowed(
    store: &mut Store,
    pass: &mut Pass,
    group: &Group,
    slot: Slot,
    node: NodeId,
    label: LabelId,
)
    requires known { Known store.old }
    requires group { IsGroup store.old.parts group.now }
    requires slot { IsSlot store.old.parts slot }
    requires node { node.0 < nodes store.old.parts }
    requires takes { TakesInside store.old.parts group.now store.old.now (decision_of store.old.parts slot) (LacksEntry group.now node.0 label.0) }
    ensures { Sweeps group.now (NoneLacks (decision_of store.old.parts slot) (LacksEntry group.now node.0 label.0)) pass.old store.old pass.new store.new }
{
    for value in 0..slot.count {
        if !lacks_entry(store, group, slot, node, label, value) {
            continue;
        }
        pass.remove_attr(store, slot.node, slot.dim, slot.attr, value);
    }
}

/// Takes for a principle use the entries of a node in whose set no value of an attribute remains.
pub(crate) fn keep_useful(
    store: &mut Store,
    pass: &mut Pass,
    group: &Group,
    slot: Slot,
    node: NodeId,
)
    requires known { Known store.old }
    requires group { IsGroup store.old.parts group.now }
    requires slot { IsSlot store.old.parts slot }
    requires node { node.0 < nodes store.old.parts }
    requires takes { TakesInside store.old.parts group.now store.old.now (entry_decision node.0)
        (LacksValue group.now node.0 (decision_of store.old.parts slot)) }
    ensures { Sweeps group.now (NoneLacks (entry_decision node.0) (LacksValue group.now node.0 (decision_of store.old.parts slot))) pass.old store.old pass.new
        store.new }
{
    for place in 0..entry_count(store.problem().parts(), node) {
        if !lacks_value(store, group, slot, node, place) {
            continue;
        }
        pass.remove_entry(store, node, place);
    }
}
