//! What agreement and government take at one place, and agr at one node.

ghost use Rattle.std.specs.Prelude.{◌≡◌, ◌<◌, ◌↔◌, IsTrue};
ghost use Rattle.xdg_problem.specs.declared.parts.Principle.TheVariants as principles;
ghost use Rattle.xdg_problem.specs.Analyses.{IsPlace};
ghost use Rattle.xdg_problem.specs.Arguments.{first_dim};
ghost use Rattle.xdg_problem.specs.Places.{nodes};
ghost use Rattle.xdg_problem.specs.Problems.{IsGroup};
ghost use Rattle.xdg_store.specs.States.{Known};
ghost use Rattle.xdg_pagree.specs.Family.{IsOfPlaces};
ghost use Rattle.xdg_pagree.specs.Places.{IsDoneAt, IsNodeDone, PlaceAsks};
ghost use Rattle.xdg_propcore.specs.Sweeps.{Sweeps};

use crate::asking::{are_apart, none_is_allowed};
use crate::reads::is_agreement;
use crate::taking::{keep_allowed, keep_common, keep_useful};
use xdg_base::{LabelId, NodeId};
use xdg_graph::{each_entry_has, each_entry_has_some, slot_of};
use xdg_problem::{Edge, Group};
use xdg_propcore::Pass;
use xdg_store::Store;

/// Takes at a node what agr takes: the values that no remaining entry allows, and the entries that allow no remaining value.
#[tactic(auto, using(crate::proofs::AtPlaces::value_takes))]
pub(crate) fn agr_at(store: &mut Store, pass: &mut Pass, group: &Group, node: NodeId)
    requires known { Known store.old }
    requires group { IsGroup store.old.parts group.now }
    requires principle { group.now.principle ≡ principles.Agr }
    requires node { node.0 < nodes store.old.parts }
    ensures { Sweeps group.now (IsNodeDone principles.Agr store.old.parts group.now node.0) pass.old store.old pass.new store.new }
{
    let slot = slot_of(store, group, 0, node);
    keep_allowed(store, pass, group, slot, node, LabelId(0));
    keep_useful(store, pass, group, slot, node);
}

/// Takes at a place where the mother asks for agreement what agreement takes: the edge, where its ends have no value in common,
/// and where it must be, the values that the other end hasn't.
fn agree_at(store: &mut Store, pass: &mut Pass, group: &Group, edge: Edge)
    requires known { Known store.old }
    requires group { IsGroup store.old.parts group.now }
    requires principle { group.now.principle ≡ principles.Agreement }
    requires place { IsPlace store.old.parts edge }
    requires dim { edge.dim.0 ≡ first_dim group.now }
    requires asks { PlaceAsks principles.Agreement group.now store.old.now edge.mother.0 edge.label.0 }
    ensures { Sweeps group.now (IsDoneAt store.old.parts group.now edge) pass.old store.old pass.new store.new }
{
    let mother = slot_of(store, group, 0, edge.mother);
    let daughter = slot_of(store, group, 1, edge.daughter);
    if are_apart(store, mother, daughter) {
        pass.forbid(store, edge);
        return;
    }
    if !store.must(edge) {
        return;
    }
    keep_common(store, pass, group, mother, daughter);
    keep_common(store, pass, group, daughter, mother);
}

/// Takes at a place where the mother governs what government takes: the edge, where no entry of the mother allows a value of the
/// daughter, and where it must be, the values that none allows.
#[tactic(auto, using(crate::proofs::AtPlaces::government_must))]
fn govern_at(store: &mut Store, pass: &mut Pass, group: &Group, edge: Edge)
    requires known { Known store.old }
    requires group { IsGroup store.old.parts group.now }
    requires principle { group.now.principle ≡ principles.Government }
    requires place { IsPlace store.old.parts edge }
    requires dim { edge.dim.0 ≡ first_dim group.now }
    requires asks { PlaceAsks principles.Government group.now store.old.now edge.mother.0 edge.label.0 }
    ensures { Sweeps group.now (IsDoneAt store.old.parts group.now edge) pass.old store.old pass.new store.new }
{
    let slot = slot_of(store, group, 0, edge.daughter);
    if none_is_allowed(store, group, edge.mother, edge.label, slot) {
        pass.forbid(store, edge);
        return;
    }
    if !store.must(edge) {
        return;
    }
    keep_allowed(store, pass, group, slot, edge.mother, edge.label);
}

/// Takes at a place what the principle use takes there, where the mother asks for it.
pub(crate) fn place_at(store: &mut Store, pass: &mut Pass, group: &Group, edge: Edge)
    requires known { Known store.old }
    requires group { IsGroup store.old.parts group.now }
    requires principle { IsOfPlaces group.now.principle }
    requires place { IsPlace store.old.parts edge }
    requires dim { edge.dim.0 ≡ first_dim group.now }
    requires asks { PlaceAsks group.now.principle group.now store.old.now edge.mother.0 edge.label.0 }
    ensures { Sweeps group.now (IsDoneAt store.old.parts group.now edge) pass.old store.old pass.new store.new }
{
    if is_agreement(group) {
        agree_at(store, pass, group, edge);
        return;
    }
    govern_at(store, pass, group, edge);
}

/// Whether the entries of a mother ask for something at a label.
pub(crate) fn asks(store: &Store, group: &Group, mother: NodeId, label: LabelId) -> bool
    requires principle { IsOfPlaces group.now.principle }
    requires mother { mother.0 < nodes store.now.parts }
    ensures exact { IsTrue result ↔ PlaceAsks group.now.principle group.now store.now.now mother.0 label.0 }
    ensures known { Known store.now }
{
    if is_agreement(group) {
        return each_entry_has(store, group, mother, LabelId(0), label.0 as u16);
    }
    each_entry_has_some(store, group, mother, label)
}
