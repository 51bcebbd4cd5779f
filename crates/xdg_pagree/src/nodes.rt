//! The places and nodes of a sentence, one after another, as far as something was lost there.

ghost use Rattle.std.specs.Prelude.{◌≡◌, ◌<◌};
ghost use Rattle.xdg_problem.specs.declared.parts.Principle.TheVariants as principles;
ghost use Rattle.xdg_problem.specs.Arguments.{first_dim};
ghost use Rattle.xdg_problem.specs.Places.{nodes};
ghost use Rattle.xdg_problem.specs.Problems.{IsGroup};
ghost use Rattle.xdg_store.specs.InRange.{HasEdges};
ghost use Rattle.xdg_store.specs.States.{Known};
ghost use Rattle.xdg_pagree.specs.Family.{IsOfFamily, IsOfPlaces};
ghost use Rattle.xdg_graph.specs.Edges.{edge_labels};
ghost use Rattle.xdg_pagree.specs.Places.{AreMothersDone, AreNodesDone, IsLabelDone, PlaceAsks};
ghost use Rattle.xdg_graph.specs.Every.{IsEvery};
ghost use Rattle.xdg_pagree.specs.Untouched.{AreNodesBeside, AreOthersDone, AreOthersDoneAt};
ghost use Rattle.xdg_propcore.specs.Passes.{IsQuiet};
ghost use Rattle.xdg_propcore.specs.Sweeps.{Sweeps};

use crate::mothers::{mothers_at, own_nodes};
use crate::places::{agr_at, asks, place_at};
use crate::reads::is_agr;
use crate::touched::daughters_at;
use xdg_base::{DimId, LabelId, NodeId};
use xdg_graph::{every_node, labels_of};
use xdg_nodeset::NodeSet;
use xdg_problem::{Edge, Group, dim_of};
use xdg_propcore::{Pass, Touched};
use xdg_store::Store;

/// Takes what the principle use takes at the places of a label from a mother, whose entries ask for it, to some daughters, where
/// nothing is left to take at those to the others.
fn sweep_daughters(
    store: &mut Store,
    pass: &mut Pass,
    group: &Group,
    dim: DimId,
    mother: NodeId,
    label: LabelId,
    daughters: NodeSet,
)
    requires known { Known store.old }
    requires group { IsGroup store.old.parts group.now }
    requires principle { IsOfPlaces group.now.principle }
    requires dim { dim.0 ≡ first_dim group.now }
    requires edges { HasEdges store.old.parts dim.0 mother.0 label.0 }
    requires asks { PlaceAsks group.now.principle group.now store.old.now mother.0 label.0 }
    requires daughters { AreNodesBeside store.old.parts mother.0 daughters }
    requires others { IsQuiet pass.old → AreOthersDoneAt store.old.parts group.now dim.0 mother.0 label.0 daughters store.old.now }
    ensures { Sweeps group.now (IsLabelDone store.old.parts group.now mother.0 label.0) pass.old store.old pass.new store.new }
{
    for daughter in daughters.iter() {
        let edge = Edge {
            dim,
            mother,
            label,
            daughter,
        };
        place_at(store, pass, group, edge);
    }
}

/// Takes what the principle use takes at the places of a label out of a mother.
#[tactic(auto, using(crate::proofs::Others::done_at_others))]
fn sweep_mother(
    store: &mut Store,
    pass: &mut Pass,
    group: &Group,
    touched: &Touched,
    dim: DimId,
    mother: NodeId,
    label: LabelId,
)
    requires known { Known store.old }
    requires group { IsGroup store.old.parts group.now }
    requires principle { IsOfPlaces group.now.principle }
    requires dim { dim.0 ≡ first_dim group.now }
    requires edges { HasEdges store.old.parts dim.0 mother.0 label.0 }
    requires label { label.0 < 32 }
    requires others { IsQuiet pass.old → AreOthersDone touched.now store.old.parts group.now store.old.now }
    ensures { Sweeps group.now
        (λ box. PlaceAsks group.now.principle group.now box mother.0 label.0 → IsLabelDone store.old.parts group.now mother.0 label.0 box) pass.old store.old
        pass.new store.new }
{
    let daughters = daughters_at(store, touched, dim, mother, label);
    if daughters.len() == 0 {
        return;
    }
    if !asks(store, group, mother, label) {
        return;
    }
    sweep_daughters(store, pass, group, dim, mother, label, daughters);
}

/// Takes what the principle use takes at the places of a label.
#[tactic(auto, using(crate::proofs::Others::others_later))]
fn sweep_label(
    store: &mut Store,
    pass: &mut Pass,
    group: &Group,
    touched: &Touched,
    sentence: NodeSet,
    dim: DimId,
    label: LabelId,
)
    requires known { Known store.old }
    requires group { IsGroup store.old.parts group.now }
    requires principle { IsOfPlaces group.now.principle }
    requires sentence { IsEvery (nodes store.old.parts) sentence }
    requires dim { dim.0 ≡ first_dim group.now }
    requires edges { label.0 < edge_labels store.old.parts dim.0 }
    requires label { label.0 < 32 }
    requires others { IsQuiet pass.old → AreOthersDone touched.now store.old.parts group.now store.old.now }
    ensures { Sweeps group.now (AreMothersDone store.old.parts group.now label.0) pass.old store.old pass.new store.new }
{
    let mothers = mothers_at(store, touched, sentence, dim, label);
    for mother in mothers.iter() {
        sweep_mother(store, pass, group, touched, dim, mother, label);
    }
}

/// Takes what agreement or government takes at all labels.
#[tactic(auto, using(crate::proofs::Others::others_later))]
fn sweep_labels(store: &mut Store, pass: &mut Pass, group: &Group, touched: &Touched)
    requires known { Known store.old }
    requires group { IsGroup store.old.parts group.now }
    requires principle { IsOfPlaces group.now.principle }
    requires others { IsQuiet pass.old → AreOthersDone touched.now store.old.parts group.now store.old.now }
    ensures { Sweeps group.now (AreNodesDone (nodes store.old.parts) store.old.parts group.now) pass.old store.old pass.new store.new }
{
    let dim = dim_of(group, 0);
    let sentence = every_node(store);
    for number in 0..labels_of(store, dim) {
        sweep_label(store, pass, group, touched, sentence, dim, LabelId(number));
    }
}

/// Takes what agr takes at all nodes.
fn sweep_agr(store: &mut Store, pass: &mut Pass, group: &Group, touched: &Touched)
    requires known { Known store.old }
    requires group { IsGroup store.old.parts group.now }
    requires principle { group.now.principle ≡ principles.Agr }
    requires others { IsQuiet pass.old → AreOthersDone touched.now store.old.parts group.now store.old.now }
    ensures { Sweeps group.now (AreNodesDone (nodes store.old.parts) store.old.parts group.now) pass.old store.old pass.new store.new }
{
    let nodes = own_nodes(store, touched);
    for node in nodes.iter() {
        agr_at(store, pass, group, node);
    }
}

/// Takes what the principle use takes at all nodes, where nothing is left to take where nothing was lost.
pub(crate) fn sweep_nodes(store: &mut Store, pass: &mut Pass, group: &Group, touched: &Touched)
    requires known { Known store.old }
    requires group { IsGroup store.old.parts group.now }
    requires principle { IsOfFamily group.now.principle }
    requires others { IsQuiet pass.old → AreOthersDone touched.now store.old.parts group.now store.old.now }
    ensures { Sweeps group.now (AreNodesDone (nodes store.old.parts) store.old.parts group.now) pass.old store.old pass.new store.new }
{
    if is_agr(group) {
        sweep_agr(store, pass, group, touched);
        return;
    }
    sweep_labels(store, pass, group, touched);
}
