//! The nodes at which something may be left to take: those that have lost something, and the mothers of those.

ghost use Rattle.std.specs.Prelude.{◌≡◌, ◌<◌, ℕ, true};
ghost use Rattle.xdg_facts.specs.Rises.{has};
ghost use Rattle.xdg_problem.specs.Places.{nodes};
ghost use Rattle.xdg_store.specs.States.{Known};
ghost use Rattle.xdg_graph.specs.Edges.{edge_labels};
ghost use Rattle.xdg_graph.specs.Every.{IsEvery};
ghost use Rattle.xdg_pagree.specs.Untouched.{AreMothersOf, HasMothers, HasOwn};

use crate::touched::{nodes_at, touched_nodes};
use xdg_base::{DimId, LabelId};
use xdg_graph::every_node;
use xdg_nodeset::NodeSet;
use xdg_propcore::Touched;
use xdg_store::Store;

/// The nodes of the sentence that have lost an entry or a value of an attribute.
#[tactic(auto, using(crate::proofs::Bringing::own_found))]
pub(crate) fn own_nodes(store: &Store, touched: &Touched) -> NodeSet
    ensures { HasOwn store.now.parts touched.now result }
{
    touched_nodes(touched).meet(&every_node(store))
}

/// The mothers that edges with a label to some daughters may have.
fn mothers_of(store: &Store, dim: DimId, label: LabelId, daughters: NodeSet) -> NodeSet
    requires known { Known store.now }
    requires edges { label.0 < edge_labels store.now.parts dim.0 }
    requires daughters { (v : ℕ) → has daughters v ≡ true → v < nodes store.now.parts }
    ensures { AreMothersOf store.now.parts store.now.now dim.0 label.0 daughters result }
{
    let mut mothers = NodeSet::empty();
    for daughter in daughters.iter() {
        mothers = mothers.union(&store.mothers_may(dim, daughter, label));
    }
    mothers
}

/// The mothers that edges with a label may have, as far as something was lost of what is looked at for one of them.
pub(crate) fn mothers_at(
    store: &Store,
    touched: &Touched,
    sentence: NodeSet,
    dim: DimId,
    label: LabelId,
) -> NodeSet
    requires known { Known store.now }
    requires sentence { IsEvery (nodes store.now.parts) sentence }
    requires edges { label.0 < edge_labels store.now.parts dim.0 }
    requires label { label.0 < 32 }
    ensures { HasMothers store.now.parts store.now.now touched.now dim.0 label.0 result }
{
    let own = touched_nodes(touched)
        .union(&nodes_at(&touched.out, label))
        .meet(&sentence);
    let daughters = touched.attrs.meet(&sentence);
    own.union(&mothers_of(store, dim, label, daughters))
}
