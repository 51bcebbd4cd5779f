//! The rule of labels, and all rules of trees and of dags together.

ghost use Rattle.std.specs.Prelude.{◌≡◌, ◌≢◌, ◌<◌};
ghost use Rattle.xdg_rules.specs.Rules.{NoCycle, OneLabel, must_edges};
ghost use Rattle.xdg_propcore.specs.Passes.{Clears};
ghost use Rattle.xdg_store.specs.States.{Known};
ghost use Rattle.xdg_pgraph.specs.Musts.{RunsBut};
ghost use Rattle.xdg_pgraph.specs.Planes.{IsPlane};
ghost use Rattle.xdg_pgraph.specs.Ruling.{RunsFor, OneLabelOf, RootIf, LabelIf, ByTree, ByDag};
ghost use Rattle.xdg_pgraph.specs.Seeking.{Doubled, FromTo};

use crate::entered::entered_from;
use crate::finding::joined;
use crate::incoming::{Incoming, are_settled};
use crate::plane::Plane;
use crate::reach::no_cycle;
use crate::taking::forbid_joined;
use crate::tree::{for_others, for_root, one_mother};
use xdg_base::NodeId;
use xdg_graph::Which;
use xdg_nodeset::NodeSet;
use xdg_propcore::{Moved, Pass};
use xdg_store::Store;

/// From a node to another no edge leads beside one that must be.
fn one_label_between(store: &mut Store, pass: &mut Pass, plane: &Plane, mother: u8, daughter: u8)
    requires plane { IsPlane store.old.parts plane.now }
    requires known { Known store.old }
    requires mother { mother < plane.now.nodes }
    requires daughter { daughter < plane.now.nodes }
    requires differ { mother ≢ daughter }
    ensures clears { Clears (Doubled store.old.parts plane.now.dim.0 (must_edges store.old.parts store.old.now plane.now.dim.0)
        (FromTo mother daughter)) pass.old store.old pass.new store.new }
    ensures known { Known store.new }
{
    let musts = joined(store, plane, Which::Must, mother, daughter);
    forbid_joined(store, pass, plane, mother, daughter, musts);
}

/// The same from a node to each other.
fn one_label_from(store: &mut Store, pass: &mut Pass, plane: &Plane, mother: u8)
    requires plane { IsPlane store.old.parts plane.now }
    requires known { Known store.old }
    requires mother { mother < plane.now.nodes }
    ensures runs { RunsFor (OneLabelOf (λ e. e.mother.0 ≡ mother)) plane.now.dim.0 pass.old store.old pass.new store.new }
    ensures parts { store.new.parts ≡ store.old.parts }
    ensures known { Known store.new }
{
    let must = entered_from(store, plane, Which::Must, mother);
    let doubled = must
        .some
        .meet(&entered_from(store, plane, Which::May, mother).more);
    for daughter in 0..plane.nodes {
        if !doubled.contains(NodeId(daughter)) {
            continue;
        }
        one_label_between(store, pass, plane, mother, daughter);
    }
}

/// From each node to each other no edge leads beside one that must be.
pub(crate) fn one_label(store: &mut Store, pass: &mut Pass, plane: &Plane)
    requires plane { IsPlane store.old.parts plane.now }
    requires known { Known store.old }
    ensures runs { RunsFor OneLabel plane.now.dim.0 pass.old store.old pass.new store.new }
    ensures parts { store.new.parts ≡ store.old.parts }
    ensures known { Known store.new }
{
    for mother in 0..plane.nodes {
        one_label_from(store, pass, plane, mother);
    }
}

/// No edge closes a cycle of edges that must be, where nothing was taken before. What has taken something is followed by another step.
fn no_cycle_if_quiet(store: &mut Store, pass: &mut Pass, plane: &Plane)
    requires plane { IsPlane store.old.parts plane.now }
    requires known { Known store.old }
    ensures runs { RunsFor NoCycle plane.now.dim.0 pass.old store.old pass.new store.new }
    ensures parts { store.new.parts ≡ store.old.parts }
    ensures known { Known store.new }
{
    match pass.moved() {
        Moved::Same => no_cycle(store, pass, plane),
        Moved::Changed(_) => {}
        Moved::Dead => {}
    }
}

/// All rules of a tree.
pub(crate) fn take_tree(store: &mut Store, pass: &mut Pass, plane: &Plane)
    requires plane { IsPlane store.old.parts plane.now }
    requires known { Known store.old }
    ensures runs { RunsFor ByTree plane.now.dim.0 pass.old store.old pass.new store.new }
    ensures parts { store.new.parts ≡ store.old.parts }
    ensures known { Known store.new }
{
    let first = Incoming::of(store, plane);
    one_mother(store, pass, plane, &first);
    let second = first.renewed(store, pass, plane);
    for_root(store, pass, plane, &second);
    let third = second.renewed(store, pass, plane);
    for_others(store, pass, plane, &third);
    no_cycle_if_quiet(store, pass, plane);
}

/// The rules of the root, where they are asked for.
fn take_root(store: &mut Store, pass: &mut Pass, plane: &Plane, wanted: bool)
    requires plane { IsPlane store.old.parts plane.now }
    requires known { Known store.old }
    ensures runs { RunsFor (RootIf wanted) plane.now.dim.0 pass.old store.old pass.new store.new }
    ensures parts { store.new.parts ≡ store.old.parts }
    ensures known { Known store.new }
{
    if !wanted {
        return;
    }
    let first = Incoming::of(store, plane);
    for_root(store, pass, plane, &first);
    let second = first.renewed(store, pass, plane);
    for_others(store, pass, plane, &second);
}

/// The rules that go by the edges that may be, where they are asked for, and where only some nodes need be looked at.
pub(crate) fn take_others(
    store: &mut Store,
    pass: &mut Pass,
    plane: &Plane,
    wanted: bool,
    daughters: NodeSet,
)
    requires plane { IsPlane store.old.parts plane.now }
    requires known { Known store.old }
    ensures runs { RunsBut daughters wanted plane.now.dim.0 pass.old store.old pass.new store.new }
    ensures parts { store.new.parts ≡ store.old.parts }
    ensures known { Known store.new }
{
    if !wanted {
        return;
    }
    if are_settled(store, plane, daughters) {
        return;
    }
    let incoming = Incoming::of(store, plane);
    for_others(store, pass, plane, &incoming);
}

/// The rule of labels, where it is asked for.
fn take_labels(store: &mut Store, pass: &mut Pass, plane: &Plane, wanted: bool)
    requires plane { IsPlane store.old.parts plane.now }
    requires known { Known store.old }
    ensures runs { RunsFor (LabelIf wanted) plane.now.dim.0 pass.old store.old pass.new store.new }
    ensures parts { store.new.parts ≡ store.old.parts }
    ensures known { Known store.new }
{
    if !wanted {
        return;
    }
    one_label(store, pass, plane);
}

/// All rules of a dag, which may ask for one root and for one label.
pub(crate) fn take_dag(
    store: &mut Store,
    pass: &mut Pass,
    plane: &Plane,
    rooted: bool,
    disjoint: bool,
)
    requires plane { IsPlane store.old.parts plane.now }
    requires known { Known store.old }
    ensures runs { RunsFor (ByDag rooted disjoint) plane.now.dim.0 pass.old store.old pass.new store.new }
    ensures parts { store.new.parts ≡ store.old.parts }
    ensures known { Known store.new }
{
    take_root(store, pass, plane, rooted);
    take_labels(store, pass, plane, disjoint);
    no_cycle_if_quiet(store, pass, plane);
}
