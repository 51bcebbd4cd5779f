//! The rules of trees, and those of dags.

ghost use Rattle.std.specs.Prelude.{◌≡◌, ◌<◌, ℕ, true, false, Contains};
ghost use Rattle.xdg_facts.specs.Rises.{has};
ghost use Rattle.xdg_problem.specs.Paths.{roots};
ghost use Rattle.xdg_rules.specs.Rules.{OneMother, OnlyMother, may_edges};
ghost use Rattle.xdg_store.specs.States.{Known};
ghost use Rattle.xdg_propcore.specs.Passes.{Clears, IsQuiet};
ghost use Rattle.xdg_pgraph.specs.Incomings.{AreOf};
ghost use Rattle.xdg_pgraph.specs.Planes.{IsPlane};
ghost use Rattle.xdg_pgraph.specs.Ruling.{RunsFor, ForRoot, ForOthers};
ghost use Rattle.xdg_pgraph.specs.Seeking.{Aims, NoneOnly, ToNode};

use crate::entered::{Roots, find_roots};
use crate::finding::entering;
use crate::found::Found;
use crate::incoming::Incoming;
use crate::plane::Plane;
use crate::taking::{forbid_entering, force_entering};
use xdg_base::NodeId;
use xdg_graph::Which;
use xdg_nodeset::NodeSet;
use xdg_propcore::Pass;
use xdg_store::Store;

/// Into a node with an edge that must be no other may lead.
pub(crate) fn one_mother(store: &mut Store, pass: &mut Pass, plane: &Plane, incoming: &Incoming)
    requires plane { IsPlane store.old.parts plane.now }
    requires known { Known store.old }
    requires incoming { AreOf store.old.parts store.old.now plane.now.dim.0 incoming.now }
    ensures runs { RunsFor OneMother plane.now.dim.0 pass.old store.old pass.new store.new }
    ensures quiet { IsQuiet pass.new → store.new.now ≡ store.old.now }
    ensures parts { store.new.parts ≡ store.old.parts }
    ensures known { Known store.new }
{
    let crowded = incoming.must.some.meet(&incoming.may.more);
    for daughter in crowded.iter() {
        let musts = entering(store, plane, Which::Must, daughter.0);
        forbid_entering(store, pass, plane, daughter.0, musts);
    }
}

/// No edge leads into a node.
fn forbid_mothers(store: &mut Store, pass: &mut Pass, plane: &Plane, incoming: &Incoming, root: u8)
    requires plane { IsPlane store.old.parts plane.now }
    requires known { Known store.old }
    requires incoming { AreOf store.old.parts store.old.now plane.now.dim.0 incoming.now }
    requires root { root < plane.now.nodes }
    ensures clears { Clears (Aims store.old.parts plane.now.dim.0 Found.More (ToNode root)) pass.old store.old pass.new store.new }
    ensures known { Known store.new }
{
    if !incoming.may.some.contains(NodeId(root)) {
        return;
    }
    forbid_entering(store, pass, plane, root, Found::More);
}

/// Where no edge must lead into one node alone, no edge leads into it. There is such a node.
pub(crate) fn for_root(store: &mut Store, pass: &mut Pass, plane: &Plane, incoming: &Incoming)
    requires plane { IsPlane store.old.parts plane.now }
    requires known { Known store.old }
    requires incoming { AreOf store.old.parts store.old.now plane.now.dim.0 incoming.now }
    ensures runs { RunsFor ForRoot plane.now.dim.0 pass.old store.old pass.new store.new }
    ensures quiet { IsQuiet pass.new → store.new.now ≡ store.old.now }
    ensures parts { store.new.parts ≡ store.old.parts }
    ensures known { Known store.new }
{
    match find_roots(store, plane, &incoming.must.some) {
        Roots::Nothing => pass.fail(store),
        Roots::One(root) => forbid_mothers(store, pass, plane, incoming, root),
        Roots::More => {}
    }
}

/// Into each node into which one edge alone may lead that edge leads, where another node has none. Beside some nodes there is
/// nothing to take.
fn only_mother(store: &mut Store, pass: &mut Pass, plane: &Plane, single: &NodeSet)
    requires plane { IsPlane store.old.parts plane.now }
    requires known { Known store.old }
    requires within { (node : ℕ) → has single.now node ≡ true → node < plane.now.nodes }
    requires single { (node : ℕ) → has single.now node ≡ false → NoneOnly store.old.parts store.old.now plane.now.dim.0 node }
    ensures runs { (root : ℕ) → Contains (roots plane.now.nodes (may_edges store.old.parts store.old.now plane.now.dim.0)) root
        → RunsFor OnlyMother plane.now.dim.0 pass.old store.old pass.new store.new }
    ensures parts { store.new.parts ≡ store.old.parts }
    ensures known { Known store.new }
{
    for daughter in single.iter() {
        force_entering(store, pass, plane, daughter.0);
    }
}

/// Where no edge may lead into one node, edges lead into all others. There is no second such node.
pub(crate) fn for_others(store: &mut Store, pass: &mut Pass, plane: &Plane, incoming: &Incoming)
    requires plane { IsPlane store.old.parts plane.now }
    requires known { Known store.old }
    requires incoming { AreOf store.old.parts store.old.now plane.now.dim.0 incoming.now }
    ensures runs { RunsFor ForOthers plane.now.dim.0 pass.old store.old pass.new store.new }
    ensures parts { store.new.parts ≡ store.old.parts }
    ensures known { Known store.new }
{
    match find_roots(store, plane, &incoming.may.some) {
        Roots::Nothing => {}
        Roots::One(_) => only_mother(store, pass, plane, &incoming.single()),
        Roots::More => pass.fail(store),
    }
}
