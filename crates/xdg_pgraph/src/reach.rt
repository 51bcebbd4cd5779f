//! What paths along edges that must be lead to.

ghost use Rattle.std.specs.Prelude.{◌≡◌, ◌<◌};
ghost use Rattle.xdg_propcore.specs.Passes.{Clears};
ghost use Rattle.xdg_rules.specs.Rules.{NoCycle};
ghost use Rattle.xdg_store.specs.States.{Known};
ghost use Rattle.xdg_pgraph.specs.Planes.{IsPlane};
ghost use Rattle.xdg_pgraph.specs.Ruling.{RunsFor};
ghost use Rattle.xdg_pgraph.specs.Seeking.{Aims, BacksInto};

use crate::found::Found;
use crate::plane::Plane;
use crate::taking::forbid_joined;
use xdg_base::NodeId;
use xdg_graph::{Which, mothers_of, note_above, set_at};
use xdg_nodeset::NodeSet;
use xdg_propcore::Pass;
use xdg_store::Store;

/// Takes away the edges into a node that would close a cycle: a table leads from the node back to their mothers.
fn no_cycle_into(
    store: &mut Store,
    pass: &mut Pass,
    plane: &Plane,
    far: &[NodeSet; 128],
    daughter: u8,
)
    requires plane { IsPlane store.old.parts plane.now }
    requires known { Known store.old }
    requires daughter { daughter < plane.now.nodes }
    ensures clears { Clears (Aims store.old.parts plane.now.dim.0 Found.More (BacksInto far.now daughter)) pass.old store.old pass.new store.new }
    ensures known { Known store.new }
{
    let below = set_at(far, NodeId(daughter));
    if below.len() == 0 {
        return;
    }
    let back = mothers_of(store, Which::May, plane.dim, NodeId(daughter)).meet(&below);
    for mother in back.iter() {
        forbid_joined(store, pass, plane, mother.0, daughter, Found::More);
    }
}

/// No edge closes a cycle of edges that must be.
pub(crate) fn no_cycle(store: &mut Store, pass: &mut Pass, plane: &Plane)
    requires plane { IsPlane store.old.parts plane.now }
    requires known { Known store.old }
    ensures runs { RunsFor NoCycle plane.now.dim.0 pass.old store.old pass.new store.new }
    ensures parts { store.new.parts ≡ store.old.parts }
    ensures known { Known store.new }
{
    let mut far = [NodeSet::empty(); 128];
    note_above(&mut far, store, Which::Must, plane.dim);
    for daughter in 0..plane.nodes {
        no_cycle_into(store, pass, plane, &far, daughter);
    }
}
