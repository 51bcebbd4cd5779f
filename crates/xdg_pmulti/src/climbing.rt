//! What climbing takes.

ghost use Rattle.std.specs.Prelude.{◌≡◌, ◌<◌};
ghost use Rattle.xdg_problem.specs.Places.{nodes};
ghost use Rattle.xdg_propcore.specs.Passes.{Clears};
ghost use Rattle.xdg_rules.specs.Rules.{ClimbingReach};
ghost use Rattle.xdg_store.specs.States.{Known};
ghost use Rattle.xdg_pmulti.specs.Aims.{Forbids, From, Leaves};

use crate::taking::forbid_beyond;
use xdg_base::{DimId, LabelId, NodeId};
use xdg_graph::{Which, above, labels_of, node_count, set_at};
use xdg_nodeset::NodeSet;
use xdg_problem::{Group, dim_of};
use xdg_propcore::Pass;
use xdg_store::Store;

/// Takes away that an edge out of a node is present, each whose daughter is outside a set.
fn forbid_from(store: &mut Store, pass: &mut Pass, dim: DimId, mother: NodeId, within: NodeSet)
    requires known { Known store.old }
    requires node { mother.0 < nodes store.old.parts }
    ensures clears { Clears (Forbids store.old.parts dim.0 (From mother.0 within)) pass.old store.old pass.new store.new }
    ensures known { Known store.new }
{
    for label in 0..labels_of(store, dim) {
        forbid_beyond(store, pass, dim, mother, LabelId(label), within);
    }
}

/// Takes away that an edge is present, each whose daughter a table lacks for its mother.
fn forbid_leaving(store: &mut Store, pass: &mut Pass, dim: DimId, table: &[NodeSet; 128])
    requires { Known store.old }
    ensures clears { Clears (Forbids store.old.parts dim.0 (Leaves table.now)) pass.old store.old pass.new store.new }
    ensures known { Known store.new }
{
    for mother in 0..node_count(store) {
        let mother = NodeId(mother);
        forbid_from(store, pass, dim, mother, set_at(table, mother));
    }
}

/// Takes the edges of the first dimension whose daughters can't be below their mothers on the second.
pub(crate) fn take_climbing(store: &mut Store, pass: &mut Pass, group: &Group)
    ensures clears { Clears (ClimbingReach store.old.parts group.now store.old.now) pass.old store.old pass.new store.new }
    ensures known { Known store.new }
{
    let below = above(store, Which::May, dim_of(group, 1));
    forbid_leaving(store, pass, dim_of(group, 0), &below);
}
