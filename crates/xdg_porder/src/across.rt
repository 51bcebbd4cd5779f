//! What projectivity takes: edges across nodes that can't be below their mothers.

ghost use Rattle.std.specs.Prelude.{◌≡◌, ◌<◌};
ghost use Rattle.xdg_problem.specs.Arguments.{first_dim};
ghost use Rattle.xdg_problem.specs.Places.{nodes};
ghost use Rattle.xdg_propcore.specs.Sweeps.{Sweeps};
ghost use Rattle.xdg_graph.specs.Edges.{edge_labels};
ghost use Rattle.xdg_porder.specs.Across.{AreLabelsDone, AreNodesDone, IsAcrossNode, IsTabled};

use crate::items::may_follow;
use crate::reads::label_count;
use crate::sets::{crossed, is_empty};
use crate::taking::take_edges;
use xdg_base::{LabelId, NodeId};
use xdg_graph::{node_count, set_at};
use xdg_nodeset::NodeSet;
use xdg_problem::Group;
use xdg_propcore::Pass;
use xdg_store::Store;

/// Takes the edges from a node across nodes that by a table can't be below it.
fn take_across_node(
    store: &mut Store,
    pass: &mut Pass,
    group: &Group,
    table: &[NodeSet; 128],
    u: NodeId,
)
    requires { IsAcrossNode group.now table.now u.0 store.old }
    ensures { Sweeps group.now (AreLabelsDone store.old.parts group.now table.now u.0 (edge_labels store.old.parts (first_dim group.now))) pass.old store.old
        pass.new store.new }
{
    let across = crossed(u, set_at(table, u));
    if is_empty(across) {
        return;
    }
    for label in 0..label_count(store, group) {
        let refused = may_follow(store, group, u, LabelId(label)).meet(&across);
        take_edges(store, pass, group, u, LabelId(label), refused);
    }
}

/// Takes the edges across nodes that by a table can't be below their mothers.
pub(crate) fn take_across(store: &mut Store, pass: &mut Pass, group: &Group, table: &[NodeSet; 128])
    requires { IsTabled group.now table.now store.old }
    ensures { Sweeps group.now (AreNodesDone store.old.parts group.now table.now (nodes store.old.parts)) pass.old store.old pass.new store.new }
{
    for u in 0..node_count(store) {
        take_across_node(store, pass, group, table, NodeId(u));
    }
}
