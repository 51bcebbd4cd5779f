//! What barriers take.

ghost use Rattle.std.specs.Prelude.{◌≡◌, ◌<◌, ◌⊎◌, ◌↔◌, ℕ, true, [], slice_index_or};
ghost use Rattle.xdg_nodeset.specs.Tables.{InTable};
ghost use Rattle.xdg_facts.specs.Rises.{has};
ghost use Rattle.xdg_problem.specs.Places.{nodes};
ghost use Rattle.xdg_propcore.specs.Passes.{Clears};
ghost use Rattle.xdg_graph.specs.Edges.{edge_labels};
ghost use Rattle.xdg_rules.specs.Rules.{BarriersReach};
ghost use Rattle.xdg_store.specs.States.{Known};
ghost use Rattle.xdg_pmulti.specs.Aims.{AreNodes, Forbids, IsStopped, StoppedBy};

use crate::blocking::blocking;
use crate::taking::forbid_out;
use xdg_base::{DimId, LabelId, NodeId};
use xdg_graph::{Which, above, labels_of, set_at};
use xdg_nodeset::NodeSet;
use xdg_problem::{Group, dim_of};
use xdg_propcore::Pass;
use xdg_store::Store;

/// The nodes that a table has for a label.
fn barriers_at(table: &[NodeSet; 32], label: LabelId) -> NodeSet
    requires { label.0 < 32 }
    ensures { result ≡ slice_index_or table.now label.0 [] }
{
    table[usize::from(label.0)]
}

/// A node and those that a table has for it.
fn and_below(table: &[NodeSet; 128], node: NodeId) -> NodeSet
    requires { node.0 < 128 }
    ensures { (x : ℕ) → (has result x ≡ true) ↔ ((node.0 ≡ x) ⊎ InTable table.now node.0 x) }
{
    let mut below = set_at(table, node);
    below.insert(node);
    below
}

/// Takes the edges with a label that one of some nodes stops: it is the mother or must be above it, and can't be above the
/// daughter.
fn forbid_stopped(
    store: &mut Store,
    pass: &mut Pass,
    dim: DimId,
    barriers: NodeSet,
    label: LabelId,
    over: &[NodeSet; 128],
    near: &[NodeSet; 128],
)
    requires known { Known store.old }
    requires barriers { (w : ℕ) → has barriers w ≡ true → w < nodes store.old.parts }
    requires over { AreNodes store.old.parts over.now }
    requires label { label.0 < edge_labels store.old.parts dim.0 }
    ensures clears { Clears (Forbids store.old.parts dim.0 (StoppedBy barriers label.0 over.now near.now)) pass.old store.old pass.new store.new }
    ensures known { Known store.new }
{
    for barrier in barriers.iter() {
        let mothers = and_below(over, barrier);
        let within = set_at(near, barrier);
        forbid_out(store, pass, dim, mothers, label, within);
    }
}

/// Takes the edges that a node stops which blocks their label.
fn forbid_blocked(
    store: &mut Store,
    pass: &mut Pass,
    dim: DimId,
    blocking: &[NodeSet; 32],
    over: &[NodeSet; 128],
    near: &[NodeSet; 128],
)
    requires known { Known store.old }
    requires blocking { AreNodes store.old.parts blocking.now }
    requires over { AreNodes store.old.parts over.now }
    ensures clears { Clears (Forbids store.old.parts dim.0 (IsStopped blocking.now over.now near.now)) pass.old store.old pass.new store.new }
    ensures known { Known store.new }
{
    for label in 0..labels_of(store, dim) {
        let label = LabelId(label);
        let barriers = barriers_at(blocking, label);
        forbid_stopped(store, pass, dim, barriers, label, over, near);
    }
}

/// Takes the edges of the second dimension whose label a node blocks that is their mother or must be above it, and under
/// which their daughter can't be on the first.
pub(crate) fn take_barriers(store: &mut Store, pass: &mut Pass, group: &Group)
    ensures clears { Clears (BarriersReach store.old.parts group.now store.old.now) pass.old store.old pass.new store.new }
    ensures known { Known store.new }
{
    let dim = dim_of(group, 1);
    let near = above(store, Which::May, dim_of(group, 0));
    let over = above(store, Which::Must, dim);
    let barred = blocking(store, group, dim);
    forbid_blocked(store, pass, dim, &barred, &over, &near);
}
