//! Items that are taken, one by one.

ghost use Rattle.std.specs.Prelude.{◌≡◌, ◌<◌, true, IsTrue};
ghost use Rattle.xdg_problem.specs.Places.{nodes};
ghost use Rattle.xdg_rules.specs.Rules.{Takes, attr_of_node};
ghost use Rattle.xdg_propcore.specs.Sweeps.{Sweeps};
ghost use Rattle.xdg_porder.specs.Items.{IsAtNode, IsReady, MayOwn, NoneFollow, NoneStand, TakesEdges, TakesItems};

use xdg_base::{LabelId, NodeId};
use xdg_graph::slot_of;
use xdg_nodeset::NodeSet;
use xdg_problem::{Edge, Group, dim_of};
use xdg_propcore::Pass;
use xdg_store::Store;

/// Takes the edges from a node with a label to the nodes of a set.
pub(crate) fn take_edges(
    store: &mut Store,
    pass: &mut Pass,
    group: &Group,
    u: NodeId,
    label: LabelId,
    refused: NodeSet,
)
    requires ready { IsReady group.now store.old }
    requires takes { TakesEdges group.now u.0 label.0 refused store.old }
    ensures { Sweeps group.now (NoneFollow store.old.parts group.now u.0 label.0 refused) pass.old store.old pass.new store.new }
{
    let dim = dim_of(group, 0);
    for daughter in refused.iter() {
        let edge = Edge {
            dim,
            mother: u,
            label,
            daughter,
        };
        pass.forbid(store, edge);
    }
}

/// Takes a label as the own label of a node, where it is asked for.
fn take_own(
    store: &mut Store,
    pass: &mut Pass,
    group: &Group,
    u: NodeId,
    label: LabelId,
    asked: bool,
)
    requires at { IsAtNode group.now u.0 store.old }
    requires takes { asked ≡ true
        → MayOwn store.old.parts group.now store.old.now u.0 label.0
        × Takes store.old.parts group.now store.old.now (attr_of_node store.old.parts group.now 0 u.0) label.0 }
    ensures { Sweeps group.now (λ box. asked ≡ true → MayOwn store.old.parts group.now box u.0 label.0 → ⊥) pass.old store.old pass.new store.new }
{
    if !asked {
        return;
    }
    let slot = slot_of(store, group, 0, u);
    pass.remove_attr(store, slot.node, slot.dim, slot.attr, u16::from(label.0));
}

/// Takes the nodes of a set out of the items of a node with a label.
pub(crate) fn take_items(
    store: &mut Store,
    pass: &mut Pass,
    group: &Group,
    u: NodeId,
    label: LabelId,
    refused: NodeSet,
)
    requires at { IsAtNode group.now u.0 store.old }
    requires takes { TakesItems group.now u.0 label.0 refused store.old }
    ensures { Sweeps group.now (NoneStand store.old.parts group.now u.0 label.0 refused) pass.old store.old pass.new store.new }
{
    let mut daughters = refused;
    let own = daughters.remove(u);
    take_own(store, pass, group, u, label, own);
    take_edges(store, pass, group, u, label, daughters);
}
