//! What the entries of a mother ask for.

ghost use Rattle.std.specs.Prelude.{◌<◌, ◌↔◌, IsTrue};
ghost use Rattle.xdg_problem.specs.Places.{nodes};
ghost use Rattle.xdg_store.specs.States.{Known};
ghost use Rattle.xdg_plink.specs.Family.{IsLinking, Reaches};
ghost use Rattle.xdg_plink.specs.Steps.{Asks};

use xdg_base::{LabelId, NodeId};
use xdg_graph::{each_entry_has, each_entry_has_some};
use xdg_problem::{Group, Principle};
use xdg_store::Store;

/// Whether a principle asks for edges of the second dimension.
pub(crate) fn asks_edges(principle: &Principle) -> bool
    ensures { IsTrue result ↔ Reaches principle.now }
{
    match principle {
        Principle::LinkingEnd => true,
        Principle::LinkingDaughter => true,
        Principle::LinkingMother => true,
        Principle::LinkingBelowStart => true,
        Principle::LinkingAboveStart => true,
        Principle::LinkingSisters => true,
        _ => false,
    }
}

/// Whether each remaining entry of a node asks for something at a label.
pub(crate) fn asks(store: &Store, group: &Group, node: NodeId, label: LabelId) -> bool
    requires family { IsLinking group.now.principle }
    requires node { node.0 < nodes store.now.parts }
    ensures exact { IsTrue result ↔ Asks group.now.principle group.now store.now.now node.0 label.0 }
    ensures known { Known store.now }
{
    if asks_edges(&group.principle) {
        return each_entry_has_some(store, group, node, label);
    }
    each_entry_has(store, group, node, LabelId(0), label.0 as u16)
}
