//! Attributes of nodes.

ghost use Rattle.std.specs.Prelude.{◌≡◌, ◌<◌};
ghost use Rattle.xdg_problem.specs.Places.{nodes};
ghost use Rattle.xdg_problem.specs.Problems.{IsProblem, IsGroup};
ghost use Rattle.xdg_problem.specs.Principles.{dim_arguments, attr_arguments};
ghost use Rattle.xdg_rules.specs.Rules.{attr_of_node};
ghost use Rattle.xdg_graph.specs.Slots.{IsSlot, decision_of};

use xdg_base::{AttrId, DimId, NodeId};
use xdg_problem::{Group, Parts, attr_of, dim_of};
use xdg_store::Store;

/// An attribute of a node.
#[derive(Clone, Copy, Debug)]
pub struct Slot {
    /// The node.
    pub node: NodeId,
    /// The dimension of the attribute.
    pub dim: DimId,
    /// The attribute.
    pub attr: AttrId,
    /// How many values its type has.
    pub count: u16,
}

/// The attribute of a node that an attribute argument names, in the parts of a problem.
fn slot_in(parts: &Parts, group: &Group, argument: usize, node: NodeId) -> Slot
    requires problem { IsProblem parts.now }
    requires group { IsGroup parts.now group.now }
    requires argument { argument < attr_arguments group.now.principle }
    requires dim { 0 < dim_arguments group.now.principle }
    requires node { node.0 < nodes parts.now }
    ensures slot { IsSlot parts.now result }
    ensures decision { decision_of parts.now result ≡ attr_of_node parts.now group.now argument node.0 }
    ensures node { result.node ≡ node }
{
    let dim = dim_of(group, 0);
    let attr = attr_of(group, argument);
    let plan = &parts.dims.as_slice()[usize::from(dim.0)];
    let count = plan.attrs.as_slice()[usize::from(attr.0)].values.len() as u16;
    Slot {
        node,
        dim,
        attr,
        count,
    }
}

/// The attribute of a node that an attribute argument names.
pub fn slot_of(store: &Store, group: &Group, argument: usize, node: NodeId) -> Slot
    requires group { IsGroup store.now.parts group.now }
    requires argument { argument < attr_arguments group.now.principle }
    requires dim { 0 < dim_arguments group.now.principle }
    requires node { node.0 < nodes store.now.parts }
    ensures slot { IsSlot store.now.parts result }
    ensures decision { decision_of store.now.parts result ≡ attr_of_node store.now.parts group.now argument node.0 }
{
    slot_in(store.problem().parts(), group, argument, node)
}
