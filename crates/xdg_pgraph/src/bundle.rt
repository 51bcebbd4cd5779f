//! The edges with a label out of a node, or into it.

ghost use Rattle.std.specs.List.Sorted.{IsStrictlyIncreasing};
ghost use Rattle.std.specs.Prelude.{◌≡◌, ◌<◌, ◌↔◌, [], ℕ, IsTrue, Contains, slice_index_or};
ghost use Rattle.xdg_facts.specs.Rises.{has};
ghost use Rattle.xdg_problem.specs.declared.parts.Group.{Group as Use};
ghost use Rattle.xdg_store.specs.States.{Known};
ghost use Rattle.xdg_graph.specs.Edges.{edges_of};
ghost use Rattle.xdg_pgraph.specs.Bundles.{HasFarNodes, argument_of, edge_to, numbers_of};
ghost use Rattle.xdg_pgraph.specs.Planes.{IsPlane};

use crate::plane::Plane;
use xdg_base::{LabelId, List, NodeId};
use xdg_graph::{Which, daughters_by, mothers_by};
use xdg_nodeset::NodeSet;
use xdg_problem::{Edge, Feat, Group};
use xdg_store::Store;

/// Out of a node, or into it.
#[derive(Clone, Copy, Debug)]
pub(crate) enum Way {
    Out,
    In,
}

/// The edges with a label out of a node, or into it.
#[derive(Clone, Copy, Debug)]
pub(crate) struct Bundle {
    pub way: Way,
    pub node: u8,
    pub label: u8,
}

/// The other nodes of the edges of a bundle that may be present, and of those that must be.
#[derive(Clone, Copy, Debug)]
pub(crate) struct FarNodes {
    pub may: NodeSet,
    pub must: NodeSet,
}

impl Bundle {
    /// The edge to another node, or from it.
    pub(crate) fn edge(self, plane: &Plane, other: u8) -> Edge
        ensures { result ≡ edge_to self.way plane.now.dim.0 self.node self.label other }
    {
        match self.way {
            Way::Out => plane.edge(self.node, self.label, other),
            Way::In => plane.edge(other, self.label, self.node),
        }
    }
}

/// The place of the feature that says how many edges there may be.
pub(crate) fn argument(way: Way) -> usize
    ensures { result ≡ argument_of way }
{
    match way {
        Way::Out => 1,
        Way::In => 0,
    }
}

/// The features of a node's candidates.
pub(crate) fn features_of(group: &Group, node: u8) -> &[List<Feat>]
    ensures { result.now ≡ slice_index_or group.now.feats node [] }
{
    let Some(candidates) = group.feats.get(node as usize) else {
        return &[];
    };
    candidates.as_slice()
}

/// The numbers of edges that a candidate of the node allows, by the features of all of them. They rise.
pub(crate) fn numbers_at(candidates: &[List<Feat>], bundle: Bundle, place: u16) -> &[u16]
    ensures same { (group : Use) → candidates.now ≡ slice_index_or group.feats bundle.node []
        → result.now ≡ numbers_of bundle.way group bundle.node bundle.label place }
    ensures rising { IsStrictlyIncreasing result.now }
{
    let Some(features) = candidates.get(place as usize) else {
        return &[];
    };
    let Some(feature) = features.get(argument(bundle.way)) else {
        return &[];
    };
    let Some(numbers) = feature.rows.get(bundle.label as usize) else {
        return &[];
    };
    numbers.as_slice()
}

/// The other nodes of the edges of a bundle that may be present, or that must be; a dimension without edges has none.
pub(crate) fn ends(store: &Store, plane: &Plane, which: Which, bundle: Bundle) -> NodeSet
    requires plane { IsPlane store.now.parts plane.now }
    requires known { Known store.now }
    requires node { bundle.node < plane.now.nodes }
    ensures { (other : ℕ)
        → IsTrue (has result other)
        ↔ Contains (edges_of which store.now.parts store.now.now plane.now.dim.0) (edge_to bundle.way plane.now.dim.0 bundle.node bundle.label other) }
{
    if bundle.label >= plane.labels {
        return NodeSet::empty();
    }
    let node = NodeId(bundle.node);
    let label = LabelId(bundle.label);
    match bundle.way {
        Way::Out => daughters_by(store, which, plane.dim, node, label),
        Way::In => mothers_by(store, which, plane.dim, node, label),
    }
}

impl FarNodes {
    /// Those of a bundle.
    pub(crate) fn of(store: &Store, plane: &Plane, bundle: Bundle) -> FarNodes
        requires plane { IsPlane store.now.parts plane.now }
        requires known { Known store.now }
        requires node { bundle.node < plane.now.nodes }
        ensures { HasFarNodes store.now.parts store.now.now plane.now.dim.0 bundle.way bundle.node bundle.label result }
    {
        FarNodes {
            may: ends(store, plane, Which::May, bundle),
            must: ends(store, plane, Which::Must, bundle),
        }
    }
}
