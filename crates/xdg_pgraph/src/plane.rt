//! The places of a dimension.

ghost use Rattle.std.specs.Prelude.{◌≡◌, ◌<◌, length};
ghost use Rattle.xdg_problem.specs.Arguments.{first_dim, label_count};
ghost use Rattle.xdg_problem.specs.Places.{edge};
ghost use Rattle.xdg_problem.specs.Problems.{IsProblem, IsGroup};
ghost use Rattle.xdg_pgraph.specs.Family.{IsOfFamily};
ghost use Rattle.xdg_pgraph.specs.Planes.{IsPlane};

use xdg_base::{DimId, LabelId, NodeId};
use xdg_problem::{Edge, Group, Parts, dim_of};

/// A dimension with its number of nodes and of labels; a dimension without edges has no labels here.
#[derive(Clone, Copy, Debug)]
pub(crate) struct Plane {
    pub dim: DimId,
    pub nodes: u8,
    pub labels: u8,
}

/// How many labels the dimension has, with edges or without.
pub(crate) fn label_count(parts: &Parts, plane: &Plane) -> u8
    requires problem { IsProblem parts.now }
    requires dim { plane.now.dim.0 < length parts.now.dims }
    ensures { result ≡ label_count parts.now plane.now.dim.0 }
{
    parts.dims.as_slice()[usize::from(plane.dim.0)].labels.len() as u8
}

impl Plane {
    /// The first dimension of a principle use.
    pub(crate) fn of(parts: &Parts, group: &Group) -> Plane
        requires problem { IsProblem parts.now }
        requires group { IsGroup parts.now group.now }
        requires family { IsOfFamily group.now.principle }
        ensures plane { IsPlane parts.now result }
        ensures dim { result.dim.0 ≡ first_dim group.now }
    {
        let dim = dim_of(group, 0);
        let plan = &parts.dims.as_slice()[usize::from(dim.0)];
        let labels = if plan.graph { plan.labels.len() } else { 0 };
        Plane {
            dim,
            nodes: parts.words.len() as u8,
            labels: labels as u8,
        }
    }

    /// An edge of the dimension.
    pub(crate) fn edge(&self, mother: u8, label: u8, daughter: u8) -> Edge
        ensures { result ≡ edge self.now.dim.0 mother label daughter }
    {
        Edge {
            dim: self.dim,
            mother: NodeId(mother),
            label: LabelId(label),
            daughter: NodeId(daughter),
        }
    }
}
