//! Looking for edges.

ghost use Rattle.std.specs.Prelude.{◌≢◌, ◌<◌, ◌↔◌, IsTrue, Contains};
ghost use Rattle.xdg_problem.specs.Analyses.{IsPlace};
ghost use Rattle.xdg_store.specs.States.{Known};
ghost use Rattle.xdg_graph.specs.Edges.{edges_of};
ghost use Rattle.xdg_pgraph.specs.Seeking.{Finds, Into, IntoWith, Joins};
ghost use Rattle.xdg_pgraph.specs.Planes.{IsPlane};

use crate::bundle::{Bundle, Way, ends};
use crate::found::Found;
use crate::plane::Plane;
use xdg_graph::Which;
use xdg_problem::Edge;
use xdg_store::Store;

/// Whether an edge may be present, or must be.
fn is_among(store: &Store, which: Which, edge: Edge) -> bool
    requires place { IsPlace store.now.parts edge }
    requires known { Known store.now }
    ensures { IsTrue result ↔ Contains (edges_of which store.now.parts store.now.now edge.dim.0) edge }
{
    match which {
        Which::May => store.may(edge),
        Which::Must => store.must(edge),
    }
}

/// The edges from a node to another.
pub(crate) fn joined(store: &Store, plane: &Plane, which: Which, mother: u8, daughter: u8) -> Found
    requires plane { IsPlane store.now.parts plane.now }
    requires known { Known store.now }
    requires mother { mother < plane.now.nodes }
    requires daughter { daughter < plane.now.nodes }
    requires differ { mother ≢ daughter }
    ensures { Finds (Joins (edges_of which store.now.parts store.now.now plane.now.dim.0) mother daughter) result }
{
    let mut found = Found::Nothing;
    for label in 0..plane.labels {
        let edge = plane.edge(mother, label, daughter);
        if !is_among(store, which, edge) {
            continue;
        }
        found = found.with(edge);
    }
    found
}

/// The edges with a label into a node.
pub(crate) fn entering_with(
    store: &Store,
    plane: &Plane,
    which: Which,
    daughter: u8,
    label: u8,
) -> Found
    requires plane { IsPlane store.now.parts plane.now }
    requires known { Known store.now }
    requires daughter { daughter < plane.now.nodes }
    ensures { Finds (IntoWith (edges_of which store.now.parts store.now.now plane.now.dim.0) daughter label) result }
{
    let bundle = Bundle {
        way: Way::In,
        node: daughter,
        label,
    };
    let mothers = ends(store, plane, which, bundle);
    let Some(mother) = mothers.first() else {
        return Found::Nothing;
    };
    if mothers.len() > 1 {
        return Found::More;
    }
    Found::One(plane.edge(mother.0, label, daughter))
}

/// The edges into a node. Where two are found no more are looked for.
pub(crate) fn entering(store: &Store, plane: &Plane, which: Which, daughter: u8) -> Found
    requires plane { IsPlane store.now.parts plane.now }
    requires known { Known store.now }
    requires daughter { daughter < plane.now.nodes }
    ensures { Finds (Into (edges_of which store.now.parts store.now.now plane.now.dim.0) daughter) result }
{
    let mut found = Found::Nothing;
    for label in 0..plane.labels {
        found = found.merged(entering_with(store, plane, which, daughter, label));
        if found.is_more() {
            return found;
        }
    }
    found
}
