//! Taking edges away.

ghost use Rattle.std.specs.Prelude.{◌≡◌, ◌≢◌, ◌<◌};
ghost use Rattle.xdg_problem.specs.Analyses.{IsPlace};
ghost use Rattle.xdg_rules.specs.Rules.{may_edges};
ghost use Rattle.xdg_store.specs.States.{Known};
ghost use Rattle.xdg_propcore.specs.Passes.{Clears};
ghost use Rattle.xdg_pgraph.specs.Seeking.{Aims, FromTo, Only, ToNode, ToWith};
ghost use Rattle.xdg_pgraph.specs.Planes.{IsPlane};

use crate::bundle::{Bundle, Way, ends};
use crate::finding::entering;
use crate::found::Found;
use crate::plane::Plane;
use xdg_graph::Which;
use xdg_problem::Edge;
use xdg_propcore::Pass;
use xdg_store::Store;

/// Takes away that an edge is present, unless it is the only one of some edges.
fn forbid_other(store: &mut Store, pass: &mut Pass, edge: Edge, others: Found)
    requires place { IsPlace store.old.parts edge }
    requires known { Known store.old }
    ensures clears { Clears (Aims store.old.parts edge.dim.0 others (λ e. e ≡ edge)) pass.old store.old pass.new store.new }
    ensures known { Known store.new }
{
    if !others.has_other(edge) {
        return;
    }
    pass.forbid(store, edge);
}

/// Takes away that an edge from a node to another is present, each that isn't the only one of some edges.
pub(crate) fn forbid_joined(
    store: &mut Store,
    pass: &mut Pass,
    plane: &Plane,
    mother: u8,
    daughter: u8,
    others: Found,
)
    requires plane { IsPlane store.old.parts plane.now }
    requires known { Known store.old }
    requires mother { mother < plane.now.nodes }
    requires daughter { daughter < plane.now.nodes }
    requires differ { mother ≢ daughter }
    ensures clears { Clears (Aims store.old.parts plane.now.dim.0 others (FromTo mother daughter)) pass.old store.old pass.new store.new }
    ensures known { Known store.new }
{
    for label in 0..plane.labels {
        forbid_other(store, pass, plane.edge(mother, label, daughter), others);
    }
}

/// Takes away that an edge with a label into a node is present, each that isn't the only one of some edges. It looks only at those that
/// may be.
fn forbid_labelled(
    store: &mut Store,
    pass: &mut Pass,
    plane: &Plane,
    daughter: u8,
    label: u8,
    others: Found,
)
    requires plane { IsPlane store.old.parts plane.now }
    requires known { Known store.old }
    requires daughter { daughter < plane.now.nodes }
    ensures clears { Clears (Aims store.old.parts plane.now.dim.0 others (ToWith daughter label)) pass.old store.old pass.new store.new }
    ensures known { Known store.new }
{
    let bundle = Bundle {
        way: Way::In,
        node: daughter,
        label,
    };
    let mothers = ends(store, plane, Which::May, bundle);
    for mother in mothers.iter() {
        forbid_other(store, pass, plane.edge(mother.0, label, daughter), others);
    }
}

/// Takes away that an edge into a node is present, each that isn't the only one of some edges.
pub(crate) fn forbid_entering(
    store: &mut Store,
    pass: &mut Pass,
    plane: &Plane,
    daughter: u8,
    others: Found,
)
    requires plane { IsPlane store.old.parts plane.now }
    requires known { Known store.old }
    requires daughter { daughter < plane.now.nodes }
    ensures clears { Clears (Aims store.old.parts plane.now.dim.0 others (ToNode daughter)) pass.old store.old pass.new store.new }
    ensures known { Known store.new }
{
    for label in 0..plane.labels {
        forbid_labelled(store, pass, plane, daughter, label, others);
    }
}

/// Takes away that an edge into a node is absent, where no other into it may be present.
pub(crate) fn force_entering(store: &mut Store, pass: &mut Pass, plane: &Plane, daughter: u8)
    requires plane { IsPlane store.old.parts plane.now }
    requires known { Known store.old }
    requires daughter { daughter < plane.now.nodes }
    ensures clears { Clears (Only store.old.parts (may_edges store.old.parts store.old.now plane.now.dim.0) daughter) pass.old store.old pass.new store.new }
    ensures known { Known store.new }
{
    match entering(store, plane, Which::May, daughter) {
        Found::Nothing => {}
        Found::One(edge) => pass.force(store, edge),
        Found::More => {}
    }
}
