//! Edges that would join what has to stay apart, taken one by one.

ghost use Rattle.std.specs.Prelude.{◌≢◌, ◌<◌, ◌↔◌, IsTrue};
ghost use Rattle.xdg_problem.specs.Boxes.{Must};
ghost use Rattle.xdg_problem.specs.Places.{nodes};
ghost use Rattle.xdg_graph.specs.Edges.{edge_labels};
ghost use Rattle.xdg_store.specs.States.{Known};
ghost use Rattle.xdg_propcore.specs.Sweeps.{Sweeps};
ghost use Rattle.xdg_plink.specs.Steps.{AsksApart, CanPart, IsDoneAt, IsFirstDone, IsSecondDone, MustJoin};

use xdg_base::{DimId, LabelId, NodeId};
use xdg_graph::labels_of;
use xdg_problem::{Edge, Group, dim_of};
use xdg_propcore::Pass;
use xdg_store::Store;

/// Whether some edge of a dimension must lead from a node to another.
#[tactic(auto, using(crate::proofs::Apart::none_joins_first, crate::proofs::Apart::none_joins_next, crate::proofs::Apart::one_joins))]
fn must_join(store: &Store, dim: DimId, mother: NodeId, daughter: NodeId) -> bool
    requires mother { mother.0 < nodes store.now.parts }
    requires daughter { daughter.0 < nodes store.now.parts }
    requires differ { mother.0 ≢ daughter.0 }
    ensures exact { IsTrue result ↔ MustJoin store.now.parts store.now.now dim.0 mother.0 daughter.0 (edge_labels store.now.parts dim.0) }
    ensures known { Known store.now }
{
    for label in 0..labels_of(store, dim) {
        let label = LabelId(label);
        let edge = Edge {
            dim,
            mother,
            label,
            daughter,
        };
        if store.must(edge) {
            return true;
        }
    }
    false
}

/// Takes an edge of the first dimension for a principle use, if one of the second must join the same nodes.
fn part_first(store: &mut Store, pass: &mut Pass, group: &Group, place: Edge)
    requires can { CanPart group.now place store.old }
    requires asks { AsksApart group.now place store.old.now }
    ensures { Sweeps group.now (IsFirstDone store.old.parts group.now place) pass.old store.old pass.new store.new }
{
    if must_join(store, dim_of(group, 1), place.mother, place.daughter) {
        pass.forbid(store, place);
        return;
    }
}

/// Takes the edges of the second dimension for a principle use that join the nodes of an edge of the first that must be.
fn part_second(store: &mut Store, pass: &mut Pass, group: &Group, place: Edge)
    requires can { CanPart group.now place store.old }
    requires must { Must store.old.parts store.old.now place }
    requires asks { AsksApart group.now place store.old.now }
    ensures { Sweeps group.now (IsSecondDone store.old.parts group.now place) pass.old store.old pass.new store.new }
{
    let dim = dim_of(group, 1);
    for label in 0..labels_of(store, dim) {
        let edge = Edge {
            dim,
            mother: place.mother,
            label: LabelId(label),
            daughter: place.daughter,
        };
        pass.forbid(store, edge);
    }
}

/// Takes for a principle use what must not join the nodes of an edge of the first dimension beside it, and the edge itself beside
/// what must.
pub(crate) fn part(store: &mut Store, pass: &mut Pass, group: &Group, place: Edge)
    requires can { CanPart group.now place store.old }
    requires asks { AsksApart group.now place store.old.now }
    ensures { Sweeps group.now (IsDoneAt store.old.parts group.now place) pass.old store.old pass.new store.new }
{
    part_first(store, pass, group, place);
    if !store.must(place) {
        return;
    }
    part_second(store, pass, group, place);
}
