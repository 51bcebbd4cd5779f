//! Edges that no edge of the second dimension may link, taken one by one.

ghost use Rattle.std.specs.Prelude.{◌↔◌, IsTrue};
ghost use Rattle.xdg_problem.specs.Analyses.{IsPlace};
ghost use Rattle.xdg_store.specs.States.{Known};
ghost use Rattle.xdg_propcore.specs.Sweeps.{Sweeps};
ghost use Rattle.xdg_plink.specs.Steps.{CanCut, DoneAt, IsCut};

use crate::entries::none_links;
use xdg_nodeset::NodeSet;
use xdg_problem::{Edge, Group};
use xdg_propcore::Pass;
use xdg_store::Store;

/// Whether by a table an edge of the first dimension is to go whose mother asks for a link: it may be present, and for none of the
/// remaining entries of its mother there may be a link.
fn is_cut(store: &Store, group: &Group, table: &[NodeSet; 128], place: Edge) -> bool
    requires { IsPlace store.now.parts place }
    ensures exact { IsTrue result ↔ IsCut store.now.parts group.now table.now store.now.now place }
    ensures known { Known store.now }
{
    if !store.may(place) {
        return false;
    }
    none_links(
        store,
        group,
        table,
        place.mother,
        place.label,
        place.daughter,
    )
}

/// Takes an edge for a principle use whose mother asks for a link, if it is to go.
pub(crate) fn cut(
    store: &mut Store,
    pass: &mut Pass,
    group: &Group,
    table: &[NodeSet; 128],
    place: Edge,
)
    requires { CanCut group.now table.now place store.old }
    ensures { Sweeps group.now (DoneAt store.old.parts group.now table.now place) pass.old store.old pass.new store.new }
{
    if is_cut(store, group, table, place) {
        pass.forbid(store, place);
        return;
    }
}
