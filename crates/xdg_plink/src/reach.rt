//! Which nodes stand above others by edges that may be present.

ghost use Rattle.xdg_rules.specs.Rules.{may_edges};
ghost use Rattle.xdg_store.specs.States.{Known};
ghost use Rattle.xdg_plink.specs.Ways.{Covers, Keeps};

use xdg_base::DimId;
use xdg_graph::{Which, ancestors, mothers};
use xdg_nodeset::NodeSet;
use xdg_problem::Linking;
use xdg_store::Store;

/// For each node those that may be its mothers, those that may be above it, or none, as a way of linking asks for them.
pub(crate) fn table_for(store: &Store, dim: DimId, way: Linking) -> [NodeSet; 128]
    ensures covers { Covers way (may_edges store.now.parts store.now.now dim.0) result }
    ensures keeps { Keeps way (may_edges store.now.parts store.now.now dim.0) result }
    ensures known { Known store.now }
{
    // Each store holds a box.
    let _ = store.turns();
    match way {
        Linking::BelowStart => ancestors(store, Which::May, dim),
        Linking::AboveStart => ancestors(store, Which::May, dim),
        Linking::Sisters => mothers(store, Which::May, dim),
        Linking::End => [NodeSet::empty(); 128],
        Linking::Daughter => [NodeSet::empty(); 128],
        Linking::Mother => [NodeSet::empty(); 128],
    }
}
