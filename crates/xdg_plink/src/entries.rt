//! What each remaining entry of a node asks.

ghost use Rattle.std.specs.Prelude.{◌≡◌, ◌<◌, ◌≤◌, ◌↔◌, ◌⊎◌, ℕ, true, IsTrue};
ghost use Rattle.std.specs.List.{Any};
ghost use Rattle.xdg_facts.specs.Rises.{has};
ghost use Rattle.xdg_nodeset.specs.Tables.{Meet};
ghost use Rattle.xdg_problem.specs.Arguments.{second_dim};
ghost use Rattle.xdg_problem.specs.Features.{map_row};
ghost use Rattle.xdg_problem.specs.Places.{nodes};
ghost use Rattle.xdg_rules.specs.Rules.{EachEntry, may_edges};
ghost use Rattle.xdg_store.specs.States.{Known};
ghost use Rattle.xdg_plink.specs.Ways.{way_of, Stands, IsEnd, IsLed};

use crate::neighbours::{may_daughters, may_mothers};
use crate::way::way_of;
use xdg_base::{DimId, LabelId, NodeId};
use xdg_graph::{entry_count, row_of, set_at};
use xdg_nodeset::{NodeSet, overlap};
use xdg_problem::{Group, Linking, dim_of};
use xdg_store::Store;

/// Whether two sets have a node in common, or the first has a node.
#[tactic(auto, using(crate::proofs::Leading::here_meets, crate::proofs::Leading::far_meets))]
fn overlap_or_has(others: NodeSet, node: NodeId, far: NodeSet) -> bool
    requires { node.0 < 128 }
    ensures { IsTrue result ↔ ((x : ℕ) × (has others x ≡ true) × ((has far x ≡ true) ⊎ (node.0 ≡ x))) }
{
    if others.contains(node) {
        return true;
    }
    overlap(others, far)
}

/// Whether one of some nodes may be the other end of an edge that links v to u, by a table.
fn has_end(others: NodeSet, table: &[NodeSet; 128], way: Linking, u: NodeId, v: NodeId) -> bool
    requires u { u.0 < 128 }
    requires v { v.0 < 128 }
    ensures { IsTrue result ↔ ((x : ℕ) × (has others x ≡ true) × IsEnd way table.now u.0 v.0 x) }
{
    match way {
        Linking::End => overlap(others, others),
        Linking::Daughter => others.contains(v),
        Linking::Mother => others.contains(u),
        Linking::BelowStart => overlap_or_has(others, v, set_at(table, v)),
        Linking::AboveStart => overlap_or_has(others, u, set_at(table, u)),
        Linking::Sisters => overlap(others, set_at(table, u)),
    }
}

/// The other ends of the edges with a label that may stand for a link of v to u.
fn others(store: &Store, dim: DimId, way: Linking, u: NodeId, v: NodeId, label: u16) -> NodeSet
    requires u { u.0 < nodes store.now.parts }
    requires v { v.0 < nodes store.now.parts }
    ensures exact { (x : ℕ) → IsTrue (has result x) ↔ Stands way (may_edges store.now.parts store.now.now dim.0) u.0 v.0 label x }
    ensures known { Known store.now }
{
    match way {
        Linking::End => may_mothers(store, dim, v, label),
        Linking::Daughter => may_daughters(store, dim, u, label),
        Linking::Mother => may_daughters(store, dim, v, label),
        Linking::BelowStart => may_daughters(store, dim, u, label),
        Linking::AboveStart => may_daughters(store, dim, v, label),
        Linking::Sisters => may_mothers(store, dim, v, label),
    }
}

/// Whether an edge with one of some labels may link v to u, by a table.
#[tactic(auto, using(xdg_facts::proofs::Meetings::none_start))]
fn is_led(
    store: &Store,
    dim: DimId,
    way: Linking,
    table: &[NodeSet; 128],
    u: NodeId,
    v: NodeId,
    labels: &[u16],
) -> bool
    requires u { u.0 < nodes store.now.parts }
    requires v { v.0 < nodes store.now.parts }
    ensures exact { IsTrue result ↔ IsLed way (may_edges store.now.parts store.now.now dim.0) table.now labels.now u.0 v.0 }
    ensures known { Known store.now }
{
    // Each store holds a box.
    let _ = store.turns();
    for label in labels {
        if has_end(others(store, dim, way, u, v, *label), table, way, u, v) {
            return true;
        }
    }
    false
}

/// Whether for an entry of u an edge may link v to u as the principle use asks at a label, by a table.
fn entry_links(
    store: &Store,
    group: &Group,
    table: &[NodeSet; 128],
    u: NodeId,
    place: u16,
    label: LabelId,
    v: NodeId,
) -> bool
    requires u { u.0 < nodes store.now.parts }
    requires v { v.0 < nodes store.now.parts }
    ensures exact { IsTrue result
        ↔ IsLed (way_of group.now.principle) (may_edges store.now.parts store.now.now (second_dim group.now)) table.now (map_row group.now u.0 place label.0)
        u.0 v.0 }
    ensures known { Known store.now }
{
    let dim = dim_of(group, 1);
    let way = way_of(&group.principle);
    is_led(store, dim, way, table, u, v, row_of(group, u, place, label))
}

/// Whether for no remaining entry of u an edge may link v to u as the principle use asks at a label, by a table.
pub(crate) fn none_links(
    store: &Store,
    group: &Group,
    table: &[NodeSet; 128],
    u: NodeId,
    label: LabelId,
    v: NodeId,
) -> bool
    requires u { u.0 < nodes store.now.parts }
    requires v { v.0 < nodes store.now.parts }
    ensures exact { IsTrue result
        ↔ EachEntry store.now.now u.0
        (λ c. IsLed (way_of group.now.principle) (may_edges store.now.parts store.now.now (second_dim group.now)) table.now
        (map_row group.now u.0 c label.0) u.0 v.0
        → ⊥) }
    ensures known { Known store.now }
{
    for place in 0..entry_count(store.problem().parts(), u) {
        if store.entry_in(u, place) && entry_links(store, group, table, u, place, label, v) {
            return false;
        }
    }
    true
}
