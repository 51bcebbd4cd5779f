//! The nodes below each node, and those above it.

ghost use Rattle.std.specs.Prelude.{◌≤◌, ◌<◌, ◌↔◌, ◌⊎◌, ℕ};
ghost use Rattle.xdg_facts.specs.Rises.{has};
ghost use Rattle.xdg_nodeset.specs.Tables.{InTable, IsClosure};
ghost use Rattle.xdg_problem.specs.Paths.{Above};
ghost use Rattle.xdg_store.specs.States.{Known};
ghost use Rattle.xdg_graph.specs.Edges.{HasNoneFrom, IsBlank, IsLedTo, edges_of};

use crate::labels::node_count;
use crate::tables::{note_daughters, set_at};
use crate::upward::note_mothers;
use crate::which::Which;
use xdg_base::{DimId, NodeId};
use xdg_nodeset::NodeSet;
use xdg_store::Store;

/// Adds to each of the first sets of a table that has the node in the middle what the table has for that node. The others are
/// empty.
#[tactic(auto, using(crate::proofs::Widening::widened_steps))]
fn widen(table: &mut [NodeSet; 128], size: u8, middle: u8)
    requires size { size ≤ 128 }
    requires middle { middle < 128 }
    requires rest { HasNoneFrom size table.old }
    ensures each { (a b : ℕ) → InTable table.new a b ↔ (InTable table.old a b ⊎ (InTable table.old a middle × InTable table.old middle b)) }
    ensures rest { HasNoneFrom size table.new }
{
    let beyond = table[usize::from(middle)];
    if beyond.len() == 0 {
        return;
    }
    for at in 0..size {
        let place = usize::from(at);
        let set = table[place];
        if !set.contains(NodeId(middle)) {
            continue;
        }
        table[place] = set.union(&beyond);
    }
}

/// The nodes that one of the first sets of a table has.
fn led_to(table: &[NodeSet; 128], size: u8) -> NodeSet
    requires size { size ≤ 128 }
    requires rest { HasNoneFrom size table.now }
    ensures { IsLedTo table.now result }
{
    let mut ends = NodeSet::empty();
    for at in 0..size {
        ends = ends.union(&set_at(table, NodeId(at)));
    }
    ends
}

/// Adds to a table what it leads to through the first nodes, by the algorithm of Warshall (1962), where the sets of the others are empty.
/// To a node that no set has nothing leads, and so nothing through it.
fn close(table: &mut [NodeSet; 128], size: u8)
    requires size { size ≤ 128 }
    requires rest { HasNoneFrom size table.old }
    ensures { IsClosure size table.old table.new }
{
    let ends = led_to(table, size);
    for middle in 0..size {
        if !ends.contains(NodeId(middle)) {
            continue;
        }
        widen(table, size, middle);
    }
}

/// Notes in a table without nodes, for each node, those below it, as `above` gives them. A caller that keeps the table copies none.
pub fn note_above(table: &mut [NodeSet; 128], store: &Store, which: Which, dim: DimId)
    requires blank { IsBlank table.old }
    ensures exact { (a b : ℕ) → InTable table.new a b ↔ Above (edges_of which store.now.parts store.now.now dim.0) a b }
    ensures known { Known store.now }
{
    note_daughters(table, store, which, dim);
    close(table, node_count(store));
}

/// For each node those below it: a path of one or more of the edges leads to them. It takes an operation on sets for each two
/// nodes, and one for each node and label.
pub fn above(store: &Store, which: Which, dim: DimId) -> [NodeSet; 128]
    ensures exact { (a b : ℕ) → InTable result a b ↔ Above (edges_of which store.now.parts store.now.now dim.0) a b }
    ensures known { Known store.now }
{
    let mut table = [NodeSet::empty(); 128];
    note_above(&mut table, store, which, dim);
    table
}

/// For each node those above it: a path of one or more of the edges leads from them. It takes as much as `above`.
pub fn ancestors(store: &Store, which: Which, dim: DimId) -> [NodeSet; 128]
    ensures exact { (a b : ℕ) → InTable result a b ↔ Above (edges_of which store.now.parts store.now.now dim.0) b a }
    ensures known { Known store.now }
{
    let mut table = [NodeSet::empty(); 128];
    note_mothers(&mut table, store, which, dim);
    close(&mut table, node_count(store));
    table
}
