//! The propagator of a bound on costs.

ghost use Rattle.std.specs.Prelude.{◌≡◌, ◌<◌, ◌≤◌, ◌+◌, ◌-◌, ◌^◌, ◌↔◌, ℕ, Bool, List, IfOk, length, min, slice_index_or, []};
ghost use Rattle.xdg_problem.specs.declared.parts.Parts.{Parts as Sentence};
ghost use Rattle.xdg_problem.specs.Problems.{IsGroup};
ghost use Rattle.xdg_problem.specs.Places.{nodes};
ghost use Rattle.xdg_graph.specs.Edges.{edge_labels};
ghost use Rattle.xdg_rules.specs.Rules.{IsClosedFor};
ghost use Rattle.xdg_store.specs.States.{Known};
ghost use Rattle.xdg_propcore.specs.Kinds.{AreNamed};
ghost use Rattle.xdg_propcore.specs.Steps.{Extends, Keeps, Moves};
ghost use Rattle.xdg_propcore.specs.Sweeps.{Sweeps};
ghost use Rattle.xdg_propcore.specs.Uses.{IsClosedBy, StandsFor, StandsIn, use_at};
ghost use Rattle.xdg_engine.specs.Bounding.{HoldsBound, IsBound, bound_stands};
ghost use Rattle.xdg_engine.specs.Freeing.{Dear, NoneFree, OfDims, OfLabels, TakesFree};

use crate::cost_rows::{entry_rows, label_rows};
use crate::least::least_cost;
use std::alloc::Global;
use xdg_base::{DimId, LabelId, List, NodeId, OutOfMemory};
use xdg_graph::{Which, daughters_by, labels_of, node_count};
use xdg_pmulti::forbid_beyond;
use xdg_problem::{Group, Principle, Problem};
use xdg_propcore::{Moved, Pass, Propagator, Wake, use_of};
use xdg_store::Store;

/// Takes from a box what a bound on costs takes: all, where what must be costs as much, and each edge with which it would.
#[derive(Debug, Drop)]
pub struct CostProp {
    number: usize,
    bound: u64,
    // For each node, in it for each candidate, what the entry costs.
    entries: List<List<u32>>,
    // For each dimension, in it for each label, what an edge costs.
    labels: [[u32; 32]; 8],
}

/// Takes the edges of a dimension with a label that need not be.
fn forbid_label(store: &mut Store, pass: &mut Pass, group: &Group, dim: DimId, label: LabelId)
    requires known { Known store.old }
    requires group { IsGroup store.old.parts group.now }
    requires label { label.0 < edge_labels store.old.parts dim.0 }
    requires takes { TakesFree store.old.parts group.now store.old.now dim.0 label.0 }
    ensures { Sweeps group.now (NoneFree store.old.parts dim.0 label.0 (nodes store.old.parts)) pass.old store.old pass.new store.new }
{
    for mother in 0..node_count(store) {
        let must = daughters_by(store, Which::Must, dim, NodeId(mother), label);
        forbid_beyond(store, pass, dim, NodeId(mother), label, must);
    }
}

/// Takes the edges of a dimension that need not be and cost so much.
fn forbid_on(
    store: &mut Store,
    pass: &mut Pass,
    group: &Group,
    dim: DimId,
    row: &[u32; 32],
    room: u64,
)
    requires known { Known store.old }
    requires group { IsGroup store.old.parts group.now }
    requires takes { (label : ℕ) → label < edge_labels store.old.parts dim.0 → Dear row.now room label
        → TakesFree store.old.parts group.now store.old.now dim.0 label }
    ensures { Sweeps group.now (OfLabels row.now room dim.0 (edge_labels store.old.parts dim.0) store.old.parts) pass.old store.old pass.new store.new }
{
    for label in 0..labels_of(store, dim) {
        let cost = row[label as usize] as u64;
        if cost < room {
            continue;
        }
        forbid_label(store, pass, group, dim, LabelId(label));
    }
}

/// Takes the edges that need not be and cost so much.
fn forbid_dear(store: &mut Store, pass: &mut Pass, group: &Group, rows: &[[u32; 32]; 8], room: u64)
    requires known { Known store.old }
    requires group { IsGroup store.old.parts group.now }
    requires takes { (dim label : ℕ) → dim < length store.old.parts.dims → label < edge_labels store.old.parts dim
        → Dear (slice_index_or rows.now dim []) room label → TakesFree store.old.parts group.now store.old.now dim label }
    ensures { Sweeps group.now (OfDims rows.now room (length store.old.parts.dims) store.old.parts) pass.old store.old pass.new store.new }
{
    for dim in 0..store.problem().parts().dims.len() as u8 {
        forbid_on(store, pass, group, DimId(dim), &rows[dim as usize], room);
    }
}

/// Takes what a bound takes.
fn sweep(
    store: &mut Store,
    pass: &mut Pass,
    group: &Group,
    entries: &List<List<u32>>,
    labels: &[[u32; 32]; 8],
    bound: u64,
)
    requires known { Known store.old }
    requires group { IsGroup store.old.parts group.now }
    requires holds { HoldsBound group.now.principle store.old.parts bound entries.now labels.now }
    ensures { Sweeps group.now (IsClosedFor store.old.parts group.now) pass.old store.old pass.new store.new }
{
    let least = least_cost(store, entries, labels);
    if least >= bound {
        pass.fail(store);
        return;
    }
    forbid_dear(store, pass, group, labels, bound - least);
}

impl CostProp {
    /// The propagator of a use of a bound, by its number from 0.
    pub fn of(alloc: Global, problem: &Problem, group: usize) -> Result<CostProp, OutOfMemory>
        requires within { group < length problem.now.groups }
        requires bound { IsBound (use_at problem.now group).principle }
        ensures { IfOk result (λ p. StandsFor (bound_stands p) problem.now group) }
    {
        let parts = problem.parts();
        match &parts.groups.as_slice()[group].principle {
            Principle::Bound(costs, bound) => {
                let entries = entry_rows(alloc, costs, parts)?;
                Ok(CostProp {
                    number: group,
                    bound: *bound,
                    entries,
                    labels: label_rows(costs),
                })
            }
            _ => Ok(CostProp {
                number: group,
                bound: 0,
                entries: List::new(alloc),
                labels: [[0; 32]; 8],
            }),
        }
    }
}

impl Propagator for CostProp {
    ghost stands = { bound_stands };

    ghost still = { λ p parts box. IsClosedBy (bound_stands p) parts box };

    ghost kinds = { λ p. 87381 };

    // Entries, and the edges of each dimension.
    fn wakes(&self) -> Wake {
        Wake(87381)
    }

    fn step(&self, store: &mut Store) -> Moved {
        store.turn();
        let group = use_of(store.problem(), self.number);
        let mut pass = Pass::start();
        sweep(
            store,
            &mut pass,
            group,
            &self.entries,
            &self.labels,
            self.bound,
        );
        pass.moved()
    }

    fn laws() {}
}
