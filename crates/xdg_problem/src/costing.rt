//! What analyses cost.

ghost use Rattle.std.specs.Prelude.{◌≡◌, ◌≤◌, ◌*◌, length};
ghost use Rattle.std.specs.List.{sum_by};
ghost use Rattle.xdg_problem.specs.Analyses.{IsAnalysis};
ghost use Rattle.xdg_problem.specs.Costs as spec;
ghost use Rattle.xdg_problem.specs.Problems.{IsProblem};

use crate::analysis::{Analysis, Edge};
use crate::costs::Costs;
use crate::decisions;
use crate::parts::Parts;
use xdg_base::EntryNo;

/// What entries cost together.
fn entries_cost(costs: &Costs, entries: &[EntryNo]) -> u64
    requires { length entries.now ≤ 128 }
    ensures exact { result ≡ sum_by (λ entry. spec.entry_cost costs.now entry.0) entries.now }
    ensures small { result ≤ 128 * 4294967295 }
{
    let mut total = 0;
    for entry in entries {
        total += u64::from(costs.of_entry(*entry));
    }
    total
}

/// What edges cost together.
fn edges_cost(costs: &Costs, edges: &[Edge]) -> u64
    requires { length edges.now ≤ 4169856 }
    ensures exact { result ≡ sum_by (λ e. spec.label_cost costs.now e.dim.0 e.label.0) edges.now }
    ensures small { result ≤ 4169856 * 4294967295 }
{
    let mut total = 0;
    for edge in edges {
        total += u64::from(costs.of_label(edge.dim, edge.label));
    }
    total
}

/// What an analysis costs: its entries and its edges.
pub fn cost_of(parts: &Parts, costs: &Costs, analysis: &Analysis) -> u64
    requires problem { IsProblem parts.now }
    requires fits { IsAnalysis parts.now analysis.now }
    ensures { result ≡ spec.cost_of costs.now analysis.now }
{
    let _decisions = decisions::count(parts);
    entries_cost(costs, analysis.entries.as_slice()) + edges_cost(costs, analysis.edges.as_slice())
}
