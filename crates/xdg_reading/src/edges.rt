//! The lines of edges.

ghost use Rattle.std.specs.Prelude.{◌≡◌, ◌<◌, ◌≤◌, length, None};
ghost use Rattle.xdg_reading.specs.Fitted.{may_join, said_edge, said_edges, precedes, follows, Gives};
ghost use Rattle.xdg_problem.specs.Problems.{IsProblem};

use crate::names::{dim_number, label_number};
use crate::refused::Refused;
use crate::texts::EdgeLine;
use std::alloc::Global;
use xdg_base::{DimId, LabelId, List};
use xdg_problem::{DimPlan, Edge, Parts, is_before};

/// Whether one edge is decided before another.
fn precedes(a: &Edge, b: &Edge) -> bool
    ensures { result ≡ precedes a.now b.now }
{
    is_before(a, b)
}

/// Whether an edge is decided after the one before it.
fn follows(before: Option<Edge>, edge: &Edge) -> bool
    ensures { result ≡ follows before edge.now }
{
    match before {
        None => true,
        Some(before) => precedes(&before, edge),
    }
}

/// Whether an edge may stand between these nodes on this dimension.
fn may_join(parts: &Parts, plan: &DimPlan, line: &EdgeLine) -> bool
    ensures { result ≡ may_join parts.now plan.now line.now }
{
    let nodes = parts.words.len();
    plan.graph
        && (line.mother.0 as usize) < nodes
        && (line.daughter.0 as usize) < nodes
        && line.mother.0 != line.daughter.0
}

/// The edge that a line says, if it may stand.
#[tactic(auto, unfolding(crate::specs::Fitted::said_edge))]
fn said_edge(parts: &Parts, line: &EdgeLine) -> Option<Edge>
    requires { IsProblem parts.now }
    ensures { result ≡ said_edge parts.now line.now }
{
    let dims = parts.dims.as_slice();
    let dim = match dim_number(dims, &line.dim) {
        Some(dim) => dim,
        None => return None,
    };
    let plan = &dims[dim];
    match label_number(plan.labels.as_slice(), &line.label) {
        Some(label) => {
            if may_join(parts, plan, line) {
                Some(Edge {
                    dim: DimId(dim as u8),
                    mother: line.mother,
                    label: LabelId(label as u8),
                    daughter: line.daughter,
                })
            } else {
                None
            }
        }
        None => None,
    }
}

/// The edges that lines say, or the first line that offends.
pub(crate) fn said_edges(
    alloc: Global,
    parts: &Parts,
    lines: &[EdgeLine],
) -> Result<List<Edge>, Refused>
    requires { IsProblem parts.now }
    ensures { Gives (said_edges parts.now None lines.now) result }
{
    let mut edges = List::new(alloc);
    let mut before = None;
    for line in lines {
        match said_edge(parts, line) {
            Some(edge) => {
                if !follows(before, &edge) {
                    return Err(Refused::At(line.at));
                }
                edges.push(edge)?;
                before = Some(edge);
            }
            None => return Err(Refused::At(line.at)),
        }
    }
    Ok(edges)
}
