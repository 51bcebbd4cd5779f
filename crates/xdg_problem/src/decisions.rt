//! How many decisions a sentence has.

ghost use Rattle.std.specs.Prelude.{◌≡◌, ◌≤◌, length, All};
ghost use Rattle.std.specs.List.{sum_by};
ghost use Rattle.xdg_problem.specs.Counts.{dim_decisions};
ghost use Rattle.xdg_problem.specs.Problems.{IsDim, IsProblem};
ghost use Rattle.xdg_problem.specs.Vectors.{shape};

use crate::parts::{DimPlan, Parts};

/// How many decisions a dimension has, in a sentence of so many nodes.
fn count_of(plan: &DimPlan, nodes: u64) -> u64
    requires some { 1 ≤ nodes }
    requires most { nodes ≤ 128 }
    requires is_dim { IsDim plan.now }
    ensures exact { result ≡ dim_decisions nodes plan.now }
    ensures small { result ≤ 521216 }
{
    let values = nodes * plan.attrs.len() as u64;
    if plan.graph {
        values + nodes * (plan.labels.len() as u64 * (nodes - 1))
    } else {
        values
    }
}

/// How many decisions dimensions have together.
fn count_all(dims: &[DimPlan], nodes: u64) -> u64
    requires some { 1 ≤ nodes }
    requires most { nodes ≤ 128 }
    requires dims_most { length dims.now ≤ 8 }
    requires each { All IsDim dims.now }
    ensures exact { result ≡ sum_by (dim_decisions nodes) dims.now }
    ensures small { result ≤ 4169728 }
{
    let mut total = 0;
    for plan in dims {
        total += count_of(plan, nodes);
    }
    total
}

/// How many decisions a sentence has.
#[tactic(auto, using(crate::proofs::Counted::count_shape))]
pub fn count(parts: &Parts) -> u64
    requires { IsProblem parts.now }
    ensures exact { result ≡ length (shape parts.now) }
    ensures small { result ≤ 4169856 }
{
    let nodes = parts.words.len() as u64;
    parts.candidates.len() as u64 + count_all(parts.dims.as_slice(), nodes)
}
