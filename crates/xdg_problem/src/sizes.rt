//! How many values a decision has.

ghost use Rattle.std.specs.Prelude.{◌≡◌, ◌≤◌, ◌<◌, ◌*◌, length, slice_index, slice_index_or, All};
ghost use Rattle.xdg_problem.specs.Problems.{IsDim, IsProblem};
ghost use Rattle.xdg_problem.specs.Vectors.{attr_sizes, shape};

use crate::parts::{DimPlan, Parts};

/// How many values the attribute at a place among those of all dimensions has, and 2, as an edge place has, behind them.
fn of_attr(dims: &[DimPlan], nodes: usize, at: usize) -> usize
    requires most { nodes ≤ 128 }
    requires each { All IsDim dims.now }
    ensures { result ≡ slice_index_or (attr_sizes nodes dims.now) at 2 }
{
    let mut rest = at;
    for plan in dims {
        let width = plan.attrs.len();
        if rest < nodes * width {
            return plan.attrs.as_slice()[rest % width].values.len();
        }
        rest -= nodes * width;
    }
    2
}

/// How many values the decision at a place has.
pub fn value_count(parts: &Parts, at: usize) -> usize
    requires problem { IsProblem parts.now }
    requires within { at < length (shape parts.now) }
    ensures { result ≡ slice_index (shape parts.now) at }
{
    let candidates = parts.candidates.as_slice();
    if at < candidates.len() {
        candidates[at].len()
    } else {
        of_attr(
            parts.dims.as_slice(),
            parts.words.len(),
            at - candidates.len(),
        )
    }
}
