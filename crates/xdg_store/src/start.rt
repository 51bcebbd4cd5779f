//! How much room a store needs.

ghost use Rattle.std.specs.Prelude.{◌≡◌, ◌≤◌, ◌<◌, ◌+◌, ◌*◌, length, sum, take, All};
ghost use Rattle.xdg_problem.specs.Problems.{IsDim, IsProblem};
ghost use Rattle.xdg_problem.specs.Vectors.{attr_sizes, first_place, shape};

use xdg_problem::{DimPlan, Problem};

/// How many attributes the nodes have on all dimensions together.
fn attr_count(dims: &[DimPlan], nodes: usize) -> usize
    requires nodes { nodes ≤ 128 }
    requires few { length dims.now ≤ 8 }
    requires dims { All IsDim dims.now }
    ensures count { result ≡ length (attr_sizes nodes dims.now) }
    ensures small { result ≤ 8192 }
{
    let mut count = 0;
    for plan in dims {
        count += nodes * plan.attrs.len();
    }
    count
}

/// How many values the first decisions can lose together.
fn free_of(problem: &Problem, first: usize) -> usize
    requires first { first ≤ length (shape problem.now) }
    requires few { first ≤ 8320 }
    requires problem { IsProblem problem.now }
    ensures free { result + first ≡ sum (take first (shape problem.now)) }
    ensures small { result ≤ 8511360 }
{
    let mut free = 0;
    for at in 0..first {
        free += problem.value_count(at) - 1;
    }
    free
}

/// How many values a box of the problem can lose, so that each decision has one left.
pub(crate) fn free_values(problem: &Problem) -> usize
    ensures free { result + length (shape problem.now) ≡ sum (shape problem.now) }
    ensures problem { IsProblem problem.now }
{
    let parts = problem.parts();
    let nodes = parts.words.len();
    let first = nodes + attr_count(parts.dims.as_slice(), nodes);
    let places = problem.decisions() as usize - first;
    free_of(problem, first) + places
}
