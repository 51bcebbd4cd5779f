//! The searches of the branches.

ghost use Rattle.std.specs.Prelude.{◌≡◌, ◌<◌, ◌≤◌, ◌-◌, length, IfOk};
ghost use Rattle.xdg_searches.specs.Branched.{CanBranch, jobs_from};
ghost use Rattle.xdg_searches.specs.Branched as spec;
ghost use Rattle.xdg_problem.specs.Branches.{first_candidates};

use std::alloc::Global;
use xdg_base::{List, OutOfMemory};
use xdg_engine::{AnyProp, props};
use xdg_problem::Problem;
use xdg_split::Job;

/// How many entries the first word has.
pub(crate) fn branch_count(problem: &Problem) -> u16
    ensures { result ≡ length (first_candidates problem.now) }
{
    let parts = problem.parts();
    match parts.candidates.as_slice().first() {
        Some(candidates) => candidates.len() as u16,
        None => 0,
    }
}

/// The search of the branch of an entry.
fn branch_job(
    alloc: Global,
    problem: &Problem,
    place: u16,
    budget: u64,
    first: Option<u64>,
) -> Result<Job<AnyProp>, OutOfMemory>
    requires place { place < length (first_candidates problem.now) }
    requires range { CanBranch budget first }
    ensures { IfOk result (λ job. job ≡ spec.branch_job problem.now budget first place) }
{
    let branch = problem.branch(alloc, place)?;
    let propagators = props(alloc, &branch)?;
    Ok(Job::of(branch, propagators, budget, first))
}

/// The searches of the branches from one place to another, in the order of the entries.
pub(crate) fn branch_jobs(
    alloc: Global,
    problem: &Problem,
    from: u16,
    to: u16,
    budget: u64,
    first: Option<u64>,
) -> Result<List<Job<AnyProp>>, OutOfMemory>
    requires order { from ≤ to }
    requires most { to ≤ length (first_candidates problem.now) }
    requires range { CanBranch budget first }
    ensures { IfOk result (λ jobs. jobs ≡ jobs_from problem.now budget first from (to - from)) }
{
    let mut jobs = List::new(alloc);
    for place in from..to {
        jobs.push(branch_job(alloc, problem, place, budget, first)?)?;
    }
    Ok(jobs)
}
