//! Searching by branches.

ghost use Rattle.std.specs.Prelude.{◌<◌, ◌≤◌, ◌-◌, length, IfOk};
ghost use Rattle.xdg_searches.specs.Branched.{CanBranch, IsBranched, jobs_from};
ghost use Rattle.xdg_problem.specs.Branches.{first_candidates};
ghost use Rattle.xdg_split.specs.Splits.{Continues};

use crate::jobs::{branch_count, branch_jobs};
use std::alloc::Global;
use std::thread::Threads;
use xdg_base::OutOfMemory;
use xdg_problem::Problem;
use xdg_split::Found;

/// How many branches there are at a time: so many problems and searches of them take memory at once.
const SIDE_BY_SIDE: u16 = 4;

/// What the branches find. A few at a time are made and searched, side by side; those behind a branch that is spent, or that finds the
/// last wanted analysis, aren't made.
pub(crate) fn search<R: Threads + Sync>(
    rt: &R,
    alloc: Global,
    problem: &Problem,
    budget: u64,
    first: Option<u64>,
) -> Result<Found, OutOfMemory>
    requires { CanBranch budget first }
    ensures { IfOk result (λ found. IsBranched budget first problem.now found.ending found.found.items) }
{
    let _parts = problem.parts();
    let count = branch_count(problem);
    let mut found = Found::none(alloc);
    let mut place = 0;
    while place < count {
        if found.has_ended() {
            return Ok(found);
        }
        let to = next_place(place, count);
        found = search_some(rt, alloc, problem, found, place, to, budget, first)?;
        place = to;
    }
    Ok(found)
}

/// The place behind the next few branches from a place on, of so many in all.
fn next_place(place: u16, count: u16) -> u16
    requires { place < count }
    ensures more { place < result }
    ensures most { result ≤ count }
{
    if count - place < SIDE_BY_SIDE {
        return count;
    }
    place + SIDE_BY_SIDE
}

/// What was found, and behind it what the branches from one place to another find.
fn search_some<R: Threads + Sync>(
    rt: &R,
    alloc: Global,
    problem: &Problem,
    found: Found,
    from: u16,
    to: u16,
    budget: u64,
    first: Option<u64>,
) -> Result<Found, OutOfMemory>
    requires order { from ≤ to }
    requires most { to ≤ length (first_candidates problem.now) }
    requires range { CanBranch budget first }
    ensures { IfOk result
        (λ more. Continues first found.ending found.found.items (jobs_from problem.now budget first from (to - from)) more.ending more.found.items) }
{
    let jobs = branch_jobs(alloc, problem, from, to, budget, first)?;
    found.search_next(rt, alloc, jobs.as_slice(), first)
}
