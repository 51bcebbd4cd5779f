//! The solutions of several jobs, one job behind the other.

ghost use Rattle.std.specs.Prelude.{◌≡◌, ◌<◌, List, IfOk, length};
ghost use Rattle.std.specs.Thread.{IsSync};
ghost use Rattle.xdg_split.specs.Written.{IsSome};
ghost use Rattle.xdg_split.specs.Asked.{Asked};
ghost use Rattle.xdg_split.specs.Splits.{AllWant, AreProblems, Continues, HaveOneSplit, IsSplit, wanted_of};

use crate::found::Found;
use crate::job::Job;
use std::alloc::Global;
use std::cmp::min;
use std::thread::{Threads, join};
use xdg_base::{List, OutOfMemory};
use xdg_facts::Ending;
use xdg_problem::Analysis;
use xdg_propcore::Propagator;

/// How many jobs are searched side by side: the searches of so many take memory at once.
const SIDE_BY_SIDE: usize = 4;

/// The solutions that the searches of several jobs find, one job behind the other, and how that ends.
#[derive(Debug, Drop)]
pub struct SplitAnswer {
    /// The solutions, in the order of the jobs and of each search.
    pub found: List<Analysis>,
    /// Whether these are all, or as many as were asked for, or the budget of a job was spent.
    pub ending: Ending,
}

/// The solutions of jobs, in their order: of each job all, until as many are found as are wanted together, or until the budget of a job
/// is spent. Of each job as many are wanted. Four jobs at a time are searched side by side, each in a thread of its own where one can be
/// made, and what they find is kept until they have all answered; those behind a job that is spent, or that finds the last wanted
/// analysis, aren't begun.
///
/// # Errors
///
/// Fails where memory runs out.
pub fn split<R: Threads + Sync, P: Propagator + Sync>(
    rt: &R,
    alloc: Global,
    jobs: &[Job<P>],
) -> Result<SplitAnswer, OutOfMemory>
    requires { AllWant (wanted_of jobs.now) jobs.now }
    ensures { IfOk result (λ answer. IsSplit (wanted_of jobs.now) jobs.now answer.ending answer.found) }
{
    let first = wanted(jobs);
    let answer = search_in_turns(rt, alloc, jobs, first)?;
    Ok(SplitAnswer {
        found: List::from_vec(answer.found),
        ending: answer.ending,
    })
}

/// A law, and nothing to run: what jobs reach is one thing, and so is what their searches find and how that ends.
pub fn split_laws()
    ensures { (jobs : List Asked) → AreProblems jobs → HaveOneSplit jobs }
{}

/// How many analyses are wanted, by the first job.
fn wanted<P: Propagator>(jobs: &[Job<P>]) -> Option<u64>
    ensures is { result ≡ wanted_of jobs.now }
    ensures some { IsSome result }
{
    match jobs.first() {
        Some(job) => job.first(),
        None => None,
    }
}

impl Found {
    /// These, and behind them what further jobs find, which are searched side by side, all of them at once. Where these didn't end
    /// complete, they are all that there is. Of each job as many are wanted as of those before.
    ///
    /// # Errors
    ///
    /// Fails where memory runs out.
    pub fn search_next<R: Threads + Sync, P: Propagator + Sync>(
        self,
        rt: &R,
        alloc: Global,
        jobs: &[Job<P>],
        first: Option<u64>,
    ) -> Result<Found, OutOfMemory>
        requires some { IsSome first }
        requires wanted { AllWant first jobs.now }
        ensures { IfOk result (λ found. Continues first self.ending self.found.items jobs.now found.ending found.found.items) }
    {
        let later = search_all(rt, alloc, jobs, first)?;
        let joined = self.followed_by(later, first)?;
        Ok(joined)
    }
}

/// Searches jobs, some at a time.
fn search_in_turns<R: Threads + Sync, P: Propagator + Sync>(
    rt: &R,
    alloc: Global,
    jobs: &[Job<P>],
    first: Option<u64>,
) -> Result<Found, OutOfMemory>
    requires some { IsSome first }
    requires wanted { AllWant first jobs.now }
    ensures { IfOk result (λ found. IsSplit first jobs.now found.ending found.found.items) }
{
    know_problems(jobs);
    let mut answer = Found::none(alloc);
    let mut rest = jobs;
    while !rest.is_empty() {
        if answer.has_ended() {
            return Ok(answer);
        }
        let (turn, later) = rest.split_at(min(rest.len(), SIDE_BY_SIDE));
        answer = answer.search_next(rt, alloc, turn, first)?;
        rest = later;
    }
    Ok(answer)
}

/// Searches jobs, which are halved down to single ones. The halves are searched at once.
#[cycle(searches)]
fn search_all<R: Threads + Sync, P: Propagator + Sync>(
    rt: &R,
    alloc: Global,
    jobs: &[Job<P>],
    first: Option<u64>,
) -> Result<Found, OutOfMemory>
    requires some { IsSome first }
    requires wanted { AllWant first jobs.now }
    ensures { IfOk result (λ found. IsSplit first jobs.now found.ending found.found.items) }
{
    if jobs.len() < 2 {
        return search_single(alloc, jobs, first);
    }
    let (front, back) = jobs.split_at(jobs.len() / 2);
    let (one, other) = join(
        rt,
        || -> Result<Found, OutOfMemory>
            requires { (IsSync R.row × IsSync P.row) × (IsSome first × AllWant first front.now) }
            ensures { IfOk result (λ found. IsSplit first front.entry.now found.ending found.found.items) }
        { search_all(rt, alloc, front, first) },
        || -> Result<Found, OutOfMemory>
            requires { (IsSync R.row × IsSync P.row) × (IsSome first × AllWant first back.now) }
            ensures { IfOk result (λ found. IsSplit first back.entry.now found.ending found.found.items) }
        { search_all(rt, alloc, back, first) },
    );
    let found = one?;
    let later = other?;
    let joined = found.followed_by(later, first)?;
    Ok(joined)
}

/// Searches the only job, if there is one.
fn search_single<P: Propagator>(
    alloc: Global,
    jobs: &[Job<P>],
    first: Option<u64>,
) -> Result<Found, OutOfMemory>
    requires single { length jobs.now < 2 }
    requires some { IsSome first }
    requires wanted { AllWant first jobs.now }
    ensures { IfOk result (λ found. IsSplit first jobs.now found.ending found.found.items) }
{
    match jobs.first() {
        Some(job) => job.search(alloc),
        None => Ok(Found::none(alloc)),
    }
}

/// Says of jobs what each of them keeps, and does nothing.
fn know_problems<P: Propagator>(jobs: &[Job<P>])
    ensures { AreProblems jobs.now }
{
    for job in jobs {
        job.know_problem();
    }
}
