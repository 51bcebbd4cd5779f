//! Jobs side by side.

ghost use Rattle.std.specs.Prelude.{All, IfOk};
ghost use Rattle.std.specs.List.{AllZip};
ghost use Rattle.xdg_split.specs.Answers.{IsAnswer};
ghost use Rattle.xdg_split.specs.Slots.{IsPlaced};

use crate::answer::Answer;
use crate::job::Job;
use crate::slots::{Placed, answers_of, in_slots};
use std::alloc::Global;
use std::sync::atomic::{AtomicUsize, Ordering};
use std::thread::{Threads, available_parallelism, map_indices};
use xdg_base::{List, OutOfMemory};
use xdg_propcore::Propagator;

/// How many threads there are at most.
const THREADS: usize = 16;

/// The answers of jobs, in their order: the text that each prints alone, with all of its own budget, and how that ends. The jobs are
/// searched side by side, in as many threads as there are processors, 2 to 16, where they can be made. Each thread takes the next job
/// that none has taken, those of more decisions first, until none is left; so at most 16 searches take memory at once.
///
/// # Errors
///
/// Fails where memory runs out.
pub fn answers<R: Threads + Sync, P: Propagator + Sync>(
    rt: &R,
    alloc: Global,
    jobs: &[Job<P>],
) -> Result<List<Answer>, OutOfMemory>
    ensures { IfOk result (λ answers. AllZip IsAnswer jobs.now answers) }
{
    let order = by_size(alloc, jobs)?;
    let next = AtomicUsize::new(0);
    let share = |_: usize| -> Result<List<Placed>, OutOfMemory>
        ensures { IfOk result (λ found. All (IsPlaced jobs.entry.now) found) }
    { answer_next(alloc, jobs, &order, &next) };
    let shares = map_indices(rt, alloc, thread_count(rt, jobs.len()), &share)?;
    let slots = in_slots(alloc, jobs, shares)?;
    answers_of(alloc, jobs, slots)
}

/// How many threads answer so many jobs.
fn thread_count<R: Threads>(rt: &R, jobs: usize) -> usize {
    match available_parallelism(rt) {
        Ok(processors) => jobs.min(processors.get().clamp(2, THREADS)),
        Err(_) => jobs.min(THREADS),
    }
}

/// The places of jobs, those of more decisions first, so that no long search begins last.
fn by_size<P: Propagator>(
    alloc: Global,
    jobs: &[Job<P>],
) -> Result<Vec<(u64, usize)>, OutOfMemory> {
    let mut order = Vec::with_capacity(alloc, jobs.len())?;
    for (place, job) in jobs.iter().enumerate() {
        order.push((u64::MAX - job.decisions(), place))?;
    }
    order.sort()?;
    Ok(order)
}

/// Answers the next of the jobs that none has taken, in this order of their places, until none is left.
fn answer_next<P: Propagator>(
    alloc: Global,
    jobs: &[Job<P>],
    order: &[(u64, usize)],
    next: &AtomicUsize,
) -> Result<List<Placed>, OutOfMemory>
    ensures { IfOk result (λ found. All (IsPlaced jobs.now) found) }
{
    let mut found = List::new(alloc);
    for _ in 0..order.len() {
        let Some((_, place)) = order.get(next.fetch_add(1, Ordering::SeqCst)) else {
            break;
        };
        let Some(job) = jobs.get(*place) else {
            break;
        };
        let answer = job.answer(alloc)?;
        found.push(Placed {
            place: *place,
            answer,
        })?;
    }
    Ok(found)
}
