//! Answers of jobs, put in the order of the jobs.

ghost use Rattle.std.specs.Prelude.{◌≡◌, ◌∷◌, ◌++◌, List, None, All, IfOk, length, replicate, slice_index_or, slice_set};
ghost use Rattle.std.specs.List.{AllZip};
ghost use Rattle.xdg_split.specs.Answers.{IsAnswer};
ghost use Rattle.xdg_split.specs.Asked.{Asked};
ghost use Rattle.xdg_split.specs.Slots.{Fits, IsPlaced};

use crate::answer::Answer;
use crate::job::Job;
use std::alloc::Global;
use std::mem;
use xdg_base::{List, OutOfMemory};
use xdg_propcore::Propagator;

/// The answer of the job that stands at a place among jobs, which counts from 0.
#[derive(Drop)]
pub(crate) struct Placed {
    pub(crate) place: usize,
    pub(crate) answer: Answer,
}

/// Slots for so many answers, none of which is known.
fn empty_slots(alloc: Global, count: usize) -> Result<Vec<Option<Answer>>, OutOfMemory>
    ensures { IfOk result (λ slots. slots.items ≡ replicate count None) }
{
    let mut slots = Vec::with_capacity(alloc, count)?;
    for _ in 0..count {
        slots.push(None)?;
    }
    Ok(slots)
}

/// Puts something into a slot, and gives what was there.
fn exchange(slots: &mut Vec<Option<Answer>>, place: usize, slot: Option<Answer>) -> Option<Answer>
    ensures slots { slots.new.items ≡ slice_set slots.old.items place slot }
    ensures given { result ≡ slice_index_or slots.old.items place None }
{
    if place >= slots.len() {
        return None;
    }
    mem::replace(&mut slots[place], slot)
}

/// Puts answers into their slots.
fn put_all(slots: &mut Vec<Option<Answer>>, mut share: List<Placed>)
    ensures { (jobs : List Asked) → All (IsPlaced jobs) share → AllZip Fits jobs slots.old.items → AllZip Fits jobs slots.new.items }
{
    while let Some(found) = share.pop() {
        let Placed { place, answer } = found;
        exchange(slots, place, Some(answer));
    }
}

/// A slot for each job, with its answer where that is among these.
pub(crate) fn in_slots<P: Propagator>(
    alloc: Global,
    jobs: &[Job<P>],
    mut shares: Vec<Result<List<Placed>, OutOfMemory>>,
) -> Result<Vec<Option<Answer>>, OutOfMemory>
    requires { All (λ share. IfOk share (λ found. All (IsPlaced jobs.now) found)) shares.items }
    ensures { IfOk result (λ slots. AllZip Fits jobs.now slots.items) }
{
    let mut slots = empty_slots(alloc, jobs.len())?;
    while let Some(share) = shares.pop() {
        put_all(&mut slots, share?);
    }
    Ok(slots)
}

/// The answer of a job: that in its slot, and where the slot is empty, that which is found here.
fn answer_of<P: Propagator>(
    alloc: Global,
    job: &Job<P>,
    slot: Option<Answer>,
) -> Result<Answer, OutOfMemory>
    requires { Fits job.now slot }
    ensures { IfOk result (λ answer. IsAnswer job.now answer) }
{
    match slot {
        Some(answer) => Ok(answer),
        None => job.answer(alloc),
    }
}

/// The answers of jobs, in their order: those in their slots. A job whose slot is empty is answered here.
pub(crate) fn answers_of<P: Propagator>(
    alloc: Global,
    jobs: &[Job<P>],
    mut slots: Vec<Option<Answer>>,
) -> Result<List<Answer>, OutOfMemory>
    requires { AllZip Fits jobs.now slots.items }
    ensures { IfOk result (λ answers. AllZip IsAnswer jobs.now answers) }
{
    let mut answers = List::new(alloc);
    for (place, job) in jobs.iter().enumerate() {
        let slot = exchange(&mut slots, place, None);
        answers.push(answer_of(alloc, job, slot)?)?;
    }
    Ok(answers)
}
