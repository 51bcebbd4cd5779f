//! Jobs that wait for one another in a step of a propagator, so that they come to their end only side by side.

ghost use Rattle.std.specs.Prelude.{⊤, ◌≡◌, ℕ, Bool, List, [], ◌∷◌, IfOk};
ghost use Rattle.xdg_problem.specs.declared.parts.Parts.{Parts as Sentence};
ghost use Rattle.xdg_problem.specs.Boxes.{IsBox, LiesIn};
ghost use Rattle.xdg_problem.specs.Problems.{IsProblem};
ghost use Rattle.xdg_problem.specs.Vectors.{shape};
ghost use Rattle.xdg_propcore.specs.Losses.{LosesOutside};
ghost use Rattle.xdg_propcore.specs.Uses.{IsClosedBy, StandsFor};
ghost use Rattle.xdg_trials.specs.declared.meeting.Meets.{Meets};
ghost use Rattle.xdg_trials.specs.Alone.{IsGraph, alone, graph_use, job, pair, plan};

use std::alloc::Global;
use std::sync::atomic::{AtomicBool, Ordering};
use std::test::Fail;
use xdg_base::{DimId, EntryNo, List, OutOfMemory, Text};
use xdg_facts::Ending;
use xdg_problem::{DimPlan, Group, Parts, Principle, Problem, SentenceWord, SharedList};
use xdg_propcore::{Moved, Propagator, Wake};
use xdg_split::{Job, answers, split};
use xdg_store::Store;

/// How often a flag is read before it is given up.
const READS: u32 = 1_000_000_000;

/// Takes nothing. In each step it raises its flag and waits for another one.
#[derive(Drop)]
struct Meets<'a> {
    own: &'a AtomicBool,
    other: &'a AtomicBool,
    missed: &'a AtomicBool,
}

/// Raises a flag, and reads another until it stands. Where it never does, a third is raised.
fn meet(own: &AtomicBool, other: &AtomicBool, missed: &AtomicBool) {
    own.store(true, Ordering::SeqCst);
    for _ in 0..READS {
        if other.load(Ordering::SeqCst) {
            return;
        }
    }
    missed.store(true, Ordering::SeqCst);
}

impl Propagator for Meets<'_> {
    ghost stands = { λ p parts number. IsGraph parts number };

    ghost still = { λ p parts box. ⊤ };

    ghost kinds = { λ p. 0 };

    #[tactic(auto, using(xdg_propcore::proofs::Naming::named_none))]
    fn wakes(&self) -> Wake {
        Wake(0)
    }

    fn step(&self, store: &mut Store) -> Moved {
        store.turn();
        meet(self.own, self.other, self.missed);
        Moved::Same
    }

    // The clauses of the trait: a type with a lifetime can't be given them.
    fn laws()
        ensures still_closed { (p : Meets) (parts : Sentence) (box : List (List Bool)) → IsProblem parts → IsBox (shape parts) box → ⊤
            → IsClosedBy IsGraph parts box }
        ensures stays_still { (p : Meets) (parts : Sentence) (number : ℕ) (old new : List (List Bool)) → IsProblem parts → StandsFor IsGraph parts number
            → IsBox (shape parts) old → IsBox (shape parts) new → LiesIn new old → LosesOutside parts 0 old new → ⊤ → ⊤ }
    {}
}

fn one<T: Drop>(alloc: Global, item: T) -> Result<List<T>, OutOfMemory>
    ensures { IfOk result (λ list. list ≡ item ∷ []) }
{
    let mut list = List::new(alloc);
    list.push(item)?;
    Ok(list)
}

fn plan(alloc: Global) -> Result<DimPlan, OutOfMemory>
    ensures { IfOk result (λ made. made ≡ plan) }
{
    Ok(DimPlan {
        name: Text::from_str(alloc, "id")?,
        labels: List::new(alloc),
        attrs: List::new(alloc),
        graph: true,
    })
}

fn graph_use(alloc: Global) -> Result<Group, OutOfMemory>
    ensures { IfOk result (λ group. group ≡ graph_use) }
{
    let dims = one(alloc, DimId(0))?;
    let of_node = SharedList::of(alloc, one(alloc, List::new(alloc))?)?;
    let feats = one(alloc, of_node)?;
    Ok(Group {
        principle: Principle::Graph,
        dims,
        attrs: List::new(alloc),
        order: List::new(alloc),
        truths: List::new(alloc),
        feats,
    })
}

#[tactic(auto, using(crate::proofs::AloneProblem::alone_problem))]
fn problem(alloc: Global) -> Result<Problem, OutOfMemory>
    ensures { IfOk result (λ problem. problem ≡ alone) }
{
    let text = Text::from_str(alloc, "a")?;
    let words = one(alloc, SentenceWord { text, at: 0 })?;
    let entries = SharedList::of(alloc, one(alloc, EntryNo(3))?)?;
    let candidates = one(alloc, entries)?;
    let plan = plan(alloc)?;
    let dims = SharedList::of(alloc, one(alloc, plan)?)?;
    let group = graph_use(alloc)?;
    let groups = one(alloc, group)?;
    Ok(Problem::of(Parts {
        words,
        candidates,
        dims,
        groups,
    }))
}

fn job<'a>(
    alloc: Global,
    own: &'a AtomicBool,
    other: &'a AtomicBool,
    missed: &'a AtomicBool,
) -> Result<Job<Meets<'a>>, OutOfMemory>
    ensures { IfOk result (λ made. made ≡ job) }
{
    let problem = problem(alloc)?;
    let props = one(alloc, Meets { own, other, missed })?;
    Ok(Job::of(problem, props, 10, None))
}

/// Two jobs that wait for one another.
fn pair<'a>(
    alloc: Global,
    first: &'a AtomicBool,
    second: &'a AtomicBool,
    missed: &'a AtomicBool,
) -> Result<List<Job<Meets<'a>>>, OutOfMemory>
    ensures { IfOk result (λ jobs. jobs ≡ pair) }
{
    let mut jobs = one(alloc, job(alloc, first, second, missed)?)?;
    jobs.push(job(alloc, second, first, missed)?)?;
    Ok(jobs)
}

#[test]
fn two_jobs_meet(rt: HostRuntime) -> Result<(), Fail> {
    let alloc = rt.alloc();
    let first = AtomicBool::new(false);
    let second = AtomicBool::new(false);
    let missed = AtomicBool::new(false);
    let jobs = pair(alloc, &first, &second, &missed)?;
    let answers = answers(&rt, alloc, jobs.as_slice())?;
    assert!(rt; first.load(Ordering::SeqCst));
    assert!(rt; second.load(Ordering::SeqCst));
    assert!(rt; !missed.load(Ordering::SeqCst));
    assert_eq!(rt; answers.len(), 2);
    for answer in answers.as_slice() {
        assert_eq!(rt; answer.ending, Ending::Complete);
        assert_eq!(rt;
            answer.bytes.as_slice(),
            b"analysis 1\nword 1 \"a\" 4\nend\ncomplete 1\n".as_slice()
        );
    }
    Ok(())
}

#[test]
#[tactic(auto, using(crate::proofs::AloneProblem::pair_wants))]
fn two_jobs_meet_in_split(rt: HostRuntime) -> Result<(), Fail> {
    let alloc = rt.alloc();
    let first = AtomicBool::new(false);
    let second = AtomicBool::new(false);
    let missed = AtomicBool::new(false);
    let jobs = pair(alloc, &first, &second, &missed)?;
    let answer = split(&rt, alloc, jobs.as_slice())?;
    assert!(rt; first.load(Ordering::SeqCst));
    assert!(rt; second.load(Ordering::SeqCst));
    assert!(rt; !missed.load(Ordering::SeqCst));
    assert_eq!(rt; answer.ending, Ending::Complete);
    assert_eq!(rt; answer.found.len(), 2);
    Ok(())
}
