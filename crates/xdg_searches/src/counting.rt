//! Searching, and counting what is found.

ghost use Rattle.std.specs.Prelude.{◌≡◌, ◌<◌, ◌+◌, ◌^◌, [], None, cond, IfOk};
ghost use Rattle.xdg_searches.specs.Counted.{AreCounts, IsOneCount};
ghost use Rattle.xdg_problem.specs.Problems.{IsProblem};
ghost use Rattle.xdg_propcore.specs.Uses.{AllStandIn};
ghost use Rattle.xdg_stream.specs.Streamed.{IsCharged};

use crate::judging::is_last_broken;
use std::alloc::Global;
use xdg_base::OutOfMemory;
use xdg_facts::Ending;
use xdg_problem::Problem;
use xdg_propcore::Propagator;
use xdg_stream::{Step, Stream};

/// What a search came to.
#[derive(Clone, Copy, Debug)]
pub struct Counts {
    /// How many analyses were found.
    pub analyses: u64,
    /// How many of them have a broken verdict.
    pub broken: u64,
    /// Whether the search came to the last analysis, or the budget was spent before.
    pub ending: Ending,
}

/// Searches with a budget from the first of all analyses on, and judges each solution when it is found. The propagators stand for
/// the principle uses of the sentence.
///
/// # Errors
///
/// Fails where memory runs out.
pub fn count_judged<P: Propagator>(
    alloc: Global,
    problem: &Problem,
    props: &[P],
    budget: u64,
) -> Result<Counts, OutOfMemory>
    requires { AllStandIn P.stands props.now problem.now }
    ensures counts { IfOk result (AreCounts budget problem.now) }
    // No solution is broken, so the judge and the search bear each other out.
    ensures sound { IfOk result (λ counts. counts.broken ≡ 0) }
    ensures one { IsOneCount budget problem.now }
{
    let _parts = problem.parts();
    let mut stream = Stream::start(alloc, problem, props, budget, None)?;
    count_found(alloc, problem, &mut stream)
}

/// A count, with one more where there is one.
fn counted(count: u64, is_more: bool) -> u64
    requires { count + 1 < 2 ^ 64 }
    ensures { result ≡ count + cond is_more 1 0 }
{
    if is_more { count + 1 } else { count }
}

/// Counts what a stream that has just started finds.
fn count_found<P: Propagator>(
    alloc: Global,
    problem: &Problem,
    stream: &mut Stream<'_, P>,
) -> Result<Counts, OutOfMemory>
    requires parts { IsProblem problem.now }
    requires given { stream.old.parts ≡ problem.now }
    requires begun { stream.old.start ≡ [] }
    requires fresh { stream.old.ended ≡ None }
    requires small { stream.old.budget < 2 ^ 64 }
    requires charged { IsCharged stream.old [] }
    ensures { IfOk result (AreCounts stream.old.budget problem.now) }
{
    let mut analyses: u64 = 0;
    let mut broken: u64 = 0;
    'draw: loop {
        match stream.advance() {
            Step::Found => {
                let is_broken = is_last_broken(alloc, problem, stream)?;
                analyses += 1;
                broken = counted(broken, is_broken);
            }
            Step::End => {
                return Ok(Counts {
                    analyses,
                    broken,
                    ending: Ending::Complete,
                });
            }
            Step::Spent => {
                return Ok(Counts {
                    analyses,
                    broken,
                    ending: Ending::Spent,
                });
            }
        }
    }
}
