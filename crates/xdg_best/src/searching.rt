//! The first solution of a problem behind a start.

ghost use Rattle.std.specs.Prelude.{◌≡◌, ◌↔◌, List, [], None, Result, IfOk};
ghost use Rattle.std.specs.Fn.{FnReturnsAt};
ghost use Rattle.std.specs.Option.{option_copied};
ghost use Rattle.std.specs.declared.alloc.AllocError.{AllocError};
ghost use Rattle.xdg_best.specs.Searches.{IsRound};
ghost use Rattle.xdg_problem.specs.declared.parts.Parts.{Parts};
ghost use Rattle.xdg_problem.specs.Problems.{IsProblem};
ghost use Rattle.xdg_propcore.specs.Uses.{AllStandIn};
ghost use Rattle.xdg_stream.specs.Streamed.{IsCharged, IsStart, start_vector};

use std::alloc::Global;
use xdg_base::{List, OutOfMemory};
use xdg_problem::{Analysis, Problem};
use xdg_propcore::Propagator;
use xdg_split::last_analysis;
use xdg_stream::{Step, Stream};

/// What the search of one round came to.
#[derive(Drop)]
pub(crate) enum Round {
    /// A solution, the first, and how many boxed prefixes were charged up to it.
    Found(Analysis, u64),
    /// There is none.
    End,
    /// The budget was spent before one.
    Spent,
}

/// The first solution of a stream that has just started.
fn first_of<P: Propagator>(alloc: Global, stream: &mut Stream<'_, P>) -> Result<Round, OutOfMemory>
    requires parts { IsProblem stream.old.parts }
    requires begun { stream.old.last ≡ stream.old.start }
    requires charged { IsCharged stream.old [] }
    ensures { IfOk result (IsRound stream.old.parts stream.old.start stream.old.budget) }
{
    match stream.advance() {
        Step::Found => {
            let analysis = last_analysis(alloc, stream)?;
            Ok(Round::Found(analysis, stream.charged()))
        }
        Step::End => Ok(Round::End),
        Step::Spent => Ok(Round::Spent),
    }
}

/// The first solution behind a start, within a budget. What `make` makes are the propagators of the problem.
///
/// # Errors
///
/// Fails where memory runs out.
pub(crate) fn search<P: Propagator, F: Fn(&Problem) -> Result<List<P>, OutOfMemory>>(
    alloc: Global,
    problem: &Problem,
    start: Option<&Analysis>,
    budget: u64,
    make: &F,
) -> Result<Round, OutOfMemory>
    requires calls { F.IsAlwaysCallable make.now }
    requires stand { (parts : Parts) (made : Result (List P) AllocError) → FnReturnsAt F.Fn make.now parts made
        → IfOk made (λ props. AllStandIn P.stands props parts) }
    requires fits { IsStart problem.now (option_copied start) }
    ensures { IfOk result (IsRound problem.now (start_vector problem.now (option_copied start.entry)) budget) }
{
    let _parts = problem.parts();
    let props = make(problem)?;
    let mut stream = Stream::start(alloc, problem, props.as_slice(), budget, start)?;
    first_of(alloc, &mut stream)
}
