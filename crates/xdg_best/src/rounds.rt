//! Rounds of a search, each below the cost that the one before it found.

ghost use Rattle.std.specs.Prelude.{◌≡◌, ◌≤◌, ◌^◌, ◌<◌, List, None, Result, IfOk};
ghost use Rattle.std.specs.Fn.{FnReturnsAt};
ghost use Rattle.std.specs.Option.{option_copied};
ghost use Rattle.std.specs.declared.alloc.AllocError.{AllocError};
ghost use Rattle.xdg_best.specs.Best.{IsAnswer, IsOneAnswer};
ghost use Rattle.xdg_best.specs.Rounds.{found_cost, round_parts};
ghost use Rattle.xdg_best.specs.Searches.{IsRound};
ghost use Rattle.xdg_problem.specs.declared.parts.Parts.{Parts};
ghost use Rattle.xdg_problem.specs.Problems.{IsProblem};
ghost use Rattle.xdg_propcore.specs.Uses.{AllStandIn};
ghost use Rattle.xdg_stream.specs.Streamed.{IsStart, start_vector};

use crate::searching::{Round, search};
use std::alloc::Global;
use xdg_base::{List, OutOfMemory};
use xdg_problem::{Analysis, Costs, Problem, cost_of};
use xdg_propcore::Propagator;

/// What the rounds came to.
#[derive(Drop)]
pub struct BestAnswer {
    /// What was found last, if something was.
    pub found: Option<Analysis>,
    /// What it costs, and 0 where nothing was found.
    pub cost: u64,
    /// Whether the budget was spent before the last round ended.
    pub spent: bool,
}

/// One round: behind what was found last, which costs so much, and below that cost; or the first one.
fn round<P: Propagator, F: Fn(&Problem) -> Result<List<P>, OutOfMemory>>(
    alloc: Global,
    problem: &Problem,
    costs: &Costs,
    last: Option<&Analysis>,
    cost: u64,
    left: u64,
    make: &F,
) -> Result<Round, OutOfMemory>
    requires calls { F.IsAlwaysCallable make.now }
    requires stand { (parts : Parts) (made : Result (List P) AllocError) → FnReturnsAt F.Fn make.now parts made
        → IfOk made (λ props. AllStandIn P.stands props parts) }
    requires problem { IsProblem problem.now }
    requires fits { IsStart problem.now (option_copied last) }
    requires cost { cost ≡ found_cost costs.now (option_copied last) }
    ensures { IfOk result (IsRound (round_parts problem.now costs.now (option_copied last.entry)) (start_vector problem.now (option_copied last.entry)) left) }
{
    match last {
        None => search(alloc, problem, None, left, make),
        Some(analysis) => {
            let bounded = problem.with_bound(alloc, costs, cost)?;
            search(alloc, &bounded, Some(analysis), left, make)
        }
    }
}

/// The first of the solutions that cost least, if the budget is enough. Branch and bound over a resumable search: after each find it
/// starts again behind it, with its cost as a bound that the further ones have to stay below, and with the budget that is left. What
/// `make` makes are the propagators of a problem, one for each of its principle uses.
///
/// Where the budget is above the number of boxed prefixes of the problem, it isn't spent.
///
/// # Errors
///
/// Fails where memory runs out.
pub fn best<P: Propagator, F: Fn(&Problem) -> Result<List<P>, OutOfMemory> + Drop>(
    alloc: Global,
    problem: &Problem,
    costs: &Costs,
    budget: u64,
    make: F,
) -> Result<BestAnswer, OutOfMemory>
    requires calls { F.IsAlwaysCallable make }
    requires stand { (parts : Parts) (made : Result (List P) AllocError) → FnReturnsAt F.Fn make parts made
        → IfOk made (λ props. AllStandIn P.stands props parts) }
    requires some { 1 ≤ budget }
    ensures answers { IfOk result (IsAnswer problem.now costs.now budget) }
    ensures one { IsOneAnswer problem.now costs.now budget }
{
    let parts = problem.parts();
    let mut found: Option<Analysis> = None;
    let mut cost: u64 = 0;
    let mut left = budget;
    'rounds: while left > 0 {
        match round(alloc, problem, costs, found.as_ref(), cost, left, &make)? {
            Round::Found(analysis, charged) => {
                cost = cost_of(parts, costs, &analysis);
                found = Some(analysis);
                left -= charged;
            }
            Round::End => {
                return Ok(BestAnswer {
                    found,
                    cost,
                    spent: false,
                });
            }
            Round::Spent => {
                return Ok(BestAnswer {
                    found,
                    cost,
                    spent: true,
                });
            }
        }
    }
    Ok(BestAnswer {
        found,
        cost,
        spent: true,
    })
}
