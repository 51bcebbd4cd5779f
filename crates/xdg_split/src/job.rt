//! Jobs.

ghost use Rattle.std.specs.Prelude.{◌≡◌, [], ◌∷◌, IfOk};
ghost use Rattle.xdg_split.specs.Written.{IsSome};
ghost use Rattle.xdg_problem.specs.Problems.{IsProblem};
ghost use Rattle.xdg_split.specs.Answers.{IsAnswer};
ghost use Rattle.xdg_split.specs.Asked.{IsJob, asked};
ghost use Rattle.xdg_split.specs.Splits.{IsSplit};

use crate::answer::Answer;
use crate::finding::find;
use crate::found::Found;
use crate::printing::{Printed, print_analyses};
use std::alloc::Global;
use std::marker::Model;
use xdg_base::{List, OutOfMemory};
use xdg_problem::Problem;
use xdg_propcore::Propagator;
use xdg_stream::Stream;
use xdg_text::{Form, Kept};

/// A sentence that is to be searched from the beginning, with a budget of its own. Contracts see what is asked for. The propagators
/// are no part of that: by whichever a sentence is searched, its answer is the same.
#[derive(Drop)]
pub struct Job<P: Propagator> {
    problem: Problem,
    props: List<P>,
    budget: u64,
    first: Option<u64>,
}

impl<P: Propagator> Model for Job<P> {
    ghost use Rattle.xdg_split.specs.Asked.{Asked, IsJob, asked};
    ghost use Rattle.std.specs.Coded.{codes};
    ghost use Rattle.xdg_problem.specs.contracts.formula.Formula as formula;

    ghost Value = { Asked };

    ghost coded = { Prim.hlevel (codes, formula.the_row.coded) };

    ghost view = { λ job. asked job.problem job.budget job.first };

    ghost invariant = { λ job. IsJob P.stands job.props (asked job.problem job.budget job.first) };
}

impl<P: Propagator> Job<P> {
    /// The search of a sentence by these propagators, which stand for its principle uses. The budget is 1 to 1,000,000,000 boxed
    /// prefixes. Where a number of analyses is given, at least 1, the search stops behind so many.
    pub fn of(problem: Problem, props: List<P>, budget: u64, first: Option<u64>) -> Job<P>
        requires { IsJob P.stands props (asked problem budget first) }
        ensures { result ≡ asked problem budget first }
    {
        Job {
            problem,
            props,
            budget,
            first,
        }
    }

    /// How many decisions the sentence has.
    pub(crate) fn decisions(&self) -> u64 {
        self.problem.decisions()
    }

    /// Searches the sentence and keeps what is printed. The memory of the search is given back when it has ended.
    pub(crate) fn answer(&self, alloc: Global) -> Result<Answer, OutOfMemory>
        ensures { IfOk result (λ answer. IsAnswer self.now answer) }
    {
        let mut sink = Kept::new(alloc);
        let printed = print_analyses(
            alloc,
            &self.problem,
            self.props.as_slice(),
            self.budget,
            None,
            self.first,
            Form::One,
            &mut sink,
        );
        match printed {
            Printed::Ended(ending) => {
                let bytes = sink.into_bytes();
                Ok(Answer { bytes, ending })
            }
            Printed::Failed => Err(OutOfMemory),
            Printed::OutOfMemory => Err(OutOfMemory),
        }
    }

    /// How many analyses are wanted, or all.
    pub(crate) fn first(&self) -> Option<u64>
        ensures is { result ≡ self.now.first }
        ensures some { IsSome result }
    {
        self.first
    }

    /// Says what its sentence is, and does nothing.
    pub(crate) fn know_problem(&self)
        ensures { IsProblem self.now.parts }
    {
        let _parts = self.problem.parts();
    }

    /// Searches the sentence and keeps what is found. The memory of the search is given back when it has ended.
    pub(crate) fn search(&self, alloc: Global) -> Result<Found, OutOfMemory>
        ensures { IfOk result (λ found. IsSplit self.now.first (self.now ∷ []) found.ending found.found.items) }
    {
        let _parts = self.problem.parts();
        let mut stream = Stream::start(
            alloc,
            &self.problem,
            self.props.as_slice(),
            self.budget,
            None,
        )?;
        find(alloc, &mut stream, self.first)
    }
}
