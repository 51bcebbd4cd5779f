//! A resumable stream of solutions.

ghost use Rattle.std.specs.Prelude.{◌≡◌, ℕ, List, [], None, IfOk};
ghost use Rattle.std.specs.Option.{option_copied};
ghost use Rattle.xdg_problem.specs.Vectors.{analysis_of};
ghost use Rattle.xdg_propcore.specs.Uses.{AllStandIn};
ghost use Rattle.xdg_stream.specs.Streamed.{Advances, IsCharged, IsStart, start_vector};

use crate::front::BoxFront;
use crate::held::{Held, refill_numbers};
use crate::search::{Front, Search, Step};
use crate::starting::start_of;
use std::alloc::Global;
use std::marker::Model;
use xdg_base::{EntryNo, OutOfMemory};
use xdg_problem::{Analysis, Edge, Problem};
use xdg_propcore::Propagator;

/// The solutions of a sentence after a start, one after another. It goes through the boxed prefixes and charges each once.
/// Only [`Stream::start`] takes memory. As an iterator it gives each step up to the first `End` or `Spent`.
#[derive(Drop)]
pub struct Stream<'a, P: Propagator> {
    search: Search<BoxFront<'a, P>>,
    // The vector of the start, of which contracts speak. No call changes it.
    start: Vec<u16>,
    // The solution that was found last, and before that the start.
    last: Held<'a>,
    ended: bool,
}

impl<'a, P: Propagator> Model for Stream<'a, P> {
    ghost use Rattle.std.specs.Prelude.{◌≡◌};
    ghost use Rattle.std.specs.Option.{is_some};
    ghost use Rattle.std.specs.Vec.{vec_capacity};
    ghost use Rattle.xdg_stream.specs.Streamed.{IsStream, Streamed, seen};
    ghost use Rattle.std.specs.Coded.{codes};
    ghost use Rattle.xdg_problem.specs.contracts.formula.Formula as formula;

    ghost Value = { Streamed };

    ghost coded = { Prim.hlevel (codes, formula.the_row.coded) };

    ghost view = { λ s. seen s.search.front.parts s.start.items s.search.budget s.search.charged s.search.reached.items s.last.numbers s.search.done };

    ghost invariant = { λ s. IsStream
        (seen s.search.front.parts s.start.items s.search.budget s.search.charged s.search.reached.items s.last.numbers s.search.done) s.search.front.numbers
        s.search.value (vec_capacity s.search.reached)
        × (s.last.parts ≡ s.search.front.parts)
        × (s.ended ≡ is_some s.search.done) };
}

impl<'a, P: Propagator> Stream<'a, P> {
    /// A stream with a budget that goes on right behind an analysis, which need not be a solution, or from the beginning. The
    /// propagators stand for the principle uses of the sentence.
    ///
    /// # Errors
    ///
    /// Fails where memory runs out.
    pub fn start(
        alloc: Global,
        problem: &'a Problem,
        props: &'a [P],
        budget: u64,
        after: Option<&Analysis>,
    ) -> Result<Stream<'a, P>, OutOfMemory>
        requires stand { AllStandIn P.stands props.now problem.now }
        requires fits { IsStart problem.now (option_copied after) }
        ensures given { IfOk result
            (λ stream. (stream.parts ≡ problem.entry.now) × (stream.start ≡ start_vector problem.entry.now (option_copied after.entry))
            × (stream.budget ≡ budget)) }
        ensures fresh { IfOk result (λ stream. (stream.front ≡ stream.start) × (stream.last ≡ stream.start) × (stream.charged ≡ 0) × (stream.ended ≡ None)) }
        ensures charged { IfOk result (λ stream. IsCharged stream []) }
    {
        let front = BoxFront::start(alloc, problem, props)?;
        let start = start_of(alloc, problem, front.edge_places(), after)?;
        let mut last = Held::start(alloc, problem, front.edge_places())?;
        last.refill(front.edge_places(), start.as_slice());
        let mut reached = Vec::with_capacity(alloc, problem.decisions() as usize)?;
        refill_numbers(&mut reached, start.as_slice());
        Ok(Stream {
            search: Search::start(front, budget, reached),
            start,
            last,
            ended: false,
        })
    }

    /// Goes on to the next solution. After `End` and `Spent` it answers the same again and changes nothing.
    pub fn advance(&mut self) -> Step
        ensures step { Advances self.old result self.new }
        ensures charged { (answers : List (List ℕ)) × IsCharged self.new answers }
    {
        let step = self.search.advance();
        match step {
            Step::Found => {
                let front = self.search.front();
                self.last.refill(front.edge_places(), front.prefix());
                Step::Found
            }
            Step::End => {
                self.ended = true;
                Step::End
            }
            Step::Spent => {
                self.ended = true;
                Step::Spent
            }
        }
    }

    /// The entries of the analysis that was found last, and before that the start's, node by node.
    pub fn entries(&self) -> &[EntryNo]
        ensures { result.now ≡ (analysis_of self.now.parts self.now.last).entries }
    {
        self.last.entries()
    }

    /// The numbers of its attributes' values, by dimension, node and attribute.
    pub fn attrs(&self) -> &[u16]
        ensures { result.now ≡ (analysis_of self.now.parts self.now.last).attrs }
    {
        self.last.attrs()
    }

    /// Its edges, in their order.
    pub fn edges(&self) -> &[Edge]
        ensures { result.now ≡ (analysis_of self.now.parts self.now.last).edges }
    {
        self.last.edges()
    }

    /// How many boxed prefixes have been charged since the start.
    pub fn charged(&self) -> u64
        ensures { result ≡ self.now.charged }
    {
        self.search.charged()
    }
}

impl<P: Propagator> Iterator for Stream<'_, P> {
    type Item = Step;

    ghost use Rattle.std.specs.Prelude.{◌-◌};
    ghost use Rattle.xdg_stream.specs.Streamed.{Gives, steps_left};

    ghost next_gives = { Gives };

    ghost remaining = { λ s. steps_left s.ended (s.budget - s.charged) };

    fn next(&mut self) -> Option<Step> {
        if self.ended {
            return None;
        }
        Some(self.advance())
    }
}
