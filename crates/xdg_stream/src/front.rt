//! A boxed prefix that grows and shrinks.

ghost use Rattle.std.specs.Prelude.{◌≡◌, ◌≤◌, ◌<◌, ◌++◌, ◌∷◌, ◌⊎◌, ◌+◌, [], true, false, length, map, IfOk, slice_index};
ghost use Rattle.std.specs.Vec.{vec_capacity};
ghost use Rattle.xdg_facts.specs.Fits.{Fits};
ghost use Rattle.xdg_problem.specs.Places.{places};
ghost use Rattle.xdg_problem.specs.Vectors.{shape};
ghost use Rattle.xdg_rules.specs.Boxed.{Boxed};
ghost use Rattle.xdg_store.specs.States.{Known};
ghost use Rattle.xdg_propcore.specs.Uses.{AllStandIn};
ghost use Rattle.xdg_stream.specs.Levels.{AreLevels};

use crate::forced::{add_alone, last_turn};
use crate::narrowing::lengthen;
use crate::search::Front;
use std::alloc::Global;
use std::marker::Model;
use xdg_base::{List, OutOfMemory};
use xdg_problem::{Edge, Problem};
use xdg_propcore::{Agenda, Fixpoint, Propagator, settle};
use xdg_store::{Mark, Store};

/// A boxed prefix of the decisions on a sentence: some closed box agrees with it. It is the front of a depth-first search.
/// For each of its fronts it keeps the greatest closed box, as a mark on the trail of one store; a number more takes the
/// other values of its decision away and settles, and where there are none the box stays, with its mark. That takes no memory.
#[derive(Debug, Drop)]
pub struct BoxFront<'a, P: Propagator> {
    store: Store<'a>,
    props: &'a [P],
    agenda: Agenda,
    // How many decisions there are.
    decisions: usize,
    edge_places: List<Edge>,
    numbers: Vec<u16>,
    // None where no prefix is boxed; else one for each front of the numbers, the empty one first.
    marks: Vec<Mark>,
}

impl<'a, P: Propagator> Model for BoxFront<'a, P> {
    ghost use Rattle.std.specs.Prelude.{◌≡◌, length, map};
    ghost use Rattle.std.specs.Vec.{vec_capacity};
    ghost use Rattle.xdg_store.specs.States.{Known};
    ghost use Rattle.xdg_stream.specs.Fronted.{Fronted, HasFront};
    ghost use Rattle.xdg_stream.specs.Levels.{AllStill, AreAll};
    ghost use Rattle.xdg_propcore.specs.Uses.{AllStandIn};
    ghost use Rattle.xdg_problem.specs.Vectors.{shape};
    ghost use Rattle.std.specs.Coded.{codes};
    ghost use Rattle.xdg_problem.specs.contracts.formula.Formula as formula;

    ghost Value = { Fronted };

    ghost coded = { Prim.hlevel (codes, formula.the_row.coded) };

    ghost view = { λ f. record { parts = f.store.parts; numbers = f.numbers.items } };

    ghost invariant = { λ f. Known f.store
        × AllStandIn P.stands f.props.now f.store.parts
        × (f.agenda ≡ map P.kinds f.props.now)
        × HasFront f.store.parts f.store.history f.edge_places f.marks.items f.numbers.items (vec_capacity f.marks) (vec_capacity f.numbers)
        × AreAll (AllStill P.still f.props.now) f.store.parts f.store.history f.marks.items
        × (f.decisions ≡ length (shape f.store.parts)) };
}

impl<'a, P: Propagator> BoxFront<'a, P> {
    /// The empty prefix, with the greatest closed box of all. All memory that longer prefixes need is taken here.
    ///
    /// # Errors
    ///
    /// Fails where memory runs out.
    pub fn start(
        alloc: Global,
        problem: &'a Problem,
        props: &'a [P],
    ) -> Result<BoxFront<'a, P>, OutOfMemory>
        requires { AllStandIn P.stands props.now problem.now }
        ensures { IfOk result (λ front. (front.parts ≡ problem.entry.now) × (front.numbers ≡ [])) }
    {
        let edge_places = problem.edge_places(alloc)?;
        let decisions = problem.decisions() as usize;
        let numbers = Vec::with_capacity(alloc, decisions)?;
        let mut marks = Vec::with_capacity(alloc, decisions + 1)?;
        let mut agenda = Agenda::start(alloc, problem, props)?;
        let mut store = Store::start(alloc, problem)?;
        match settle(&mut store, props, &mut agenda) {
            Fixpoint::Settled => marks.push_reserved(store.mark()),
            Fixpoint::Dead => {}
        }
        Ok(BoxFront {
            store,
            props,
            agenda,
            decisions,
            edge_places,
            numbers,
            marks,
        })
    }

    /// The places where an edge may stand, in the order in which they are decided.
    pub(crate) fn edge_places(&self) -> &[Edge]
        ensures { result.now ≡ places self.now.parts }
    {
        self.edge_places.as_slice()
    }
}

impl<P: Propagator> Front for BoxFront<'_, P> {
    type Given = Problem;

    ghost use Rattle.std.specs.Prelude.{ℕ, List};
    ghost use Rattle.xdg_facts.specs.Closed.{Closed};
    ghost use Rattle.xdg_stream.specs.Problem.{SameProblem};
    ghost use Rattle.xdg_stream.specs.Closing.{front_closed};

    ghost problem = { λ front. front.parts };

    ghost shape = { λ front. shape front.parts };

    ghost counted = { λ front. Boxed front.parts };

    ghost numbers = { λ front. front.numbers };

    ghost closed = { λ front. front_closed front.parts };

    fn prefix(&self) -> &[u16] {
        self.numbers.as_slice()
    }

    fn decisions(&self) -> usize {
        self.decisions
    }

    fn size(&self, decision: usize) -> u16 {
        self.store.problem().value_count(decision) as u16
    }

    fn push(&mut self, value: u16) -> bool {
        let depth = self.marks.len();
        if depth == 0 {
            return false;
        }
        self.store.undo(self.marks.as_slice()[depth - 1]);
        if !lengthen(
            &mut self.store,
            self.props,
            &mut self.agenda,
            self.decisions,
            self.edge_places.as_slice(),
            depth - 1,
            value,
        ) {
            return false;
        }
        self.marks.push_reserved(self.store.mark());
        self.numbers.push_reserved(value);
        true
    }

    // A number whose decision has one value left doesn't change the box: its front has the mark of the front before it.
    fn follow(&mut self, most: u64) -> u64 {
        let depth = self.marks.len();
        if depth == 0 {
            return 0;
        }
        let mark = self.marks.as_slice()[depth - 1];
        self.store.undo(mark);
        add_alone(
            &self.store,
            self.decisions,
            self.edge_places.as_slice(),
            mark,
            &mut self.marks,
            &mut self.numbers,
            most,
        )
    }

    fn back(&mut self) -> Option<u16> {
        let depth = last_turn(self.marks.as_slice());
        if depth == 0 {
            self.marks.truncate(1);
            self.numbers.clear();
            return None;
        }
        let value = self.numbers.as_slice()[depth - 1];
        self.marks.truncate(depth);
        self.numbers.truncate(depth - 1);
        Some(value)
    }
}
