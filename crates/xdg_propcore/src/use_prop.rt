//! The propagator of a principle use.

ghost use Rattle.std.specs.Prelude.{◌≡◌, ◌<◌, ◌+◌, ◌-◌, ◌^◌, ◌↔◌, ℕ, Bool, List, IfOk, length, min};
ghost use Rattle.xdg_problem.specs.Problems.{IsProblem};
ghost use Rattle.xdg_store.specs.States.{Known};
ghost use Rattle.xdg_propcore.specs.Standing.{HeldIf};
ghost use Rattle.xdg_propcore.specs.Steps.{Extends, Keeps, Moves};
ghost use Rattle.xdg_propcore.specs.UseStanding.{stands_for};
ghost use Rattle.xdg_propcore.specs.Uses.{IsClosedBy, StandsFor, StandsIn, use_at};
ghost use Rattle.xdg_propcore.specs.declared.moved.Moved.TheVariants as moves;

use crate::family::Family;
use crate::kinds::kinds_of;
use crate::moved::Moved;
use crate::pass::Pass;
use crate::propagator::Propagator;
use crate::wake::Wake;
use std::alloc::Global;
use xdg_base::OutOfMemory;
use xdg_problem::{Group, Problem};
use xdg_store::{Mark, Store};

/// The propagator of a use of a principle of a family: it keeps the number of the use, the kinds of values that wake it, and what its family keeps of it.
#[derive(Debug, Drop)]
pub struct UseProp<F: Family> {
    number: usize,
    wakes: Wake,
    family: F,
}

/// A principle use of a problem, by its number from 0.
pub fn use_of(problem: &Problem, number: usize) -> &Group
    requires { number < length problem.now.groups }
    ensures is { result.now ≡ use_at problem.now number }
    ensures problem { IsProblem problem.now }
{
    &problem.parts().groups.as_slice()[number]
}

impl<F: Family> UseProp<F> {
    /// The propagator of the principle use of a problem with a number, from 0, one of a principle of the family.
    pub fn of(alloc: Global, problem: &Problem, group: usize) -> Result<UseProp<F>, OutOfMemory>
        requires within { group < length problem.now.groups }
        requires family { F.holds (use_at problem.now group).principle }
        ensures { IfOk result (λ p. StandsFor (stands_for F.holds F.fits p) problem.now group) }
    {
        let found = use_of(problem, group);
        let wakes = kinds_of(found);
        let family = F::of(alloc, problem, found)?;
        Ok(UseProp {
            number: group,
            wakes,
            family,
        })
    }

    /// Takes a step, where it was still at a mark, if there is one.
    fn take_step(&self, store: &mut Store, since: Option<Mark>) -> Moved
        requires stands { StandsIn (stands_for F.holds F.fits self.now) store.old.parts }
        requires held { HeldIf (λ parts box. IsClosedBy (stands_for F.holds F.fits self.now) parts box) store.old since }
        ensures extends { Extends store.old store.new }
        ensures keeps { Keeps (stands_for F.holds F.fits self.now) result store.old store.new }
        ensures same { (result ≡ moves.Same) ↔ IsClosedBy (stands_for F.holds F.fits self.now) store.old.parts store.old.now }
        ensures moves { Moves result store.old store.new }
        ensures turns { store.new.turns ≡ min (store.old.turns + 1) (2 ^ 64 - 1) }
        ensures known { Known store.new }
    {
        store.turn();
        let group = use_of(store.problem(), self.number);
        let mut pass = Pass::start();
        self.family.sweep(store, &mut pass, group, &since);
        pass.moved()
    }
}

impl<F: Family> Propagator for UseProp<F> {
    ghost stands = { stands_for F.holds F.fits };

    ghost still = { λ p parts box. IsClosedBy (stands_for F.holds F.fits p) parts box };

    ghost kinds = { λ p. p.wakes.0 };

    fn wakes(&self) -> Wake {
        self.wakes
    }

    fn step(&self, store: &mut Store) -> Moved {
        self.take_step(store, None)
    }

    fn step_since(&self, store: &mut Store, since: Mark) -> Moved {
        self.take_step(store, Some(since))
    }

    fn laws() {
        F::stays();
    }
}
