//! The propagator of a rule.

ghost use Rattle.std.specs.Prelude.{◌≡◌, ◌<◌, ◌+◌, ◌-◌, ◌^◌, ◌↔◌, ℕ, Bool, List, IfOk, IsTrue, length, min};
ghost use Rattle.xdg_problem.specs.declared.parts.Parts.{Parts as Sentence};
ghost use Rattle.xdg_problem.specs.declared.parts.Principle.TheVariants as principles;
ghost use Rattle.xdg_problem.specs.Claims.{Suits, claim};
ghost use Rattle.xdg_problem.specs.Problems.{IsGroup, IsProblem};
ghost use Rattle.xdg_rules.specs.Rules.{IsClosedFor};
ghost use Rattle.xdg_rules.specs.Worths.{RuleFalse};
ghost use Rattle.xdg_store.specs.States.{Known};
ghost use Rattle.xdg_propcore.specs.Kinds.{AreNamed};
ghost use Rattle.xdg_propcore.specs.Standing.{Held, HeldIf};
ghost use Rattle.xdg_propcore.specs.Steps.{Extends, Keeps, Moves};
ghost use Rattle.xdg_propcore.specs.Sweeps.{Sweeps};
ghost use Rattle.xdg_propcore.specs.Uses.{IsClosedBy, StandsFor, StandsIn, use_at};
ghost use Rattle.xdg_propcore.specs.declared.moved.Moved.TheVariants as moves;
ghost use Rattle.xdg_formula_value.specs.Standing.{HasKindsOf, IsRule, stands_for};

use crate::kinds::kinds_of;
use crate::since::is_false_since;
use crate::value::is_false;
use xdg_base::OutOfMemory;
use xdg_problem::{Formula, Group, Parts, Principle, Problem};
use xdg_propcore::{Moved, Pass, Propagator, Wake, use_of};
use xdg_store::{Mark, Store};

/// Fails where the formula of a rule is false in the box, and takes nothing else.
#[derive(Debug, Drop)]
pub struct RuleProp {
    number: usize,
    wakes: Wake,
}

/// The kinds of values at which a rule looks.
fn wakes_of(parts: &Parts, group: &Group) -> Wake
    requires problem { IsProblem parts.now }
    requires group { IsGroup parts.now group.now }
    requires rule { IsRule group.now.principle }
    ensures { HasKindsOf group.now.principle result.0 }
{
    match &group.principle {
        Principle::Rule(formula) => kinds_of(parts, formula),
        _ => Wake(0),
    }
}

/// Whether a formula is false in the box of a store, which it wasn't at a mark, if there is one.
fn fails(store: &Store, formula: &Formula, since: &Option<Mark>) -> bool
    requires suits { Suits store.now.parts formula.now }
    requires open { HeldIf (λ parts box. RuleFalse parts formula.now box → ⊥) store.now since.now }
    ensures exact { IsTrue result ↔ RuleFalse store.now.parts formula.now store.now.now }
    ensures known { Known store.now }
{
    match *since {
        Some(mark) => is_false_since(store, formula, mark),
        None => is_false(store, formula),
    }
}

/// Keeps that a rule fails, where its formula is false in the box. It was still at a mark, if there is one.
fn sweep(store: &Store, pass: &mut Pass, group: &Group, since: &Option<Mark>)
    requires known { Known store.now }
    requires group { IsGroup store.now.parts group.now }
    requires rule { IsRule group.now.principle }
    requires held { HeldIf (λ parts box. IsClosedFor parts group.now box) store.now since.now }
    ensures { Sweeps group.now (IsClosedFor store.now.parts group.now) pass.old store.now pass.new store.now }
{
    let Principle::Rule(formula) = &group.principle else {
        return;
    };
    if !fails(store, formula, since) {
        return;
    }
    pass.fail(store);
}

impl RuleProp {
    /// The propagator of a use of a rule, by its number from 0. It takes no memory, so it gives no error.
    pub fn of(problem: &Problem, group: usize) -> Result<RuleProp, OutOfMemory>
        requires within { group < length problem.now.groups }
        requires rule { IsRule (use_at problem.now group).principle }
        ensures { IfOk result (λ p. StandsFor (stands_for p) problem.now group) }
    {
        let parts = problem.parts();
        Ok(RuleProp {
            number: group,
            wakes: wakes_of(parts, &parts.groups.as_slice()[group]),
        })
    }

    /// Takes a step, where it was still at a mark, if there is one.
    fn take_step(&self, store: &mut Store, since: Option<Mark>) -> Moved
        requires stands { StandsIn (stands_for self.now) store.old.parts }
        requires held { HeldIf (λ parts box. IsClosedBy (stands_for self.now) parts box) store.old since }
        ensures extends { Extends store.old store.new }
        ensures keeps { Keeps (stands_for self.now) result store.old store.new }
        ensures same { (result ≡ moves.Same) ↔ IsClosedBy (stands_for self.now) store.old.parts store.old.now }
        ensures moves { Moves result store.old store.new }
        ensures turns { store.new.turns ≡ min (store.old.turns + 1) (2 ^ 64 - 1) }
        ensures known { Known store.new }
    {
        store.turn();
        let group = use_of(store.problem(), self.number);
        let mut pass = Pass::start();
        sweep(store, &mut pass, group, &since);
        pass.moved()
    }
}

impl Propagator for RuleProp {
    ghost stands = { stands_for };

    ghost still = { λ p parts box. IsClosedBy (stands_for p) parts box };

    ghost kinds = { λ p. p.wakes.0 };

    fn wakes(&self) -> Wake {
        self.wakes
    }

    fn step(&self, store: &mut Store) -> Moved {
        self.take_step(store, None)
    }

    fn step_since(&self, store: &mut Store, since: Mark) -> Moved {
        self.take_step(store, Some(since))
    }

    fn laws() {}
}
