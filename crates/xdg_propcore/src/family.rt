//! What a family of principles is.

ghost use Rattle.std.specs.Prelude.{IfOk};
ghost use Rattle.xdg_problem.specs.declared.parts.Group.{Group as Use};
ghost use Rattle.xdg_problem.specs.declared.parts.Parts.{Parts};
ghost use Rattle.xdg_problem.specs.declared.parts.Principle.{Principle};
ghost use Rattle.xdg_problem.specs.Problems.{IsGroup};
ghost use Rattle.xdg_rules.specs.Rules.{IsClosedFor};
ghost use Rattle.xdg_store.specs.States.{Known};
ghost use Rattle.xdg_propcore.specs.Families.{StaysClosed};
ghost use Rattle.xdg_propcore.specs.Standing.{HeldIf};
ghost use Rattle.xdg_propcore.specs.Sweeps.{Sweeps};

use crate::pass::Pass;
use std::alloc::Global;
use xdg_base::OutOfMemory;
use xdg_problem::{Group, Problem};
use xdg_store::{Mark, Store};

/// Principles whose uses take values away in one way. Their propagator is [`UseProp`](crate::UseProp), which keeps a value of the family.
pub trait Family: Drop {
    /// The principles of the family.
    ghost holds: { Principle → Type 0 };

    /// Of which principle uses it keeps what it should: of which sentence, and which.
    ghost fits: { Self → Parts → Use → Type 0 };

    /// What is kept of a principle use of a sentence.
    fn of(alloc: Global, problem: &Problem, group: &Group) -> Result<Self, OutOfMemory>
        requires group { IsGroup problem.now group.now }
        requires family { holds group.now.principle }
        ensures { IfOk result (λ kept. fits kept problem.now group.now) };

    /// Takes from a box what a principle use of the family takes: where nothing was taken, the box is closed for it. Where it was
    /// closed at a mark of the store, only what has been lost since then has to be looked at.
    fn sweep(&self, store: &mut Store, pass: &mut Pass, group: &Group, since: &Option<Mark>)
        requires known { Known store.old }
        requires group { IsGroup store.old.parts group.now }
        requires family { holds group.now.principle }
        requires fits { fits self.now store.old.parts group.now }
        requires held { HeldIf (λ parts box. IsClosedFor parts group.now box) store.old since.now }
        ensures { Sweeps group.now (IsClosedFor store.old.parts group.now) pass.old store.old pass.new store.new };

    /// A law, and nothing to run: what is closed for a use stays so while no value is lost at which its tests look.
    fn stays()
        ensures { StaysClosed holds };
}
