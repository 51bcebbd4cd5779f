//! What a propagator is.

ghost use Rattle.std.specs.Prelude.{◌≡◌, ◌<◌, ◌+◌, ◌-◌, ◌^◌, ◌↔◌, ℕ, Bool, List, min};
ghost use Rattle.xdg_rules.specs.Rules.{IsClosedFor};
ghost use Rattle.xdg_problem.specs.declared.parts.Parts.{Parts};
ghost use Rattle.xdg_problem.specs.Boxes.{IsBox, LiesIn};
ghost use Rattle.xdg_problem.specs.Problems.{IsProblem};
ghost use Rattle.xdg_problem.specs.Vectors.{shape};
ghost use Rattle.xdg_store.specs.States.{Known};
ghost use Rattle.xdg_propcore.specs.Kinds.{AreNamed};
ghost use Rattle.xdg_propcore.specs.Losses.{LosesOutside};
ghost use Rattle.xdg_propcore.specs.Standing.{Held};
ghost use Rattle.xdg_propcore.specs.Steps.{Extends, Keeps, Moves};
ghost use Rattle.xdg_propcore.specs.Uses.{IsClosedBy, StandsFor, StandsIn, use_at};

use crate::moved::Moved;
use crate::wake::Wake;
use xdg_store::{Mark, Store};

/// Takes values away from a box by the rules of a principle use, and only values that are in no box inside that is closed
/// for the principle use.
pub trait Propagator: Drop {
    /// For which principle uses it stands: of which sentence, and which by its number from 0.
    ghost stands: { Self → Parts → ℕ → Type 0 };

    /// On which boxes of a sentence it is still: it has nothing to do.
    ghost still: { Self → Parts → List (List Bool) → Type 0 };

    /// The kinds of values whose loss wakes it.
    ghost kinds: { Self → ℕ };

    /// The kinds of values whose loss wakes it. The tests of its principle name each of them.
    fn wakes(&self) -> Wake
        ensures kinds { result.0 ≡ kinds self.now }
        ensures named { (parts : Parts) (number : ℕ) → StandsFor (stands self.now) parts number → AreNamed parts (use_at parts number) result.0 };

    /// Takes values away, and counts a turn of the store.
    fn step(&self, store: &mut Store) -> Moved
        requires stands { StandsIn (stands self.now) store.old.parts }
        ensures extends { Extends store.old store.new }
        ensures keeps { Keeps (stands self.now) result store.old store.new }
        ensures same { (result ≡ Moved.Same) ↔ still self.now store.old.parts store.old.now }
        ensures moves { Moves result store.old store.new }
        ensures turns { store.new.turns ≡ min (store.old.turns + 1) (2 ^ 64 - 1) }
        ensures known { Known store.new };

    /// The same, where it was still at a mark of the store: it may look at what has been lost since then alone.
    fn step_since(&self, store: &mut Store, since: Mark) -> Moved
        requires stands { StandsIn (stands self.now) store.old.parts }
        requires held { Held (still self.now) store.old since }
        ensures extends { Extends store.old store.new }
        ensures keeps { Keeps (stands self.now) result store.old store.new }
        ensures same { (result ≡ Moved.Same) ↔ still self.now store.old.parts store.old.now }
        ensures moves { Moves result store.old store.new }
        ensures turns { store.new.turns ≡ min (store.old.turns + 1) (2 ^ 64 - 1) }
        ensures known { Known store.new }
    {
        let _ = since;
        self.step(store)
    }

    /// Two laws, and nothing to run. Where it is still, no rule of its principle takes a value that remains; and it stays still
    /// while the box loses values of other kinds.
    fn laws()
        ensures still_closed { (p : Self) (parts : Parts) (box : List (List Bool)) → IsProblem parts → IsBox (shape parts) box → still p parts box
            → IsClosedBy (stands p) parts box }
        ensures stays_still { (p : Self) (parts : Parts) (number : ℕ) (old new : List (List Bool)) → IsProblem parts → StandsFor (stands p) parts number
            → IsBox (shape parts) old → IsBox (shape parts) new → LiesIn new old
            → LosesOutside parts (kinds p) old new → still p parts old → still p parts new };
}
