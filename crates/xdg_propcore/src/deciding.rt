//! What a propagator that is still has decided.

ghost use Rattle.xdg_propcore.specs.Decides.{Decides};

use crate::propagator::Propagator;

/// A law of each propagator, and nothing to run: where all values of a box on which it is still are single, their analysis
/// satisfies each principle use for which it stands. So a search that has settled each decision has found a solution, and
/// nothing is left to test. It rests on the law that a box of single values is closed exactly where the relation holds.
pub fn still_decides<P: Propagator>()
    ensures { (p : P) → Decides (P.stands p) (P.still p) }
{
    P::laws();
}
