//! The kinds of values at which a formula looks.

ghost use Rattle.std.specs.Prelude.{◌≡◌, ◌<◌, ℕ, map};
ghost use Rattle.std.specs.Int.{bit_at};
ghost use Rattle.xdg_problem.specs.Claims.{EachIsOf, IsOf, claim, claims_of};
ghost use Rattle.xdg_problem.specs.Problems.{IsProblem};
ghost use Rattle.xdg_formula_value.specs.ClaimKinds.{HasKinds, SomeKindOf};

use xdg_problem::{Formula, Parts};
use xdg_propcore::Wake;

/// The kinds of values at which a formula looks: the edges of a dimension, its attributes, or entries.
#[cycle(kinds)]
#[tactic(auto, using(crate::proofs::Claiming::the_claims))]
pub(crate) fn kinds_of(parts: &Parts, formula: &Formula) -> Wake
    requires problem { IsProblem parts.now }
    requires is_of { IsOf parts.now (claim formula.now) }
    ensures { HasKinds (claim formula.now) result.0 }
{
    match formula {
        Formula::Not(inner) => kinds_of(parts, inner.get()),
        Formula::And(all) => kinds_of_each(parts, all.as_slice()),
        Formula::Or(all) => kinds_of_each(parts, all.as_slice()),
        Formula::Every(_, inner) => kinds_of(parts, inner.get()),
        Formula::Any(_, inner) => kinds_of(parts, inner.get()),
        Formula::Edge(dim, _, _, _) => Wake::edges(*dim),
        Formula::Above(dim, _, _) => Wake::edges(*dim),
        Formula::Left(_, _) => Wake(0),
        Formula::Same(_, _) => Wake(0),
        Formula::Attr(_, dim, _, _) => Wake::attrs(*dim),
        Formula::Feat(_, _) => Wake::entries(),
    }
}

/// The kinds of values at which some formulas look.
#[cycle(kinds)]
#[tactic(auto, using(xdg_problem::specs::declared::formula::Formula::TheViews::the_lemmas, crate::proofs::Kinding::each_steps))]
fn kinds_of_each(parts: &Parts, formulas: &[Formula]) -> Wake
    requires problem { IsProblem parts.now }
    requires are_of { EachIsOf parts.now (claims_of (map claim formulas.now)) }
    ensures { (kind : ℕ) → SomeKindOf (claims_of (map claim formulas.now)) kind → bit_at result.0 kind ≡ 1 }
{
    let mut kinds = 0;
    for one in formulas {
        kinds |= kinds_of(parts, one).0;
    }
    Wake(kinds)
}
