//! How many uses of classes and how many combinations an expression of a checked grammar has.

ghost use Rattle.std.specs.Prelude.{◌≡◌};
ghost use Rattle.xdg_classes.specs.Bodies.{body};
ghost use Rattle.xdg_check.specs.Counts as spec;
ghost use Rattle.xdg_facts.specs.Capped.{capped};

use crate::checked::Checked;
use crate::counting::{combos_in, uses_in};
use xdg_ast::Expr;

/// How many uses of classes an expression has, those in the bodies of the used classes included, or the greatest `u64`. A
/// name that no class has counts as a use of an empty body. The time is linear in the length of the expression.
pub fn uses_of(checked: &Checked, expr: &Expr) -> u64
    ensures { (names : spec.Counting) → spec.Agrees spec.uses checked.now.classes names → result ≡ capped (spec.uses names (body expr.now.kind)) }
{
    uses_in(&checked.names, checked.classes.as_slice(), &expr.kind)
}

/// How many combinations of records an expression has, or the greatest `u64`. A name that no class has counts as none. The
/// time is linear in the length of the expression.
pub fn combos_of(checked: &Checked, expr: &Expr) -> u64
    ensures { (names : spec.Counting) → spec.Agrees spec.combos checked.now.classes names → result ≡ capped (spec.combos names (body expr.now.kind)) }
{
    combos_in(&checked.names, checked.classes.as_slice(), &expr.kind)
}
