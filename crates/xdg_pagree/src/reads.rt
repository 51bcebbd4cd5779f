//! Of which principle a use is.

ghost use Rattle.std.specs.Prelude.{◌≡◌, ◌↔◌, IsTrue};
ghost use Rattle.xdg_problem.specs.declared.parts.Principle.TheVariants as principles;

use xdg_problem::{Group, Principle};

/// Whether a principle use is one of agr.
pub(crate) fn is_agr(group: &Group) -> bool
    ensures { IsTrue result ↔ (group.now.principle ≡ principles.Agr) }
{
    match &group.principle {
        Principle::Agr => true,
        _ => false,
    }
}

/// Whether a principle use is one of agreement.
pub(crate) fn is_agreement(group: &Group) -> bool
    ensures { IsTrue result ↔ (group.now.principle ≡ principles.Agreement) }
{
    match &group.principle {
        Principle::Agreement => true,
        _ => false,
    }
}
