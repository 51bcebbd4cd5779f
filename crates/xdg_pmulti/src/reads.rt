//! Of which principle a use is.

ghost use Rattle.std.specs.Prelude.{◌≡◌, ◌↔◌, IsTrue};
ghost use Rattle.xdg_problem.specs.declared.parts.Principle.TheVariants as principles;

use xdg_problem::{Group, Principle};

/// Whether a principle use is one of climbing.
pub(crate) fn is_climbing(group: &Group) -> bool
    ensures { IsTrue result ↔ (group.now.principle ≡ principles.Climbing) }
{
    match &group.principle {
        Principle::Climbing => true,
        _ => false,
    }
}
