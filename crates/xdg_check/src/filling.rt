//! The counts of classes, each counted once.

ghost use Rattle.std.specs.Prelude.{◌≡◌, map};
ghost use Rattle.xdg_facts.specs.Membership.{Differ};
ghost use Rattle.xdg_check.specs.Checked.{IsOrder};
ghost use Rattle.xdg_check.specs.Counts.{class_texts, bare, uses, combos, AreCounted};

use crate::checked::Class;
use crate::counting::{combos_in, uses_in};
use xdg_names::Index;

/// Counts the bodies of the classes, each once, given their names and an order in which each class comes after those that
/// its body uses.
pub(crate) fn fill_counts(names: &Index, classes: &mut [Class], order: &[usize])
    requires names { names.now ≡ class_texts classes.old }
    requires apart { Differ (class_texts classes.old) }
    requires ordered { IsOrder classes.old order.now }
    ensures same { map bare classes.new ≡ map bare classes.old }
    ensures uses { AreCounted uses (λ c. c.uses) classes.new }
    ensures combos { AreCounted combos (λ c. c.combos) classes.new }
{
    for place in order {
        let known: &[Class] = classes;
        let body = &known[*place].body.kind;
        let uses = uses_in(names, known, body);
        let combos = combos_in(names, known, body);
        let class = &mut classes[*place];
        class.uses = uses;
        class.combos = combos;
    }
}
