//! How many uses of classes and how many combinations an expression has, given those of the classes.

ghost use Rattle.std.specs.Prelude.{◌≡◌};
ghost use Rattle.xdg_classes.specs.Bodies.{body};
ghost use Rattle.xdg_check.specs.Counts as spec;
ghost use Rattle.xdg_facts.specs.Capped.{capped};

use crate::checked::Class;
use xdg_ast::{Expr, ExprKind};
use xdg_names::Index;

/// The uses that are kept of the class with that name, or 0 where there is none.
pub(crate) fn kept_uses(names: &Index, classes: &[Class], name: &str) -> u64
    ensures { result ≡ spec.looked_up (λ c. c.uses) names.now classes.now name.now }
{
    match names.find(name) {
        None => 0,
        Some(place) => match classes.get(place) {
            None => 0,
            Some(class) => class.uses,
        },
    }
}

/// The combinations that are kept of the class with that name, or 0 where there is none.
pub(crate) fn kept_combos(names: &Index, classes: &[Class], name: &str) -> u64
    ensures { result ≡ spec.looked_up (λ c. c.combos) names.now classes.now name.now }
{
    match names.find(name) {
        None => 0,
        Some(place) => match classes.get(place) {
            None => 0,
            Some(class) => class.combos,
        },
    }
}

/// The unfolded uses of classes in an expression, or the greatest `u64`.
pub(crate) fn uses_in(names: &Index, classes: &[Class], expr: &ExprKind) -> u64
    ensures { result ≡ capped (spec.uses (spec.looked_up (λ c. c.uses) names.now classes.now) (body expr.now)) }
{
    match expr {
        ExprKind::Or(members) => {
            let mut sum: u64 = 0;
            for member in members.as_slice() {
                sum = sum.saturating_add(uses_in(names, classes, &member.kind));
            }
            sum
        }
        ExprKind::And(members) => {
            let mut sum: u64 = 0;
            for member in members.as_slice() {
                sum = sum.saturating_add(uses_in(names, classes, &member.kind));
            }
            sum
        }
        ExprKind::Dim(_, _) => 0,
        ExprKind::Use(name, _) => kept_uses(names, classes, name.text.as_str()).saturating_add(1),
    }
}

/// The combinations of an expression, or the greatest `u64`.
pub(crate) fn combos_in(names: &Index, classes: &[Class], expr: &ExprKind) -> u64
    ensures { result ≡ capped (spec.combos (spec.looked_up (λ c. c.combos) names.now classes.now) (body expr.now)) }
{
    match expr {
        ExprKind::Or(members) => {
            let mut sum: u64 = 0;
            for member in members.as_slice() {
                sum = sum.saturating_add(combos_in(names, classes, &member.kind));
            }
            sum
        }
        ExprKind::And(members) => {
            let mut product: u64 = 1;
            for member in members.as_slice() {
                product = product.saturating_mul(combos_in(names, classes, &member.kind));
            }
            product
        }
        ExprKind::Dim(_, _) => 1,
        ExprKind::Use(name, _) => kept_combos(names, classes, name.text.as_str()),
    }
}
